// The listener list: the names that the host listens for, each ended by a zero byte.
//
// `good` says whether bytes are such a list, and `listed` whether a name is in it. Both take any bytes.
#![tactic(auto)]

ghost use Rattle.std.specs.Prelude.{◌≡◌, ◌∷◌, ◌++◌, length, MatchOption};
ghost use Rattle.lists.specs.Bytes.{is_zero};
ghost use Rattle.lists.specs.Places.{place};
ghost use Rattle.listeners.specs.Listeners.{same_bytes, good_list, is_listed};

use paper::LIST_MAX;

// Whether two names match, byte by byte, case included. By index: `==` of the library stays a call of its own in an archive for C, where
// all else that a call does is compiled into one function.
fn same(a: &[u8], b: &[u8]) -> bool
    ensures { result ≡ same_bytes a.now b.now }
{
    if a.len() != b.len() {
        return false;
    }
    for i in 0..a.len() {
        if a[i] != b[i] {
            return false;
        }
    }
    true
}

// The first name of a list, and what stands behind its zero byte. Bytes that no zero byte ends are no name.
#[tactic(auto, using(lists::proofs::Places::place_le))]
fn first_name(list: &[u8]) -> Option<(&[u8], &[u8])>
    ensures { MatchOption result (place is_zero list.now ≡ length list.now) (λ p. (list.now ≡ p.0.now ++ (0 ∷ p.1.now)) × (place is_zero p.0.now ≡ length p.0.now)) }
{
    let n = lists::first_zero(list);
    if n == list.len() {
        return None;
    }
    Some((&list[..n], &list[n + 1..]))
}

// Whether the bytes are a listener list: at most 512, and nothing but names of one or more bytes, each with its zero.
#[tactic(auto, using(crate::proofs::Walk::judging), unfolding(paper::specs::Sizes::LIST_MAX))]
pub fn good(list: &[u8]) -> bool
    ensures { result ≡ good_list list.now }
{
    if LIST_MAX < list.len() {
        return false;
    }
    let mut rest = list;
    while let Some((name, behind)) = first_name(rest) {
        if name.is_empty() {
            return false;
        }
        rest = behind;
    }
    rest.is_empty()
}

// Whether the name is one of the list's. An empty name never is, and bytes that no zero ends are no name.
#[tactic(auto, using(crate::proofs::Walk::looking))]
pub fn listed(list: &[u8], name: &[u8]) -> bool
    ensures { result ≡ is_listed list.now name.now }
{
    if name.is_empty() {
        return false;
    }
    let mut rest = list;
    while let Some((first, behind)) = first_name(rest) {
        if same(first, name) {
            return true;
        }
        rest = behind;
    }
    false
}
