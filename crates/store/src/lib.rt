// The message store: record k owns the part that begins at 4,096 × k.
//
// Only a channel's own part is lent on to be written. A store of another size, or a place from sixteen on, has no part:
// there nothing is written.
#![tactic(auto)]

ghost use Rattle.std.specs.Prelude.{◌≡◌, length};
ghost use Rattle.paper.specs.Sizes.{PART};
ghost use Rattle.lists.specs.Bytes.{laid};
ghost use Rattle.store.specs.Parts.{has_part, block_put, part_cleared};

use paper::{PART, PARTS, STORE};

// Whether a store of so many bytes has the part.
#[tactic(auto, unfolding(crate::specs::Parts::has_part, paper::specs::Sizes::PARTS, paper::specs::Sizes::STORE))]
fn has_part(size: usize, k: usize) -> bool
    ensures { result ≡ has_part size k }
{
    size == STORE && k < PARTS
}

// The block goes into the part from a place on, as `lists::copy_at` has it, by way of an array of its own.
//
// The compiler makes of the two copies one call that moves bytes, and leaves the array out: what is lent to neither copy can't
// overlap what is. Of a copy from one lent slice to another it makes a loop, since it isn't told that the two lie apart, which
// takes twice as long. The part is cut out of the store by its place, so it comes as a slice, and its length is asked for.
fn fill(part: &mut [u8], at: usize, block: &[u8])
    requires { length part.old ≡ PART }
    ensures { part.new ≡ laid part.old at block.now }
{
    if PART <= at {
        return;
    }
    let mut between = [0; PART];
    let n = block.len().min(PART - at);
    between[..n].copy_from_slice(&block[..n]);
    part[at..at + n].copy_from_slice(&between[..n]);
}

// The block goes into part k from a place on. The part's other bytes stay, and so do all other parts.
#[tactic(auto, using(crate::proofs::Parts::putting), unfolding(paper::specs::Sizes::PART, paper::specs::Sizes::MESSAGE_MAX))]
pub fn put_block(store: &mut [u8], k: usize, at: usize, block: &[u8])
    ensures { store.new ≡ block_put store.old k at block.now }
{
    if !has_part(store.len(), k) {
        return;
    }
    let start = PART * k;
    fill(&mut store[start..start + PART], at, block);
}

// Every byte of part k becomes zero. All other parts stay.
#[tactic(auto, using(crate::proofs::Parts::clearing), unfolding(paper::specs::Sizes::PART, paper::specs::Sizes::MESSAGE_MAX))]
pub fn clear_part(store: &mut [u8], k: usize)
    ensures { store.new ≡ part_cleared store.old k }
{
    if !has_part(store.len(), k) {
        return;
    }
    let start = PART * k;
    lists::clear(&mut store[start..start + PART]);
}
