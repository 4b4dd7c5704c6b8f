// A block of the link log: 512 bytes, whose head says the block's number, how many bytes of the payload are used, where in
// the payload the first record begins, and the check.
//
// `seal` lays bytes behind those that a block has, and makes its head anew. `good` judges a block that was read. Both take
// slices of any length: no other length than 512 is good, and of another `seal` makes nothing.
#![tactic(auto)]

ghost use Rattle.std.specs.Prelude.{◌≡◌, ◌≤◌, length, drop};
ghost use Rattle.blocks.specs.Check.{check_of};
ghost use Rattle.blocks.specs.Block.{HEAD, PAYLOAD, body_of, number_in, used_in, place_in, check_in, may_use, may_begin, all_zero, is_good};
ghost use Rattle.blocks.specs.Sealed.{joined_to, headed, sealed};

// The bytes of a block, of its head, and of its payload.
pub const BLOCK: usize = 512;

pub const HEAD: usize = 8;

pub const PAYLOAD: usize = BLOCK - HEAD;

// The place of the first record where none begins: a number of the format, which `seal` lays as any other place.
pub const NONE: u32 = 65535;

// Where the words of the head stand.
const NUMBER_AT: usize = 0;

const USED_AT: usize = 2;

const PLACE_AT: usize = 4;

const CHECK_AT: usize = 6;

// The words that there are, and the greatest.
const WORDS: u32 = 65536;

const WORD_MAX: u32 = WORDS - 1;

// The check of a block. The words, low byte first, are summed without a carry, since 256 of them fit, and the carries are brought
// round at the end: once for the sum, and once more for the carry that this may make.
fn check(block: &[u8; BLOCK]) -> u16
    ensures { result ≡ check_of block.now }
{
    let (words, _) = block.as_chunks();
    let mut sum = 0;
    for word in words {
        sum += u32::from(u16::from_le_bytes(*word));
    }
    let counted = sum - u32::from(check_in(block));
    let once = counted % WORDS + counted / WORDS;
    (WORD_MAX - (once % WORDS + once / WORDS)) as u16
}

// Whether a block may have so many bytes used: only the last may be partly used.
#[tactic(auto, unfolding(crate::specs::Block::may_use))]
fn may_use(last: bool, used: usize) -> bool
    ensures { result ≡ may_use last used }
{
    if last {
        used <= PAYLOAD
    } else {
        used == PAYLOAD
    }
}

// Whether the first record may begin there.
#[tactic(auto, unfolding(crate::specs::Block::may_begin))]
fn may_begin(used: u16, place: u16) -> bool
    ensures { result ≡ may_begin used place }
{
    place < used || u32::from(place) == NONE
}

#[tactic(auto, unfolding(crate::specs::Block::all_zero))]
fn all_zero(bytes: &[u8]) -> bool
    ensures { result ≡ all_zero bytes.now }
{
    bytes.iter().all(|byte| *byte == 0)
}

// Whether these are the bytes of the block of that number, which is the last or not.
#[tactic(auto, using(crate::proofs::Judged::rests_from, crate::proofs::Judged::uses_le))]
pub fn good(block: &[u8], number: u32, last: bool) -> bool
    ensures { result ≡ is_good last number block.now }
{
    let Some(block) = block.as_array() else {
        return false;
    };
    if u32::from(self::number(block)) != number {
        return false;
    }
    let used = used(block);
    if !may_use(last, usize::from(used)) {
        return false;
    }
    if !may_begin(used, place(block)) {
        return false;
    }
    if check_in(block) != check(block) {
        return false;
    }
    let end = HEAD + usize::from(used);
    all_zero(&block[end..])
}

// Lays the bytes behind the first bytes of the payload, and zeros behind them. Says how many are used then.
fn fill(block: &mut [u8; BLOCK], used: usize, bytes: &[u8]) -> usize
    requires { used ≤ PAYLOAD }
    ensures count { result ≡ length (joined_to used bytes.now block.old) }
    ensures body { drop HEAD block.new ≡ body_of (joined_to used bytes.now block.old) }
{
    let all = used + bytes.len().min(PAYLOAD - used);
    lists::copy_at(block, HEAD + used, bytes);
    lists::clear(&mut block[HEAD + all..]);
    all
}

// Writes the head, with the check of the block that has this head.
fn lay_head(block: &mut [u8; BLOCK], number: u16, used: u16, place: u16)
    ensures { block.new ≡ headed number used place block.old }
{
    lists::copy_at(block, NUMBER_AT, &number.to_le_bytes());
    lists::copy_at(block, USED_AT, &used.to_le_bytes());
    lists::copy_at(block, PLACE_AT, &place.to_le_bytes());
    let sum = check(block);
    lists::copy_at(block, CHECK_AT, &sum.to_le_bytes());
}

// The bytes are laid behind the first `used` of the payload, as far as it has room, and zeros behind them; then the head is
// written. Where this can make no block, nothing is written.
pub fn seal(block: &mut [u8], number: u32, place: u32, used: usize, bytes: &[u8])
    ensures { block.new ≡ sealed number place used bytes.now block.old }
{
    let Some(block) = block.as_mut_array() else {
        return;
    };
    if PAYLOAD < used {
        return;
    }
    let Ok(number) = u16::try_from(number) else {
        return;
    };
    let Ok(place) = u16::try_from(place) else {
        return;
    };
    let all = fill(block, used, bytes);
    lay_head(block, number, all as u16, place);
}

// The number in a block's head.
#[tactic(auto, unfolding(crate::specs::Block::number_in))]
pub fn number(block: &[u8]) -> u16
    ensures { result ≡ number_in block.now }
{
    numbers::short_at(block, NUMBER_AT)
}

// How many bytes of the payload its head says are used.
#[tactic(auto, unfolding(crate::specs::Block::used_in))]
pub fn used(block: &[u8]) -> u16
    ensures { result ≡ used_in block.now }
{
    numbers::short_at(block, USED_AT)
}

// The place of the first record in it.
#[tactic(auto, unfolding(crate::specs::Block::place_in))]
pub fn place(block: &[u8]) -> u16
    ensures { result ≡ place_in block.now }
{
    numbers::short_at(block, PLACE_AT)
}

// The check that its head has.
#[tactic(auto, unfolding(crate::specs::Block::check_in))]
fn check_in(block: &[u8]) -> u16
    ensures { result ≡ check_in block.now }
{
    numbers::short_at(block, CHECK_AT)
}
