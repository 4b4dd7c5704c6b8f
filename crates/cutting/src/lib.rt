// The cutter: a message in blocks, each the data of one PDU. The host in C calls it by `dvc_cut`.
//
// 1. Call `cut` with offset 0 and a buffer of at least 1,600 bytes, and send the PDU at the buffer's front.
// 2. While the next offset is not the message's length, call it with that offset, and send.
//
// It refuses in the paper's order: 1, the buffer; 11, the message's length; 14, an offset where no block starts. The bytes
// behind the PDU stay, and a refusal leaves all. No call asks anything of the one before: the offset says it all.
#![tactic(auto)]

ghost use Rattle.std.specs.Prelude.{◌≡◌, ◌≤◌, length};
ghost use Rattle.paper.specs.Sizes.{MESSAGE_MAX};
ghost use Rattle.lists.specs.Bytes.{laid};
ghost use Rattle.cutting.specs.Cutting.{is_first, header_len, block_end, is_start, piece_of, cut_pdu, cut_at, cut_buffer, packed};

use paper::{MESSAGE_MAX, PDU_MAX, Refusal, WHOLE_MAX};

// What cutting gives: the PDU's length, and the offset of the next block: the message's length after the last one.
#[derive(Clone, Copy)]
pub struct Piece {
    pub len: usize,
    pub next: usize,
}

// A message that may be cut: its channel's number, and how many bytes it has.
#[derive(Clone, Copy)]
struct Message {
    number: u32,
    total: usize,
    ghost short: { total ≤ MESSAGE_MAX },
}

impl Message {
    // Whether the block at an offset is a Data First: at the front of a message that is too long for one Data.
    #[tactic(auto, unfolding(crate::specs::Cutting::is_first, paper::specs::Sizes::WHOLE_MAX))]
    fn is_first(self, at: usize) -> bool
        ensures { result ≡ is_first self.total at }
    {
        WHOLE_MAX < self.total && at == 0
    }

    // How long the header is of the PDU at an offset: first byte and number, and the Length in a Data First.
    #[tactic(auto, using(numbers::proofs::Widths::narrowest_le), unfolding(crate::specs::Cutting::header_len, paper::specs::Sizes::MESSAGE_MAX))]
    fn header_len(self, at: usize) -> usize
        ensures { result ≡ header_len self.number self.total at }
    {
        let header = 1 + numbers::narrow(self.number);
        if self.is_first(at) {
            return header + numbers::narrow(self.total as u32);
        }
        header
    }

    // Where the block at an offset ends: it has the rest of the message, or what its PDU has room for.
    #[tactic(auto, using(crate::proofs::Blocks::header_le), unfolding(crate::specs::Cutting::block_end, crate::specs::Cutting::block_len, paper::specs::Sizes::PDU_MAX, paper::specs::Sizes::MESSAGE_MAX))]
    fn block_end(self, at: usize) -> usize
        requires { at ≤ self.total }
        ensures { result ≡ block_end self.number self.total at }
    {
        let room = PDU_MAX - self.header_len(at);
        at + room.min(self.total - at)
    }

    // Whether a block starts at the offset: follows the blocks from 0 on, each starting just where the one before ended.
    // A turn goes as far as its block, so it is no `for` over a range.
    fn is_start(self, offset: usize) -> bool
        ensures { result ≡ is_start self.number self.total offset }
    {
        let mut at = 0;
        while at < offset {
            let end = self.block_end(at);
            if self.total <= end {
                return false;
            }
            at = end;
        }
        at == offset
    }

    // Lays the PDU of the block that starts at an offset.
    #[tactic(auto, using(crate::proofs::Blocks::end_from_law, crate::proofs::Blocks::end_within), unfolding(paper::specs::Sizes::MESSAGE_MAX))]
    fn lay(self, bytes: &[u8], at: usize, out: &mut [u8]) -> Piece
        requires { (length bytes.now ≡ self.total) × (at ≤ self.total) }
        ensures value { result ≡ piece_of (length (cut_pdu self.number bytes.now at)) (block_end self.number (length bytes.now) at) }
        ensures out_after { out.new ≡ laid out.old 0 (cut_pdu self.number bytes.now at) }
    {
        let next = self.block_end(at);
        let block = &bytes[at..next];
        if self.is_first(at) {
            let len = laying::data_first(out, self.number, self.total as u32, block);
            return Piece { len, next };
        }
        let len = laying::data(out, self.number, block);
        Piece { len, next }
    }
}

// Cuts the block that starts at the offset off the message, and writes its PDU.
#[tactic(auto, unfolding(paper::specs::Sizes::MESSAGE_MAX))]
pub fn cut(number: u32, message: &[u8], offset: usize, out: &mut [u8]) -> Result<Piece, Refusal>
    ensures value { result ≡ cut_at number message.now offset out.old }
    ensures out_after { out.new ≡ cut_buffer number message.now offset out.old }
{
    if out.len() < PDU_MAX {
        return Err(Refusal::BadCall);
    }
    if MESSAGE_MAX < message.len() {
        return Err(Refusal::OverLimit);
    }
    let whole = Message {
        number,
        total: message.len(),
    };
    if !whole.is_start(offset) {
        return Err(Refusal::NoStart);
    }
    Ok(whole.lay(message, offset, out))
}

// What one byte of a PDU's length counts in the number that C gets: more than any next offset.
const LENGTH_UNIT: u32 = 65536;

// The cutter for a host in C: the PDU's length times 65,536 and the next offset added, or the refusal's number.
#[unsafe(no_mangle)]
pub extern "C" fn dvc_cut(number: u32, message: &[u8], offset: usize, out: &mut [u8]) -> u32
    ensures value { result ≡ packed (cut_at number message.now offset out.old) }
    ensures out_after { out.new ≡ cut_buffer number message.now offset out.old }
{
    match cut(number, message, offset, out) {
        Ok(piece) => piece.len as u32 * LENGTH_UNIT + piece.next as u32,
        Err(why) => paper::refusal_number(why) as u32,
    }
}
