// A message handed up, from the store into its line.
//
// `message` lays the line of a message that an answer hands up: its bytes are the first of the part at the place beside the
// answer. `handed` lays it where an answer is a message, and nothing for any other; `of_answer` and `of_said` are its two instances.
// Each takes anything, and answers how many bytes it laid.
#![tactic(auto)]

ghost use Rattle.std.specs.Prelude.{◌≡◌, ◌≤◌, length};
ghost use Rattle.lists.specs.Bytes.{laid};
ghost use Rattle.lines.specs.Lines.{MESSAGE_LINE_MAX, message_line_of};
ghost use Rattle.handing.specs.Handing.{handed_up, handed_text, message_text, message_said};

use channel::Answer;
use lines::Spoken;
use paper::PART;
use saying::Told;
use shore::Said;

// The line of a message handed up. A part that the store doesn't have has no bytes.
pub fn message(
    out: &mut [u8],
    place: u64,
    at: usize,
    store: &[u8],
    number: u32,
    len: usize,
) -> usize
    ensures value { (result ≡ length (message_line_of place number (handed_up store.now at len))) × (result ≤ MESSAGE_LINE_MAX) }
    ensures out_after { out.new ≡ laid out.old 0 (message_line_of place number (handed_up store.now at len)) }
{
    let most = store.len() / PART;
    if most < at {
        return lines::message_line(out, place, number, b"");
    }
    let start = PART * at;
    let n = len.min(PART);
    let end = start + n.min(store.len() - start);
    lines::message_line(out, place, number, &store[start..end])
}

// A line for a message that an answer hands up, and nothing for any other answer.
pub fn handed<T: Spoken>(out: &mut [u8], place: u64, at: usize, store: &[u8], answer: T) -> usize
    ensures value { (result ≡ length (handed_text place at store.now (T.message answer))) × (result ≤ MESSAGE_LINE_MAX) }
    ensures out_after { out.new ≡ laid out.old 0 (handed_text place at store.now (T.message answer)) }
{
    match answer.message() {
        Some(handed) => message(out, place, at, store, handed.number, handed.len),
        None => 0,
    }
}

// A line for a message of the client's.
#[tactic(auto, unfolding(crate::specs::Handing::message_text))]
pub fn of_answer(out: &mut [u8], place: u64, at: usize, store: &[u8], answer: Answer) -> usize
    ensures value { (result ≡ length (message_text place at store.now answer)) × (result ≤ MESSAGE_LINE_MAX) }
    ensures out_after { out.new ≡ laid out.old 0 (message_text place at store.now answer) }
{
    handed(out, place, at, store, answer)
}

// A line for a message of the shore's.
#[tactic(auto, unfolding(crate::specs::Handing::message_said))]
pub fn of_said(out: &mut [u8], place: u64, at: usize, store: &[u8], said: Said) -> usize
    ensures value { (result ≡ length (message_said place at store.now said)) × (result ≤ MESSAGE_LINE_MAX) }
    ensures out_after { out.new ≡ laid out.old 0 (message_said place at store.now said) }
{
    handed(out, place, at, store, Told(said))
}
