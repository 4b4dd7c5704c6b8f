// An answer in one number of 64 bits, for a host in C.
//
// specs/Packing says which bits are what. An answer is packed in one match: where the parts were found one by one, each would
// be carried to the end of every case, some 100 instructions a call.
#![tactic(auto)]

ghost use Rattle.std.specs.Prelude.{◌≡◌, ◌<◌};
ghost use Rattle.paper.specs.Refusals.{refusal_number};
ghost use Rattle.packing.specs.Packing.{COUNTED, packed, refused_word, channel_for, packed_for, packed_said_for};

use channel::Answer;
use paper::Refusal;
use shore::Said;

fn pack(word: u64, channel: u32, number: u64, place: usize, sent: usize) -> u64
    requires { word < 16 }
    ensures { result ≡ packed word channel number place sent }
{
    let behind = place as u64 % 16 + 16 * (sent as u64 % 2048 + 2048 * word);
    channel as u64 + 4294967296 * (number % 8192 + 8192 * behind)
}

fn pack_refusal(why: Refusal, concern: Option<u32>, number: u32, sent: usize) -> u64
    ensures { result ≡ packed (refused_word concern) (channel_for number concern) (refusal_number why) 0 sent }
{
    let which = paper::refusal_number(why) as u64;
    match concern {
        None => pack(7, 0, which, 0, sent),
        Some(_) => pack(15, number, which, 0, sent),
    }
}

// The client's answer, whose channel is the one that was asked of.
#[tactic(auto, unfolding(crate::specs::Packing::packed_for, crate::specs::Packing::answer_word, crate::specs::Packing::channel_for, crate::specs::Packing::answer_place, channel::specs::Answers::concern_of, channel::specs::Answers::number_of, channel::specs::Answers::decline_number))]
pub fn pack_answer(answer: Answer, n: u32, place: usize, sent: usize) -> u64
    ensures { result ≡ packed_for n answer place sent }
{
    match answer {
        Answer::Ready { level } => pack(2, 0, level as u64, 0, sent),
        Answer::Opened { number: _ } => pack(9, n, 0, 0, sent),
        Answer::Declined { number: _, why } => pack(10, n, why as u64, 0, sent),
        Answer::Held { number: _, left } => pack(11, n, left as u64, 0, sent),
        Answer::Message { number: _, len } => pack(12, n, len as u64, place, sent),
        Answer::Closed { number: _ } => pack(13, n, 0, 0, sent),
        Answer::Ignored { number: _ } => pack(14, n, 0, 0, sent),
        Answer::Refused { why, concern } => pack_refusal(why, concern, n, sent),
    }
}

// The shore's.
pub fn pack_said(said: Said, n: u32, place: usize, sent: usize) -> u64
    ensures { result ≡ packed_said_for n said place sent }
{
    match said {
        Said::Asked { version } => pack(1, 0, version as u64, 0, sent),
        Said::Ready { level } => pack(2, 0, level as u64, 0, sent),
        Said::Awaited { number: _ } => pack(8, n, 0, 0, sent),
        Said::Opened { number: _ } => pack(9, n, 0, 0, sent),
        Said::Declined { number: _ } => pack(10, n, 0, 0, sent),
        Said::Held { number: _, left } => pack(11, n, left as u64, 0, sent),
        Said::Message { number: _, len } => pack(12, n, len as u64, place, sent),
        Said::Closed { number: _ } => pack(13, n, 0, 0, sent),
        Said::Ignored { number: _ } => pack(14, n, 0, 0, sent),
        Said::Refused { why, concern } => pack_refusal(why, concern, n, sent),
    }
}

// What is counted: two numbers with no channel, the first in the channel's bits.
pub fn pack_count(first: u32, second: u64) -> u64
    ensures { result ≡ packed COUNTED first second 0 0 }
{
    pack(3, first, second, 0, 0)
}
