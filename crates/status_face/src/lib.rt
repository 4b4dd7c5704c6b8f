// What a host in C asks of a state of either end, lent to be read: the totals, and a channel's count of messages.
#![tactic(auto)]

ghost use Rattle.std.specs.Prelude.{◌≡◌, true, false, ◌||◌};
ghost use Rattle.paper.specs.Sizes.{PARTS};
ghost use Rattle.saved.specs.Saved.{CLIENT, SHORE, is_good};
ghost use Rattle.packing.specs.Packing.{packed_for};
ghost use Rattle.status_face.specs.Status.{dvc_totals, dvc_count};

use channel::Answer;
use paper::{PARTS, Refusal};

// A refusal that concerns the channel, or none.
fn refuse(why: Refusal, concern: Option<u32>, number: u32) -> u64
    ensures { result ≡ packed_for number (Answer.Refused why concern) PARTS 0 }
{
    packing::pack_answer(Answer::Refused { why, concern }, number, PARTS, 0)
}

// Whether the bytes are a state of one of the ends, and its table is sound.
fn good(state: &[u8]) -> bool
    ensures { result ≡ (is_good CLIENT false state.now || is_good SHORE true state.now) }
{
    if saved::good(state, saved::CLIENT, false) {
        return true;
    }
    saved::good(state, saved::SHORE, true)
}

// The open channels and the bytes still to come, without going through the records.
#[unsafe(no_mangle)]
pub extern "C" fn dvc_totals(state: &[u8]) -> u64
    ensures { result ≡ dvc_totals state.now }
{
    if !saved::headed(state) {
        return refuse(Refusal::BadCall, None, 0);
    }
    let totals = saved::read_head(state).totals;
    packing::pack_count(totals.awaited, totals.channels as u64)
}

// The messages handed up on an open channel since its opening.
#[unsafe(no_mangle)]
pub extern "C" fn dvc_count(state: &[u8], number: u32) -> u64
    ensures { result ≡ dvc_count state.now number }
{
    if !good(state) {
        return refuse(Refusal::BadCall, None, 0);
    }
    let row = saved::find(state, number).row;
    if !row.taken {
        return refuse(Refusal::NotOpen, Some(number), number);
    }
    if row.awaited {
        return refuse(Refusal::NotOpen, Some(number), number);
    }
    packing::pack_count(row.count, 0)
}
