// The client end for a host in C: start, receive, local close.
//
// The host lends the table in bytes (`saved`), the store and the reply, and gets the answer in one number (`packing`). No table
// is built: the state is judged, searched and changed in its bytes. What is decided of what was found is
// `deciding::decide`, as at `client`.
//
// Both calls come to one place, `call`. What is called from one place alone is compiled into it; so is all that a call does,
// since the ends have an archive each and share nothing in it.
#![tactic(auto)]

ghost use Rattle.std.specs.Prelude.{◌≡◌, true, false, length};
ghost use Rattle.paper.specs.Sizes.{STORE};
ghost use Rattle.connection.specs.States.{state_of};
ghost use Rattle.client.specs.Asking.{told, event_asked};
ghost use Rattle.client.specs.Client.{stepped};
ghost use Rattle.saved.specs.Saved.{CLIENT, table_in, is_good};
ghost use Rattle.client_face.specs.Face.{no_state, dvc_received, dvc_closed, dvc_started, asked_by, bad_face, Gives, faces};

use channel::Answer;
use client::Asked;
use deciding::Matter;
use paper::{PARTS, Refusal};

// Refusal 1: the store or the reply buffer is not of its size, the bytes are no state of the end with this mark, or the table is
// unsound. Only the shore asks.
pub fn bad(mark: u32, asks: bool, state: &[u8], store: usize, reply: usize) -> bool
    ensures { result ≡ bad_face mark asks state.now store reply }
{
    if store != paper::STORE {
        return true;
    }
    if reply < paper::REPLY_MIN {
        return true;
    }
    !saved::good(state, mark, asks)
}

// What the host asks: a close of the number, if one is given, and else what the PDU asks.
#[tactic(auto, unfolding(crate::specs::Face::asked_by))]
fn asked(closes: Option<u32>, list: &[u8], pdu: &[u8]) -> Asked<Matter>
    ensures { result ≡ asked_by closes list.now pdu.now }
{
    match closes {
        Some(number) => client::closing(number),
        None => client::heard(list, pdu),
    }
}

fn refused() -> u64
    ensures { result ≡ no_state }
{
    let answer = Answer::Refused {
        why: Refusal::BadCall,
        concern: None,
    };
    packing::pack_answer(answer, 0, PARTS, 0)
}

// What is asked is done: the channel's record is found, what it comes to is decided, and that is put back.
fn taken(
    state: &mut [u8],
    store: &mut [u8],
    number: u32,
    matter: Matter,
    block: &[u8],
    reply: &mut [u8],
) -> u64
    requires { (length store.old ≡ STORE) × (is_good CLIENT false state.old ≡ true) }
    ensures { Gives (stepped (state_of (table_in state.old) store.old) (told number matter block.now))
        reply.old result state.new store.new reply.new }
{
    let found = saved::find(state, number);
    let k = found.place;
    let row = found.row;
    let head = saved::read_head(state);
    let room = k < PARTS;
    let decided = deciding::decide(
        head.ready,
        head.level,
        number,
        room,
        row,
        matter,
        block.len(),
    );
    let turn = decided.turn;
    let change = turn.change;
    let part = turn.part;
    let answer = turn.answer;
    let what = turn.reply;
    saved::put(state, decided.ready, decided.level, k, row, change);
    let sent = client::lay(reply, number, what);
    connection::keep(store, k, part, block);
    packing::pack_answer(answer, number, k, sent)
}

// A call: refusal 1, and behind it what is asked, which is worked out here: a value that is handed in is written out and read
// back at each call (bench/NOTES.md).
fn call(
    state: &mut [u8],
    store: &mut [u8],
    closes: Option<u32>,
    list: &[u8],
    pdu: &[u8],
    reply: &mut [u8],
) -> u64
    ensures value { result ≡ (faces state.old store.old
        (event_asked (asked_by closes list.now pdu.now) pdu.now) reply.old).answer }
    ensures state_after { state.new ≡ (faces state.old store.old
        (event_asked (asked_by closes list.now pdu.now) pdu.now) reply.old).state }
    ensures store_after { store.new ≡ (faces state.old store.old
        (event_asked (asked_by closes list.now pdu.now) pdu.now) reply.old).store }
    ensures reply_after { reply.new ≡ (faces state.old store.old
        (event_asked (asked_by closes list.now pdu.now) pdu.now) reply.old).reply }
{
    if bad(saved::CLIENT, false, state, store.len(), reply.len()) {
        return refused();
    }
    let asked = asked(closes, list, pdu);
    taken(
        state,
        store,
        asked.number,
        asked.matter,
        asked.block.of(pdu),
        reply,
    )
}

// Zeroes the store and makes an empty table of the state: 0, or 1 where one of them is not of its size, and then nothing is
// written.
#[unsafe(no_mangle)]
pub extern "C" fn dvc_start(state: &mut [u8], store: &mut [u8]) -> u32
    ensures value { result ≡ (dvc_started state.old store.old).answer }
    ensures state_after { state.new ≡ (dvc_started state.old store.old).state }
    ensures store_after { store.new ≡ (dvc_started state.old store.old).store }
{
    if state.len() != saved::STATE {
        return 1;
    }
    let started = client::start(store);
    let begun = started.begun;
    match begun {
        Ok(()) => {
            saved::begin(state, saved::CLIENT as u8);
            0
        }
        Err(_) => 1,
    }
}

// A PDU from the server, with the names that the host listens for. The reply goes to the reply buffer.
#[unsafe(no_mangle)]
pub extern "C" fn dvc_receive(
    state: &mut [u8],
    store: &mut [u8],
    list: &[u8],
    pdu: &[u8],
    reply: &mut [u8],
) -> u64
    ensures value { result ≡ (dvc_received state.old store.old
        list.now pdu.now reply.old).answer }
    ensures state_after { state.new ≡ (dvc_received state.old store.old
        list.now pdu.now reply.old).state }
    ensures store_after { store.new ≡ (dvc_received state.old store.old
        list.now pdu.now reply.old).store }
    ensures reply_after { reply.new ≡ (dvc_received state.old store.old
        list.now pdu.now reply.old).reply }
{
    call(state, store, None, list, pdu, reply)
}

// The host closes a channel. The reply is a Close.
#[unsafe(no_mangle)]
pub extern "C" fn dvc_local_close(
    state: &mut [u8],
    store: &mut [u8],
    number: u32,
    reply: &mut [u8],
) -> u64
    ensures value { result ≡ (dvc_closed state.old store.old number reply.old).answer }
    ensures state_after { state.new ≡ (dvc_closed state.old store.old number reply.old).state }
    ensures store_after { store.new ≡ (dvc_closed state.old store.old number reply.old).store }
    ensures reply_after { reply.new ≡ (dvc_closed state.old store.old number reply.old).reply }
{
    call(state, store, Some(number), b"", b"", reply)
}
