// The shore end for a host in C: start, the request, receive, local open, local close.
//
// The host lends what it keeps in bytes (`saved`), the store and the buffers, and gets the answer in one number (`packing`). No
// table is built: the state is judged, searched and changed in its bytes. What is decided of what was found is `shore::decide`.
#![tactic(auto)]

ghost use Rattle.std.specs.Prelude.{◌≡◌, true, length};
ghost use Rattle.paper.specs.Sizes.{PARTS, STORE};
ghost use Rattle.shore.specs.declared.Said.TheVariants.{Refused};
ghost use Rattle.shore.specs.Numbers.{least_number};
ghost use Rattle.shore.specs.Asking.{told, event_asked};
ghost use Rattle.shore.specs.Shore.{standing, stepped};
ghost use Rattle.saved.specs.Saved.{STATE, SHORE, table_in, is_good};
ghost use Rattle.packing.specs.Packing.{packed_said};
ghost use Rattle.client_face.specs.Face.{no_state};
ghost use Rattle.shore_face.specs.Face.{shore_in, dvc_shore_received, dvc_shore_closed, dvc_shore_requested, dvc_shore_opened, dvc_shore_started};
ghost use Rattle.shore_face.specs.Face.{asked_by, bad_out_face, Gives, faces};

use channel::Change;
use client::Asked;
use paper::{PARTS, PDU_MAX, Refusal};
use reading::Charges;
use shore::{Matter, Said};

// What the host asks: a close of the number, if one is given, and else what the PDU asks.
#[tactic(auto, unfolding(crate::specs::Face::asked_by))]
fn asked(closes: Option<u32>, pdu: &[u8]) -> Asked<Matter>
    ensures { result ≡ asked_by closes pdu.now }
{
    match closes {
        Some(number) => shore::closing(number),
        None => shore::hear(pdu),
    }
}

// Refusal 1 where a PDU is written: its buffer in place of store and reply.
fn bad_out(state: &[u8], room: usize) -> bool
    ensures { result ≡ bad_out_face state.now room }
{
    if room < PDU_MAX {
        return true;
    }
    !saved::good(state, saved::SHORE, true)
}

// A refusal that concerns no channel.
fn unsent(why: Refusal) -> u64
    ensures { result ≡ packed_said (Refused why None) PARTS 0 }
{
    let concern = None;
    packing::pack_said(Said::Refused { why, concern }, 0, PARTS, 0)
}

// Refusal 1, as both ends say it.
fn refused() -> u64
    ensures { result ≡ no_state }
{
    unsent(Refusal::BadCall)
}

// What is asked is done: the number's record is found, what it comes to is decided, and that is put back.
fn taken(
    state: &mut [u8],
    store: &mut [u8],
    number: u32,
    matter: Matter,
    block: &[u8],
    reply: &mut [u8],
) -> u64
    requires { (length store.old ≡ STORE) × (is_good SHORE true state.old ≡ true) }
    ensures { Gives (stepped (standing (shore_in state.old) store.old) (told number matter block.now))
        reply.old result state.new store.new reply.new }
{
    let found = saved::find(state, number);
    let k = found.place;
    let row = found.row;
    let head = saved::read_head(state);
    let room = k < PARTS;
    let decided = shore::decide(
        head.asked,
        head.ready,
        head.level,
        number,
        room,
        row,
        matter,
        block.len(),
    );
    let change = decided.change;
    let part = decided.part;
    let said = decided.said;
    let what = decided.reply;
    saved::put(state, decided.ready, decided.level, k, row, change);
    let sent = client::lay(reply, number, what);
    connection::keep(store, k, part, block);
    packing::pack_said(said, number, k, sent)
}

// A call that is lent the store and the reply: refusal 1, and behind it what is asked, which each end does in its own way. It is worked
// out here, as at the client end.
fn call(
    state: &mut [u8],
    store: &mut [u8],
    closes: Option<u32>,
    pdu: &[u8],
    reply: &mut [u8],
) -> u64
    ensures value { result ≡ (faces state.old store.old
        (event_asked (asked_by closes pdu.now) pdu.now) reply.old).answer }
    ensures state_after { state.new ≡ (faces state.old store.old
        (event_asked (asked_by closes pdu.now) pdu.now) reply.old).state }
    ensures store_after { store.new ≡ (faces state.old store.old
        (event_asked (asked_by closes pdu.now) pdu.now) reply.old).store }
    ensures reply_after { reply.new ≡ (faces state.old store.old
        (event_asked (asked_by closes pdu.now) pdu.now) reply.old).reply }
{
    if client_face::bad(saved::SHORE, true, state, store.len(), reply.len()) {
        return refused();
    }
    let asked = asked(closes, pdu);
    taken(
        state,
        store,
        asked.number,
        asked.matter,
        asked.block.of(pdu),
        reply,
    )
}

// Zeroes the store and makes an empty table of the state: 0, or 1 where one of them is not of its size, and then nothing is
// written.
#[unsafe(no_mangle)]
pub extern "C" fn dvc_shore_start(state: &mut [u8], store: &mut [u8]) -> u32
    ensures value { result ≡ (dvc_shore_started state.old store.old).answer }
    ensures state_after { state.new ≡ (dvc_shore_started state.old store.old).state }
    ensures store_after { store.new ≡ (dvc_shore_started state.old store.old).store }
{
    if state.len() != saved::STATE {
        return 1;
    }
    let begun = shore::start(store).begun;
    match begun {
        Ok(()) => {
            saved::begin(state, saved::SHORE as u8);
            0
        }
        Err(_) => 1,
    }
}

// A PDU from the client. Nothing is sent in answer to one; the reply buffer is lent as at the client end.
#[unsafe(no_mangle)]
pub extern "C" fn dvc_shore_receive(
    state: &mut [u8],
    store: &mut [u8],
    pdu: &[u8],
    reply: &mut [u8],
) -> u64
    ensures value { result ≡ (dvc_shore_received state.old store.old pdu.now reply.old).answer }
    ensures state_after { state.new ≡ (dvc_shore_received state.old store.old pdu.now reply.old).state }
    ensures store_after { store.new ≡ (dvc_shore_received state.old store.old pdu.now reply.old).store }
    ensures reply_after { reply.new ≡ (dvc_shore_received state.old store.old pdu.now reply.old).reply }
{
    call(state, store, None, pdu, reply)
}

// The host closes a channel. The reply is a Close.
#[unsafe(no_mangle)]
pub extern "C" fn dvc_shore_local_close(
    state: &mut [u8],
    store: &mut [u8],
    number: u32,
    reply: &mut [u8],
) -> u64
    ensures value { result ≡ (dvc_shore_closed state.old store.old number reply.old).answer }
    ensures state_after { state.new ≡ (dvc_shore_closed state.old store.old number reply.old).state }
    ensures store_after { store.new ≡ (dvc_shore_closed state.old store.old number reply.old).store }
    ensures reply_after { reply.new ≡ (dvc_shore_closed state.old store.old number reply.old).reply }
{
    call(state, store, Some(number), b"", reply)
}

// The Capabilities request, once, of the host's version and charges. It goes to the buffer of a written PDU.
#[unsafe(no_mangle)]
pub extern "C" fn dvc_shore_request(
    state: &mut [u8],
    version: u16,
    charge0: u16,
    charge1: u16,
    charge2: u16,
    charge3: u16,
    out: &mut [u8],
) -> u64
    ensures value { result ≡ (dvc_shore_requested state.old version
        (record { class0 = charge0; class1 = charge1; class2 = charge2; class3 = charge3 }) out.old).answer }
    ensures state_after { state.new ≡ (dvc_shore_requested state.old version
        (record { class0 = charge0; class1 = charge1; class2 = charge2; class3 = charge3 }) out.old).state }
    ensures out_after { out.new ≡ (dvc_shore_requested state.old version
        (record { class0 = charge0; class1 = charge1; class2 = charge2; class3 = charge3 }) out.old).out }
{
    if bad_out(state, out.len()) {
        return refused();
    }
    if saved::read_head(state).asked != 0 {
        return unsent(Refusal::WrongTime);
    }
    let charges = Charges {
        class0: charge0,
        class1: charge1,
        class2: charge2,
        class3: charge3,
    };
    match writing::write_capabilities_request(out, version, charges) {
        Err(why) => unsent(why),
        Ok(sent) => {
            saved::ask(state, version);
            packing::pack_said(Said::Asked { version }, 0, PARTS, sent)
        }
    }
}

// The smallest number from 1 up that no record has.
fn least_number(state: &[u8]) -> u32
    requires { length state.now ≡ STATE }
    ensures { result ≡ least_number (table_in state.now) }
{
    for number in 1..PARTS as u32 + 1 {
        if !saved::find(state, number).row.taken {
            return number;
        }
    }
    PARTS as u32 + 1
}

// The host opens a channel by its listener's name and a class. The Create request goes to the buffer of a written PDU.
#[unsafe(no_mangle)]
pub extern "C" fn dvc_shore_open(state: &mut [u8], name: &[u8], class: u8, out: &mut [u8]) -> u64
    ensures value { result ≡ (dvc_shore_opened state.old name.now class out.old).answer }
    ensures state_after { state.new ≡ (dvc_shore_opened state.old name.now class out.old).state }
    ensures out_after { out.new ≡ (dvc_shore_opened state.old name.now class out.old).out }
{
    if bad_out(state, out.len()) {
        return refused();
    }
    let head = saved::read_head(state);
    if !head.ready {
        return unsent(Refusal::WrongTime);
    }
    let number = least_number(state);
    let k = saved::find(state, number).place;
    if PARTS <= k {
        return unsent(Refusal::AllTaken);
    }
    let sends = channel::class_at(head.level, class);
    match writing::write_create_request(out, number, sends, name) {
        Err(why) => unsent(why),
        Ok(sent) => {
            let row = table::blank();
            let change = Change::Becomes(shore::awaited(head.level, number, class));
            saved::put(state, head.ready, head.level, k, row, change);
            packing::pack_said(Said::Awaited { number }, number, PARTS, sent)
        }
    }
}
