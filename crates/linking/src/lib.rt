// Both ends in one process, joined in order and without loss.
//
// `start` makes both ends. `step` takes a record: what a host does, or that the link drops. It calls the end that the record is for, carries what that
// sends across until nothing is on its way, and lays what each end answered. The panel's store is the first half of the store
// that is lent, and the shore's the rest. It takes anything; a record that is none is told as bad and does nothing.
#![tactic(auto)]

ghost use Rattle.std.specs.Prelude.{◌≡◌, true, false, List, ℕ, ◌+◌, ◌*◌, ◌≤◌, length};
ghost use Rattle.lists.specs.Bytes.{laid};
ghost use Rattle.records.specs.Desk.{leading, message_length};
ghost use Rattle.lines.specs.Lines.{answer_line};
ghost use Rattle.handing.specs.Handing.{handed_text};
ghost use Rattle.linking.specs.declared.Ends.{Ends};
ghost use Rattle.linking.specs.Linking.{with_store, call_text, panel_text, shore_text, CALL_MAX, to_shore, from_panel, to_panel, panel_closes};
ghost use Rattle.linking.specs.Linking.{shore_hosts, across, unsent, sends_one, sends_up, PIECES, message_in, count_in, host_sends};
ghost use Rattle.linking.specs.Linking.{new_ends, both_started, dropped, is_host, no_record, link_step, STEP_MAX, Crosses};

use client::Received;
use lines::Spoken;
use paper::{PDU_MAX, REPLY_MIN, STORE};
use records::{
    AT_SHORE, CLOSE, DROPS, FROM_PANEL, FROM_SHORE, LEAD, MESSAGE_HEAD, OPEN, PANEL_CLOSE, REQUEST,
};
use saying::{End, Told};
use shore::{Given, Said, Shore};
use table::Table;

// What both hosts keep beside the stores.
#[derive(Clone, Copy)]
pub struct Ends {
    pub panel: Table,
    pub shore: Shore,
}

// What comes of calls: what both hosts keep, and how many bytes of text were laid.
#[derive(Clone, Copy)]
pub struct Crossed {
    pub ends: Ends,
    pub laid: usize,
}

// What comes of a record: whether it is none, too. That is no `Result`, since a record that is none has its text as well.
#[derive(Clone, Copy)]
pub struct Stepped {
    pub crossed: Crossed,
    pub bad: bool,
}

// What comes of one PDU of a message, and where its next block starts.
#[derive(Clone, Copy)]
struct Sent {
    crossed: Crossed,
    next: usize,
}

// A message of at most 4,096 bytes has no more PDUs than these.
const PIECES: usize = 3;

// The most bytes of a record's text: of three PDUs, each with what comes of it at both ends.
pub const STEP_MAX: usize = PIECES
    * (2 * (saying::END_MAX + lines::LINE_MAX + lines::MESSAGE_LINE_MAX));

// The text of a call at an end: its line, and that of a message handed up out of that end's store.
fn call_text<T: Spoken>(
    out: &mut [u8],
    end: End,
    place: u64,
    answer: T,
    sent: usize,
    at: usize,
    store: &[u8],
) -> usize
    ensures value { (result ≡ length (call_text end (answer_line place (T.word answer) (T.concern answer) (T.number answer) sent)
        (handed_text place at store.now (T.message answer)))) × (result ≤ CALL_MAX) }
    ensures out_after { out.new ≡ laid out.old 0 (call_text end (answer_line place (T.word answer) (T.concern answer) (T.number answer) sent)
        (handed_text place at store.now (T.message answer))) }
{
    let worded = saying::end_word(out, end);
    let from = worded.min(out.len());
    let lined = worded + lines::answer_line(&mut out[from..], place, answer, sent);
    let behind = lined.min(out.len());
    lined + handing::handed(&mut out[behind..], place, at, store, answer)
}

// At the panel.
#[tactic(auto, unfolding(crate::specs::Linking::panel_text, lines::specs::Lines::line_of, lines::specs::Lines::answer_fields, lines::specs::Lines::answer_line, handing::specs::Handing::message_text))]
fn panel_text(out: &mut [u8], place: u64, received: Received, store: &[u8]) -> usize
    ensures value { (result ≡ length (panel_text place received store.now)) × (result ≤ CALL_MAX) }
    ensures out_after { out.new ≡ laid out.old 0 (panel_text place received store.now) }
{
    let answer = received.answer;
    call_text(
        out,
        End::Panel,
        place,
        answer,
        received.sent,
        received.place,
        store,
    )
}

// At the shore.
#[tactic(auto, unfolding(crate::specs::Linking::shore_text, saying::specs::Saying::desk_line_of, saying::specs::Saying::said_text, lines::specs::Lines::answer_line, handing::specs::Handing::message_said))]
fn shore_text(out: &mut [u8], place: u64, given: Given, store: &[u8]) -> usize
    ensures value { (result ≡ length (shore_text place given store.now)) × (result ≤ CALL_MAX) }
    ensures out_after { out.new ≡ laid out.old 0 (shore_text place given store.now) }
{
    let said = Told(given.said);
    call_text(out, End::Shore, place, said, given.sent, given.place, store)
}

// A PDU is carried to the shore, which sends nothing for it.
fn to_shore(ends: Ends, store: &mut [u8], pdu: &[u8], place: u64, out: &mut [u8]) -> Crossed
    ensures { Crosses (to_shore place (with_store ends store.old) pdu.now) CALL_MAX
        out.old result store.new out.new }
{
    let mut reply = [0u8; REPLY_MIN];
    let panel = ends.panel;
    let shore = ends.shore;
    let half = STORE.min(store.len());
    let given = shore::receive(shore, &mut store[half..], pdu, &mut reply);
    let laid = shore_text(out, place, given, &store[half..]);
    let shore = given.shore;
    Crossed {
        ends: Ends { panel, shore },
        laid,
    }
}

// What comes of a call at the panel: its text, and what it sent goes to the shore.
fn from_panel(
    shore: Shore,
    store: &mut [u8],
    received: Received,
    reply: &[u8],
    place: u64,
    out: &mut [u8],
) -> Crossed
    ensures { Crosses (from_panel place shore store.old received reply.now) (2 * CALL_MAX)
        out.old result store.new out.new }
{
    let half = STORE.min(store.len());
    let told = panel_text(out, place, received, &store[..half]);
    let panel = received.table;
    let ends = Ends { panel, shore };
    let n = received.sent.min(reply.len());
    if n == 0 {
        return Crossed { ends, laid: told };
    }
    let from = told.min(out.len());
    let crossed = to_shore(ends, store, &reply[..n], place, &mut out[from..]);
    let ends = crossed.ends;
    Crossed {
        ends,
        laid: told + crossed.laid,
    }
}

// A PDU is carried to the panel, and what that sends for it to the shore.
fn to_panel(
    ends: Ends,
    store: &mut [u8],
    list: &[u8],
    pdu: &[u8],
    place: u64,
    out: &mut [u8],
) -> Crossed
    ensures { Crosses (to_panel list.now place (with_store ends store.old) pdu.now) (2 * CALL_MAX)
        out.old result store.new out.new }
{
    let mut reply = [0u8; REPLY_MIN];
    let panel = ends.panel;
    let shore = ends.shore;
    let half = STORE.min(store.len());
    let received = client::receive(panel, &mut store[..half], list, pdu, &mut reply);
    from_panel(shore, store, received, &reply, place, out)
}

// The panel's host closes a channel.
fn panel_closes(ends: Ends, store: &mut [u8], number: u32, place: u64, out: &mut [u8]) -> Crossed
    ensures { Crosses (panel_closes place (with_store ends store.old) number) (2 * CALL_MAX)
        out.old result store.new out.new }
{
    let mut reply = [0u8; REPLY_MIN];
    let panel = ends.panel;
    let shore = ends.shore;
    let half = STORE.min(store.len());
    let received = client::local_close(panel, &mut store[..half], number, &mut reply);
    from_panel(shore, store, received, &reply, place, out)
}

// What the shore's host does: its text, and what it sent goes to the panel.
fn shore_hosts(
    ends: Ends,
    store: &mut [u8],
    list: &[u8],
    bytes: &[u8],
    place: u64,
    out: &mut [u8],
) -> Crossed
    ensures { Crosses (shore_hosts list.now place (with_store ends store.old) bytes.now)
        (CALL_MAX + 2 * CALL_MAX) out.old result store.new out.new }
{
    let mut buffer = [0u8; PDU_MAX];
    let panel = ends.panel;
    let shore = ends.shore;
    let half = STORE.min(store.len());
    let given = hosting::hosted(shore, &mut store[half..], bytes, &mut buffer);
    let told = shore_text(out, place, given, &store[half..]);
    let shore = given.shore;
    let ends = Ends { panel, shore };
    let n = given.sent.min(PDU_MAX);
    if n == 0 {
        return Crossed { ends, laid: told };
    }
    let from = told.min(out.len());
    let crossed = to_panel(ends, store, list, &buffer[..n], place, &mut out[from..]);
    let ends = crossed.ends;
    Crossed {
        ends,
        laid: told + crossed.laid,
    }
}

// A PDU is carried across from the end that sent it.
fn across(
    from: End,
    ends: Ends,
    store: &mut [u8],
    list: &[u8],
    pdu: &[u8],
    place: u64,
    out: &mut [u8],
) -> Crossed
    ensures { Crosses (across from list.now place (with_store ends store.old) pdu.now) (2 * CALL_MAX)
        out.old result store.new out.new }
{
    match from {
        End::Shore => to_panel(ends, store, list, pdu, place, out),
        End::Panel => to_shore(ends, store, pdu, place, out),
    }
}

// What the cutter refuses, said at the end that sends.
fn unsent(out: &mut [u8], from: End, place: u64, said: Said) -> usize
    ensures value { (result ≡ length (unsent from place said)) × (result ≤ CALL_MAX) }
    ensures out_after { out.new ≡ laid out.old 0 (unsent from place said) }
{
    let worded = saying::end_word(out, from);
    let behind = worded.min(out.len());
    worded + saying::desk_line(&mut out[behind..], place, said, 0)
}

// The PDU of a message's block is cut, and carried across.
fn send_one(
    from: End,
    ends: Ends,
    store: &mut [u8],
    list: &[u8],
    number: u32,
    message: &[u8],
    at: usize,
    place: u64,
    out: &mut [u8],
) -> Sent
    ensures { (result.next ≡ (sends_one from list.now place number message.now at (with_store ends store.old)).next)
        × Crosses (sends_one from list.now place number message.now at (with_store ends store.old)).goes (2 * CALL_MAX)
        out.old result.crossed store.new out.new }
{
    let mut buffer = [0u8; PDU_MAX];
    match cutting::cut(number, message, at, &mut buffer) {
        Ok(piece) => {
            let n = piece.len.min(PDU_MAX);
            let crossed = across(from, ends, store, list, &buffer[..n], place, out);
            Sent {
                crossed,
                next: piece.next,
            }
        }
        Err(why) => {
            let said = Said::Refused {
                why,
                concern: Some(number),
            };
            let laid = unsent(out, from, place, said);
            Sent {
                crossed: Crossed { ends, laid },
                next: message.len(),
            }
        }
    }
}

// A message, PDU by PDU, at most so many.
fn send(
    count: usize,
    from: End,
    ends: Ends,
    store: &mut [u8],
    list: &[u8],
    number: u32,
    message: &[u8],
    place: u64,
    out: &mut [u8],
) -> Crossed
    requires { count ≤ PIECES }
    ensures { Crosses (sends_up count from list.now place number message.now 0 (with_store ends store.old)) STEP_MAX
        out.old result store.new out.new }
{
    let mut next = ends;
    let mut at = 0;
    let mut used = 0usize;
    for _ in 0..count {
        let start = used.min(out.len());
        let sent = send_one(
            from,
            next,
            store,
            list,
            number,
            message,
            at,
            place,
            &mut out[start..],
        );
        let crossed = sent.crossed;
        next = crossed.ends;
        used += crossed.laid;
        at = sent.next;
        if message.len() <= at {
            break;
        }
    }
    Crossed {
        ends: next,
        laid: used,
    }
}

// How many bytes a record's message has.
fn message_size(bytes: &[u8]) -> u32
    ensures { result ≡ message_length bytes.now }
{
    let start = (LEAD + 4).min(bytes.len());
    let end = MESSAGE_HEAD.min(bytes.len());
    numbers::number(&bytes[start..end])
}

// How many PDUs of its message a record sends.
#[tactic(auto, unfolding(crate::specs::Linking::count_in))]
fn count_in(bytes: &[u8]) -> u8
    ensures { result ≡ count_in bytes.now }
{
    bytes.last().copied().unwrap_or(0)
}

// A message of an end's host.
fn host_sends(
    from: End,
    ends: Ends,
    store: &mut [u8],
    list: &[u8],
    bytes: &[u8],
    place: u64,
    out: &mut [u8],
) -> Crossed
    ensures { Crosses (host_sends from list.now place (with_store ends store.old) bytes.now) STEP_MAX
        out.old result store.new out.new }
{
    let lead = LEAD.min(bytes.len());
    let number = numbers::number(&bytes[lead..]);
    let count = (count_in(bytes) as usize).min(PIECES);
    let start = MESSAGE_HEAD.min(bytes.len());
    let end = start + (message_size(bytes) as usize).min(bytes.len() - start);
    send(
        count,
        from,
        ends,
        store,
        list,
        number,
        &bytes[start..end],
        place,
        out,
    )
}

// Both ends start: each half of the store is zeroed, or left as it is where it is of another size.
pub fn start(store: &mut [u8]) -> Ends
    ensures value { result ≡ new_ends }
    ensures store_after { store.new ≡ both_started store.old }
{
    let half = STORE.min(store.len());
    let panel = client::start(&mut store[..half]);
    let shore = shore::start(&mut store[half..]);
    let panel = panel.table;
    let shore = shore.shore;
    Ends { panel, shore }
}

// The link drops: both ends start again.
fn dropped(store: &mut [u8], place: u64, out: &mut [u8]) -> Crossed
    ensures { (ends : Ends) → Crosses (dropped place (with_store ends store.old)) STEP_MAX
        out.old result store.new out.new }
{
    let ends = start(store);
    let laid = saying::dropped_line(out, place);
    Crossed { ends, laid }
}

// Whether what a record announces is what a host does.
#[tactic(auto, unfolding(crate::specs::Linking::is_host))]
fn is_host(bytes: &[u8]) -> bool
    ensures { result ≡ is_host bytes.now }
{
    let announced = hosting::announces(bytes);
    announced == REQUEST || announced == OPEN || announced == CLOSE
}

// The byte that leads a record.
#[tactic(auto, unfolding(records::specs::Desk::leading))]
fn lead_of(bytes: &[u8]) -> u8
    ensures { result ≡ leading bytes.now }
{
    bytes.first().copied().unwrap_or(0)
}

// A record that is one.
fn good(crossed: Crossed) -> Stepped
    ensures { result ≡ record { crossed = crossed; bad = false } }
{
    Stepped {
        crossed,
        bad: false,
    }
}

// A record that is none.
fn no_record(ends: Ends, place: u64, out: &mut [u8]) -> Stepped
    ensures { (store : List ℕ) → (result.bad ≡ true) × Crosses (no_record place (with_store ends store)).goes STEP_MAX
        out.old result.crossed store out.new }
{
    let laid = saying::bad_line(out, place);
    Stepped {
        crossed: Crossed { ends, laid },
        bad: true,
    }
}

// One record: what comes of it, and its text at the front of the buffer.
pub fn step(
    ends: Ends,
    store: &mut [u8],
    list: &[u8],
    bytes: &[u8],
    place: u64,
    out: &mut [u8],
) -> Stepped
    ensures { (result.bad ≡ (link_step list.now place (with_store ends store.old) bytes.now).bad)
        × Crosses (link_step list.now place (with_store ends store.old) bytes.now).goes STEP_MAX
        out.old result.crossed store.new out.new }
{
    let from = LEAD.min(bytes.len());
    let rest = &bytes[from..];
    match lead_of(bytes) {
        AT_SHORE => {
            if !is_host(rest) {
                return no_record(ends, place, out);
            }
            good(shore_hosts(ends, store, list, rest, place, out))
        }
        PANEL_CLOSE => good(panel_closes(ends, store, numbers::number(rest), place, out)),
        FROM_SHORE => good(host_sends(End::Shore, ends, store, list, bytes, place, out)),
        FROM_PANEL => good(host_sends(End::Panel, ends, store, list, bytes, place, out)),
        DROPS => good(dropped(store, place, out)),
        _ => no_record(ends, place, out),
    }
}
