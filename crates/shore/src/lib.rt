// The shore end: start, the request, receive, local open, local close.
//
// The host keeps the table with the version that was asked for (`Shore`), and the store. `start` makes both; `request` writes the
// Capabilities request, `open` a Create request, each into the buffer of a written PDU; each PDU of the client goes to
// `receive` and each close by the host to `local_close`, with what the call before gave. Data, garbled blocks and closes go
// through the rules that both ends have in common (`channel`, `deciding`). A refusal writes nothing and changes no channel,
// but that refusals 10, 11 and 12 turn the one channel's stage to spoiled, and so do 2 to 5 for a block of data that carries
// its channel's number whole. Every entry takes anything.
#![tactic(auto)]

ghost use Rattle.std.specs.Prelude.{◌≡◌, true, false, cond, length};
ghost use Rattle.paper.specs.Sizes.{PARTS, STORE};
ghost use Rattle.lists.specs.Bytes.{laid};
ghost use Rattle.reading.specs.Reading.{read_pdu};
ghost use Rattle.reading.specs.Garbled.{carries};
ghost use Rattle.channel.specs.Turns.{reply_told};
ghost use Rattle.table.specs.Sound.{sound_table};
ghost use Rattle.deciding.specs.Deciding.{decided_of as decidedBy};
ghost use Rattle.client.specs.Client.{store_started};
ghost use Rattle.shore.specs.Saying.{concern_said, number_said, said_as};
ghost use Rattle.shore.specs.Rules.{is_below_zero, awaited_record, settled_record};
ghost use Rattle.shore.specs.Numbers.{least_number};
ghost use Rattle.shore.specs.Shore.{standing, level_between, stepped, Gives, bad_out, called, received, locally_closed};
ghost use Rattle.shore.specs.Shore.{requested, locally_opened, started};
ghost use Rattle.shore.specs.Asking.{nowhere, unread_heard, heard_in, closing_of, told, event_asked};
ghost use Rattle.shore.specs.Deciding.{saying, responding, settling, seen_row, as_common, decided_of};

use channel::{Answer, Ask, Change, Offer, Part, Record, Reply, Stage};
use client::{Asked, bare};
use paper::{PARTS, PDU_MAX, Refusal};
use reading::{Charges, Extent, Pdu};
use table::Table;

// What the host keeps beside the store.
#[derive(Clone, Copy)]
pub struct Shore {
    pub table: Table,
    // The version that was asked for, or 0 before the request.
    pub asked: u16,
}

// Whether Start did its work, and what the host keeps from there on, refused or not.
#[derive(Clone, Copy)]
pub struct Started {
    pub shore: Shore,
    pub begun: Result<(), Refusal>,
}

// The answer to a call.
#[derive(Clone, Copy)]
pub enum Said {
    // The request is written, of this version.
    Asked { version: u16 },
    // The level in use.
    Ready { level: u8 },
    // The Create request is written, of this number, which has its record from here on.
    Awaited { number: u32 },
    Opened { number: u32 },
    // The client's status is below zero: the number is free again.
    Declined { number: u32 },
    // So many bytes of the message are still to come.
    Held { number: u32, left: usize },
    // The message is the first `len` bytes of the channel's part.
    Message { number: u32, len: usize },
    Closed { number: u32 },
    Ignored { number: u32 },
    Refused { why: Refusal, concern: Option<u32> },
}

// What `receive` and `local_close` give: what the host keeps, the answer, how many bytes of the reply to send, and the place
// of the record of the channel that the answer concerns, or sixteen where it concerns none or the channel has no record then.
// A message that is handed up is the first bytes of the part there, which begins at 4,096 times the place.
#[derive(Clone, Copy)]
pub struct Given {
    pub shore: Shore,
    pub said: Said,
    pub sent: usize,
    pub place: usize,
}

// What `request` and `open` give: what the host keeps, the answer, and the length of the PDU that is written.
#[derive(Clone, Copy)]
pub struct Sending {
    pub shore: Shore,
    pub said: Said,
    pub sent: usize,
}

// What is to be decided.
#[derive(Clone, Copy)]
pub enum Matter {
    // A PDU that reading refuses, and whether it carries its channel's number whole: then it is garbled.
    Unread { why: Refusal, whole: bool },
    // A Capabilities response of a version.
    Caps(u16),
    // A Create response.
    Status(i32),
    // A Data First or a Data. Its block stands beside it, and here only the block's length counts.
    Block(Offer),
    // A Close, or a close by the host.
    End { local: bool },
}

// What a matter comes to.
#[derive(Clone, Copy)]
pub struct Decided {
    pub ready: bool,
    pub level: u8,
    pub change: Change,
    pub part: Part,
    pub said: Said,
    pub reply: Reply,
}

// The channel that the answer concerns.
pub fn concerns(said: Said) -> Option<u32>
    ensures { result ≡ concern_said said }
{
    match said {
        Said::Asked { version: _ } => None,
        Said::Ready { level: _ } => None,
        Said::Awaited { number } => Some(number),
        Said::Opened { number } => Some(number),
        Said::Declined { number } => Some(number),
        Said::Held { number, left: _ } => Some(number),
        Said::Message { number, len: _ } => Some(number),
        Said::Closed { number } => Some(number),
        Said::Ignored { number } => Some(number),
        Said::Refused { why: _, concern } => concern,
    }
}

// The answer's number: version, level, bytes still to come, message length, refusal number, else 0.
pub fn value(said: Said) -> u64
    ensures { result ≡ number_said said }
{
    match said {
        Said::Asked { version } => version as u64,
        Said::Ready { level } => level as u64,
        Said::Awaited { number: _ } => 0,
        Said::Opened { number: _ } => 0,
        Said::Declined { number: _ } => 0,
        Said::Held { number: _, left } => left as u64,
        Said::Message { number: _, len } => len as u64,
        Said::Closed { number: _ } => 0,
        Said::Ignored { number: _ } => 0,
        Said::Refused { why, concern: _ } => paper::refusal_number(why) as u64,
    }
}

// What the common rules answer, said at this end.
fn said_as(answer: Answer) -> Said
    ensures { result ≡ said_as answer }
{
    match answer {
        Answer::Ready { level } => Said::Ready { level },
        Answer::Opened { number } => Said::Opened { number },
        Answer::Declined { number, why: _ } => Said::Declined { number },
        Answer::Held { number, left } => Said::Held { number, left },
        Answer::Message { number, len } => Said::Message { number, len },
        Answer::Closed { number } => Said::Closed { number },
        Answer::Ignored { number } => Said::Ignored { number },
        Answer::Refused { why, concern } => Said::Refused { why, concern },
    }
}

// ---- what a PDU asks

// What a PDU asks that reading refuses, by the number that it carries, as one of this end's matters.
fn unread(pdu: &[u8], why: Refusal) -> Asked<Matter>
    ensures { result ≡ unread_heard why (carries pdu.now) }
{
    match reading::carries(pdu) {
        None => bare(0, Matter::Unread { why, whole: false }),
        Some(number) => bare(number, Matter::Unread { why, whole: true }),
    }
}

// A kind that is never read in a PDU from the client.
fn wrong_way() -> Asked<Matter>
    ensures { result ≡ record { number = 0; matter = Matter.Unread Refusal.WrongTime false; block = nowhere } }
{
    bare(
        0,
        Matter::Unread {
            why: Refusal::WrongTime,
            whole: false,
        },
    )
}

// What a PDU from the client asks. Requests are never read in one.
pub fn hear(pdu: &[u8]) -> Asked<Matter>
    ensures { result ≡ heard_in pdu.now (read_pdu false pdu.now) }
{
    match reading::read(pdu, false) {
        Pdu::Refused(why) => unread(pdu, why),
        Pdu::CapsResponse { version } => bare(0, Matter::Caps(version)),
        Pdu::CreateResponse { number, status } => bare(number, Matter::Status(status)),
        Pdu::DataFirst {
            number,
            length,
            block,
        } => Asked {
            number,
            matter: Matter::Block(Offer::First(length)),
            block,
        },
        Pdu::Data { number, block } => Asked {
            number,
            matter: Matter::Block(Offer::More),
            block,
        },
        Pdu::Close { number } => bare(number, Matter::End { local: false }),
        Pdu::CreateRequest {
            number: _,
            class: _,
            name: _,
        } => wrong_way(),
        Pdu::CapsRequest {
            version: _,
            charges: _,
        } => wrong_way(),
    }
}

// What a close by the host asks.
pub fn closing(number: u32) -> Asked<Matter>
    ensures { result ≡ closing_of number }
{
    bare(number, Matter::End { local: true })
}

// ---- what it comes to

// Nothing but an answer.
fn says(ready: bool, level: u8, said: Said) -> Decided
    ensures { result ≡ saying ready level said }
{
    Decided {
        ready,
        level,
        change: Change::Stays,
        part: Part::Keeps,
        said,
        reply: Reply::NoReply,
    }
}

// Refusal 7.
fn too_soon(ready: bool, level: u8) -> Decided
    ensures { result ≡ saying ready level (Said.Refused Refusal.WrongTime None) }
{
    says(
        ready,
        level,
        Said::Refused {
            why: Refusal::WrongTime,
            concern: None,
        },
    )
}

// The level in use: the smallest of the version that was asked for, the response's and ours.
fn level_between(asked: u16, version: u16) -> u8
    ensures { result ≡ level_between asked version }
{
    asked.min(version).min(channel::OUR_VERSION) as u8
}

// A Capabilities response makes the connection ready, if it was asked for.
fn respond(asked: u16, ready: bool, level: u8, version: u16) -> Decided
    ensures { result ≡ responding asked ready level version }
{
    if ready {
        return too_soon(ready, level);
    }
    if asked == 0 {
        return too_soon(ready, level);
    }
    let between = level_between(asked, version);
    says(true, between, Said::Ready { level: between })
}

fn below_zero(status: i32) -> bool
    ensures { result ≡ is_below_zero status }
{
    status < 0
}

// The record of an awaited number that is opened.
fn settled(row: Record) -> Record
    ensures { result ≡ settled_record row }
{
    Record {
        stage: Stage::Idle,
        awaited: false,
        count: 0,
        ..row
    }
}

// A Create response.
fn settle(ready: bool, level: u8, number: u32, row: Record, status: i32) -> Decided
    ensures { result ≡ settling ready level number row status }
{
    if !ready {
        return too_soon(ready, level);
    }
    if !(row.taken & row.awaited) {
        return says(
            ready,
            level,
            Said::Refused {
                why: Refusal::NotAwaited,
                concern: Some(number),
            },
        );
    }
    if below_zero(status) {
        return Decided {
            ready,
            level,
            change: Change::Frees,
            part: Part::Clears,
            said: Said::Declined { number },
            reply: Reply::NoReply,
        };
    }
    Decided {
        ready,
        level,
        change: Change::Becomes(settled(row)),
        part: Part::Keeps,
        said: Said::Opened { number },
        reply: Reply::NoReply,
    }
}

// What the common rules see of a record: an awaited number isn't open.
fn seen(row: Record) -> Record
    ensures { result ≡ seen_row row }
{
    if row.awaited {
        return table::blank();
    }
    row
}

// Only a close by the host sends.
fn reply_if(local: bool, reply: Reply) -> Reply
    ensures { result ≡ cond local reply Reply.NoReply }
{
    if local {
        return reply;
    }
    Reply::NoReply
}

// What both ends have in common, said at this end.
fn common(decided: deciding::Decided, reply: Reply) -> Decided
    ensures { result ≡ as_common decided reply }
{
    let turn = decided.turn;
    let change = turn.change;
    let part = turn.part;
    let answer = turn.answer;
    Decided {
        ready: decided.ready,
        level: decided.level,
        change,
        part,
        said: said_as(answer),
        reply,
    }
}

// What the rules that both ends have in common decide, with an awaited number seen as one that isn't open.
fn decides(
    ready: bool,
    level: u8,
    number: u32,
    room: bool,
    row: Record,
    matter: deciding::Matter,
    n: usize,
) -> deciding::Decided
    ensures { result ≡ decidedBy ready level number room (seen_row row) matter n }
{
    deciding::decide(ready, level, number, room, seen(row), matter, n)
}

// What a matter comes to, with a block of n bytes beside it.
pub fn decide(
    asked: u16,
    ready: bool,
    level: u8,
    number: u32,
    room: bool,
    row: Record,
    matter: Matter,
    n: usize,
) -> Decided
    ensures { result ≡ decided_of asked ready level number room row matter n }
{
    match matter {
        Matter::Unread { why, whole } => {
            let asks = deciding::Matter::Unread { why, whole };
            common(
                decides(ready, level, number, room, row, asks, n),
                Reply::NoReply,
            )
        }
        Matter::Caps(version) => respond(asked, ready, level, version),
        Matter::Status(status) => settle(ready, level, number, row, status),
        Matter::Block(offer) => {
            let asks = deciding::Matter::Asks(Ask::Block(offer));
            common(
                decides(ready, level, number, room, row, asks, n),
                Reply::NoReply,
            )
        }
        Matter::End { local } => {
            let asks = deciding::Matter::Asks(Ask::End { local });
            let decided = decides(ready, level, number, room, row, asks, n);
            let turn = decided.turn;
            let reply = turn.reply;
            common(decided, reply_if(local, reply))
        }
    }
}

// ---- calls that are lent the store and the reply

// What is asked is done: the number's record is found, what it comes to is decided, and that is put back.
fn taken(
    shore: Shore,
    store: &mut [u8],
    number: u32,
    matter: Matter,
    block: &[u8],
    reply: &mut [u8],
) -> Given
    requires { (length store.old ≡ STORE) × (sound_table shore.table ≡ true) }
    ensures { Gives (stepped (standing shore store.old) (told number matter block.now))
        reply.old result store.new reply.new }
{
    let table = shore.table;
    let found = table::find(table, number);
    let k = found.place;
    let row = found.row;
    let room = k < PARTS;
    let decided = decide(
        shore.asked,
        table.ready,
        table.level,
        number,
        room,
        row,
        matter,
        block.len(),
    );
    let change = decided.change;
    let part = decided.part;
    let said = decided.said;
    let what = decided.reply;
    let next = table::put(table, decided.ready, decided.level, k, row, change);
    let sent = client::lay(reply, number, what);
    connection::keep(store, k, part, block);
    Given {
        shore: Shore {
            table: next,
            asked: shore.asked,
        },
        said,
        sent,
        place: client::place_if(
            concerns(said),
            connection::place_after(k, row.taken, change),
        ),
    }
}

// Refusal 1 gives back what came in, which is each end's own.
fn refused(shore: Shore) -> Given
    ensures { result ≡ record { shore = shore; said = Said.Refused Refusal.BadCall None; sent = 0; place = PARTS } }
{
    Given {
        shore,
        said: Said::Refused {
            why: Refusal::BadCall,
            concern: None,
        },
        sent: 0,
        place: PARTS,
    }
}

// A call: refusal 1, and behind it what is asked.
fn step(shore: Shore, store: &mut [u8], heard: Asked<Matter>, pdu: &[u8], reply: &mut [u8]) -> Given
    ensures value { result ≡ (called shore store.old
        (event_asked heard pdu.now) reply.old).result }
    ensures store_after { store.new ≡ (called shore store.old
        (event_asked heard pdu.now) reply.old).store }
    ensures reply_after { reply.new ≡ (called shore store.old
        (event_asked heard pdu.now) reply.old).reply }
{
    if client::bad_call(shore.table, store.len(), reply.len()) {
        return refused(shore);
    }
    taken(
        shore,
        store,
        heard.number,
        heard.matter,
        heard.block.of(pdu),
        reply,
    )
}

// Zeroes the store and gives the empty table. A store of another size is left as it is.
pub fn start(store: &mut [u8]) -> Started
    ensures value { result ≡ started store.old }
    ensures store_after { store.new ≡ store_started store.old }
{
    let started = client::start(store);
    let table = started.table;
    let begun = started.begun;
    Started {
        shore: Shore { table, asked: 0 },
        begun,
    }
}

// A PDU from the client. Nothing is sent in answer to one; the reply buffer is lent as at the client end.
pub fn receive(shore: Shore, store: &mut [u8], pdu: &[u8], reply: &mut [u8]) -> Given
    ensures value { result ≡ (received shore store.old pdu.now reply.old).result }
    ensures store_after { store.new ≡ (received shore store.old pdu.now reply.old).store }
    ensures reply_after { reply.new ≡ (received shore store.old pdu.now reply.old).reply }
{
    step(shore, store, hear(pdu), pdu, reply)
}

// The host closes a channel. The reply is a Close.
pub fn local_close(shore: Shore, store: &mut [u8], number: u32, reply: &mut [u8]) -> Given
    ensures value { result ≡ (locally_closed shore store.old number reply.old).result }
    ensures store_after { store.new ≡ (locally_closed shore store.old number reply.old).store }
    ensures reply_after { reply.new ≡ (locally_closed shore store.old number reply.old).reply }
{
    step(shore, store, closing(number), b"", reply)
}

// ---- calls that are lent the buffer of a written PDU

// A refusal of the request or of a local open: it concerns no channel, and gives back what came in.
fn unsent(shore: Shore, why: Refusal) -> Sending
    ensures { result ≡ record { shore = shore; said = Said.Refused why None; sent = 0 } }
{
    Sending {
        shore,
        said: Said::Refused { why, concern: None },
        sent: 0,
    }
}

// Refusal 1: the PDU buffer is not of its size, or the table is unsound.
fn bad_out(table: Table, room: usize) -> bool
    ensures { result ≡ bad_out table room }
{
    if room < PDU_MAX {
        return true;
    }
    !table::sound(table)
}

// The Capabilities request, once.
pub fn request(shore: Shore, version: u16, charges: Charges, out: &mut [u8]) -> Sending
    ensures value { result ≡ (requested shore version charges out.old).result }
    ensures out_after { out.new ≡ (requested shore version charges out.old).out }
{
    if bad_out(shore.table, out.len()) {
        return unsent(shore, Refusal::BadCall);
    }
    if shore.asked != 0 {
        return unsent(shore, Refusal::WrongTime);
    }
    match writing::write_capabilities_request(out, version, charges) {
        Err(why) => unsent(shore, why),
        Ok(sent) => {
            let table = shore.table;
            Sending {
                shore: Shore {
                    table,
                    asked: version,
                },
                said: Said::Asked { version },
                sent,
            }
        }
    }
}

// The smallest number from 1 up that no record has.
fn least_number(table: Table) -> u32
    ensures { result ≡ least_number table }
{
    for number in 1..PARTS as u32 + 1 {
        if PARTS <= table::find_number(table, number).place {
            return number;
        }
    }
    PARTS as u32 + 1
}

// The record that a number has from the local open on.
pub fn awaited(level: u8, number: u32, class: u8) -> Record
    ensures { result ≡ awaited_record level number class }
{
    Record {
        awaited: true,
        ..channel::opened(level, number, class)
    }
}

// The host opens a channel by its listener's name and a class. The Create request goes to the buffer of a written PDU.
pub fn open(shore: Shore, name: &[u8], class: u8, out: &mut [u8]) -> Sending
    ensures value { result ≡ (locally_opened shore name.now class out.old).result }
    ensures out_after { out.new ≡ (locally_opened shore name.now class out.old).out }
{
    let table = shore.table;
    if bad_out(table, out.len()) {
        return unsent(shore, Refusal::BadCall);
    }
    if !table.ready {
        return unsent(shore, Refusal::WrongTime);
    }
    let k = table::find_free(table);
    if PARTS <= k {
        return unsent(shore, Refusal::AllTaken);
    }
    let number = least_number(table);
    let sends = channel::class_at(table.level, class);
    match writing::write_create_request(out, number, sends, name) {
        Err(why) => unsent(shore, why),
        Ok(sent) => {
            let row = table::blank();
            let change = Change::Becomes(awaited(table.level, number, class));
            let next = table::put(table, table.ready, table.level, k, row, change);
            Sending {
                shore: Shore {
                    table: next,
                    asked: shore.asked,
                },
                said: Said::Awaited { number },
                sent,
            }
        }
    }
}
