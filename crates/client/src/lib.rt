// The client end: start, receive, local close, and the two totals.
//
// The host keeps the table and the store. `start` makes both; then each received PDU goes to `receive` and each close by
// the host to `local_close`, with the table of the call before. A refusal writes nothing to store and reply and changes no
// channel, but that refusals 10, 11 and 12 turn the one channel's stage to spoiled, and so do 2 to 5 for a block of data that
// carries its channel's number whole. Every entry takes anything.
#![tactic(auto)]

ghost use Rattle.std.specs.Prelude.{◌≡◌, true, length};
ghost use Rattle.paper.specs.Sizes.{PARTS, STORE};
ghost use Rattle.lists.specs.Bytes.{laid};
ghost use Rattle.reading.specs.Reading.{read_pdu};
ghost use Rattle.reading.specs.Garbled.{carries};
ghost use Rattle.channel.specs.Turns.{reply_told};
ghost use Rattle.table.specs.Sound.{sound_table};
ghost use Rattle.connection.specs.States.{state_of};
ghost use Rattle.client.specs.Asking.{nowhere, create_ask, unread_ask, heard_in, closing_of, told, event_asked};
ghost use Rattle.client.specs.Client.{Gives, stepped, place_if, bad_call, called, received, locally_closed, started, store_started};

use channel::{Answer, Ask, Offer, Reply};
use deciding::Matter;
use paper::{PARTS, Refusal};
use reading::{Extent, Pdu};
use table::{Table, Totals};

// What Start gives: the empty table, refused or not.
#[derive(Clone, Copy)]
pub struct Started {
    pub table: Table,
    pub begun: Result<(), Refusal>,
}

// What a call gives: the next table, the answer, how many bytes of the reply to send, and the place of the record of the
// channel that the answer concerns, or sixteen where it concerns none or the channel has no record then. A message that is
// handed up is the first bytes of the part there, which begins at 4,096 times the place.
#[derive(Clone, Copy)]
pub struct Received {
    pub table: Table,
    pub answer: Answer,
    pub sent: usize,
    pub place: usize,
}

// What a call asks: of the channel with the number, if of any, what, and where in the PDU the block lies. What can be asked is
// each end's own.
#[derive(Clone, Copy)]
pub struct Asked<M> {
    pub number: u32,
    pub matter: M,
    pub block: Extent,
}

// What is asked with no block.
pub fn bare<M>(number: u32, matter: M) -> Asked<M>
    ensures { result ≡ record { number = number; matter = matter; block = nowhere } }
{
    let block = Extent { at: 0, len: 0 };
    Asked {
        number,
        matter,
        block,
    }
}

// What a Create request asks, by the list that the host lends and the request's name and Pri.
fn create_ask(list: &[u8], name: &[u8], pri: u8) -> Ask
    ensures { result ≡ create_ask list.now name.now pri }
{
    if !listeners::good(list) {
        return Ask::NoList;
    }
    Ask::Name {
        listed: listeners::listed(list, name),
        pri,
    }
}

// What a PDU asks that reading refuses, by the number that it carries.
fn unread(pdu: &[u8], why: Refusal) -> Asked<Matter>
    ensures { result ≡ unread_ask why (carries pdu.now) }
{
    match reading::carries(pdu) {
        None => bare(0, Matter::Unread { why, whole: false }),
        Some(number) => bare(number, Matter::Unread { why, whole: true }),
    }
}

// What a PDU from the server asks, with the names that the host listens for. Responses are never read in a PDU from the
// server.
pub fn heard(list: &[u8], pdu: &[u8]) -> Asked<Matter>
    ensures { result ≡ heard_in list.now pdu.now (read_pdu true pdu.now) }
{
    match reading::read(pdu, true) {
        Pdu::Refused(why) => unread(pdu, why),
        Pdu::CapsRequest {
            version,
            charges: _,
        } => bare(0, Matter::Caps(version)),
        Pdu::CreateRequest {
            number,
            class,
            name,
        } => bare(number, Matter::Asks(create_ask(list, name.of(pdu), class))),
        Pdu::DataFirst {
            number,
            length,
            block,
        } => Asked {
            number,
            matter: Matter::Asks(Ask::Block(Offer::First(length))),
            block,
        },
        Pdu::Data { number, block } => Asked {
            number,
            matter: Matter::Asks(Ask::Block(Offer::More)),
            block,
        },
        Pdu::Close { number } => bare(number, Matter::Asks(Ask::End { local: false })),
        Pdu::CreateResponse {
            number: _,
            status: _,
        } => bare(
            0,
            Matter::Unread {
                why: Refusal::WrongTime,
                whole: false,
            },
        ),
        Pdu::CapsResponse { version: _ } => bare(
            0,
            Matter::Unread {
                why: Refusal::WrongTime,
                whole: false,
            },
        ),
    }
}

// What a close by the host asks.
pub fn closing(number: u32) -> Asked<Matter>
    ensures { result ≡ closing_of number }
{
    bare(number, Matter::Asks(Ask::End { local: true }))
}

// The reply, laid at the front of the buffer.
pub fn lay(reply: &mut [u8], number: u32, what: Reply) -> usize
    ensures value { result ≡ length (reply_told number what) }
    ensures reply_after { reply.new ≡ laid reply.old 0 (reply_told number what) }
{
    match what {
        Reply::NoReply => 0,
        Reply::Version => laying::capabilities_response(reply, channel::OUR_VERSION),
        Reply::Status(status) => laying::create_response(reply, number, status),
        Reply::CloseBack => laying::close(reply, number),
    }
}

// The place, if an answer concerns a channel.
pub fn place_if(concern: Option<u32>, place: usize) -> usize
    ensures { result ≡ place_if concern place }
{
    match concern {
        None => PARTS,
        Some(_) => place,
    }
}

// What is asked is done: the channel's record is found, what it comes to is decided, and that is put back.
fn taken(
    table: Table,
    store: &mut [u8],
    number: u32,
    matter: Matter,
    block: &[u8],
    reply: &mut [u8],
) -> Received
    requires { (length store.old ≡ STORE) × (sound_table table ≡ true) }
    ensures { Gives (stepped (state_of table store.old) (told number matter block.now))
        reply.old result store.new reply.new }
{
    let found = table::find(table, number);
    let k = found.place;
    let row = found.row;
    let room = k < PARTS;
    let decided = deciding::decide(
        table.ready,
        table.level,
        number,
        room,
        row,
        matter,
        block.len(),
    );
    let turn = decided.turn;
    let change = turn.change;
    let part = turn.part;
    let answer = turn.answer;
    let what = turn.reply;
    let next = table::put(table, decided.ready, decided.level, k, row, change);
    let sent = lay(reply, number, what);
    connection::keep(store, k, part, block);
    Received {
        table: next,
        answer,
        sent,
        place: place_if(
            channel::concerns(answer),
            connection::place_after(k, row.taken, change),
        ),
    }
}

// Refusal 1 gives back the very table that came in.
fn refused(table: Table) -> Received
    ensures { result ≡ record { table = table; answer = Answer.Refused Refusal.BadCall None; sent = 0; place = PARTS } }
{
    Received {
        table,
        answer: Answer::Refused {
            why: Refusal::BadCall,
            concern: None,
        },
        sent: 0,
        place: PARTS,
    }
}

// Refusal 1: the store or the reply buffer is not of its size, or the table is unsound.
pub fn bad_call(table: Table, store: usize, reply: usize) -> bool
    ensures { result ≡ bad_call table store reply }
{
    if store != paper::STORE {
        return true;
    }
    if reply < paper::REPLY_MIN {
        return true;
    }
    !table::sound(table)
}

// Zeroes the store and gives the empty table. A store of another size is left as it is.
pub fn start(store: &mut [u8]) -> Started
    ensures value { result ≡ started store.old }
    ensures store_after { store.new ≡ store_started store.old }
{
    if store.len() != paper::STORE {
        return Started {
            table: table::empty(),
            begun: Err(Refusal::BadCall),
        };
    }
    lists::clear(store);
    Started {
        table: table::empty(),
        begun: Ok(()),
    }
}

// A call: refusal 1, and behind it what is asked. The block is the bytes of the PDU at its place, as far as there are any.
// `receive` and `local_close` are faces of this one. A program is quickest that calls it, from one place.
pub fn step(
    table: Table,
    store: &mut [u8],
    asked: Asked<Matter>,
    pdu: &[u8],
    reply: &mut [u8],
) -> Received
    ensures value { result ≡ (called table store.old
        (event_asked asked pdu.now) reply.old).result }
    ensures store_after { store.new ≡ (called table store.old
        (event_asked asked pdu.now) reply.old).store }
    ensures reply_after { reply.new ≡ (called table store.old
        (event_asked asked pdu.now) reply.old).reply }
{
    if bad_call(table, store.len(), reply.len()) {
        return refused(table);
    }
    taken(
        table,
        store,
        asked.number,
        asked.matter,
        asked.block.of(pdu),
        reply,
    )
}

// A PDU from the server, with the names that the host listens for. The reply goes to the reply buffer.
pub fn receive(
    table: Table,
    store: &mut [u8],
    list: &[u8],
    pdu: &[u8],
    reply: &mut [u8],
) -> Received
    ensures value { result ≡ (received table store.old
        list.now pdu.now reply.old).result }
    ensures store_after { store.new ≡ (received table store.old
        list.now pdu.now reply.old).store }
    ensures reply_after { reply.new ≡ (received table store.old
        list.now pdu.now reply.old).reply }
{
    step(table, store, heard(list, pdu), pdu, reply)
}

// The host closes a channel. The reply is a Close.
pub fn local_close(table: Table, store: &mut [u8], number: u32, reply: &mut [u8]) -> Received
    ensures value { result ≡ (locally_closed table store.old number reply.old).result }
    ensures store_after { store.new ≡ (locally_closed table store.old number reply.old).store }
    ensures reply_after { reply.new ≡ (locally_closed table store.old number reply.old).reply }
{
    step(table, store, closing(number), b"", reply)
}

// The open channels and the bytes still to come over all joining ones, of any table, without going through its records. In
// every table that a call gives they are what a recount comes to.
pub fn totals(table: Table) -> Totals
    ensures { result ≡ table.totals }
{
    table.totals
}
