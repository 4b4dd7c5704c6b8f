// The link log on the panel's flash: what is received and closed, in blocks of 512 bytes.
//
// `append` and `close` log a PDU and a local close. They are lent a room of five blocks, in which the log's last block stands, and nothing
// else of the log; what they leave there is to be put to flash, in rising order. They refuse with 21 a record that doesn't fit in 65,536
// blocks, and with 1 a room that isn't the log's; then nothing is written. `take_up` takes a log up again from its last block, `take_back`
// after a loss of power inside an append.
//
// Reading begins with `begin`. Each block of the log goes to `turn`, with the reader that came out before and a room: at its front then stand
// the records that the block made whole, which `whole` takes apart. Any bytes are read: a bad block takes with it the records that touch it.
#![tactic(auto)]

ghost use Rattle.std.specs.Prelude.{◌≡◌, true, ◌++◌, ◌+◌, ◌-◌, ◌*◌, ◌≤◌, ◌<◌, cond, nat_lt, length, take, drop, IfSome};
ghost use Rattle.lists.specs.Bytes.{laid};
ghost use Rattle.blocks.specs.Block.{BLOCK, HEAD, PAYLOAD, block_of, used_in, place_in, may_begin};
ghost use Rattle.records.specs.Records.{found};
ghost use Rattle.records.specs.Desk.{whole_by};
ghost use Rattle.records.specs.Walks.{records_of, size_of};
ghost use Rattle.linklog.specs.Records.{Received, Closed, RECORD_MAX, record_of, is_stray, needs_of, logged_whole};
ghost use Rattle.linklog.specs.Written.{blocks_for};
ghost use Rattle.linklog.specs.Reading.{BLOCKS_MAX};
ghost use Rattle.linklog.specs.Appending.{ROOM, chained, first_touched, payload_so_far, place_then, may_be_last, is_lent, filled_to, filled_with};
ghost use Rattle.linklog.specs.Appending.{answer_for, room_then};
ghost use Rattle.linklog.specs.Reading.{Seeking, Within, nothing, through, entered};
ghost use Rattle.linklog.specs.TakenBack.{end_with, shortened};
ghost use Rattle.linklog.specs.Taking.{taken_up, may_shorten, took_back, room_back};
ghost use Rattle.linklog.specs.Turns.{at_first, is_reader, course_in, brought_by, is_last_of, reader_at, reader_with, turned_to, room_after};

use blocks::{BLOCK, HEAD, NONE, PAYLOAD};
use paper::Refusal;
use records::{CLOSE, CLOSE_SIZE, LENGTH};

// The most blocks that a log has.
pub const BLOCKS_MAX: u32 = 65536;

// The most bytes of a PDU that are logged, and of a record.
pub const CUT: usize = 1601;

pub const RECORD_MAX: usize = LENGTH + CUT;

// The most blocks that one record touches, and the bytes of the room that an append is lent.
pub const HELD_MAX: u32 = 5;

pub const ROOM: usize = HELD_MAX as usize * BLOCK;

// The most bytes of payload that one append has in hand: what the block had, and a record.
const IN_HAND: usize = PAYLOAD + RECORD_MAX;

// A log between two appends: how many blocks it has, and how many of them, the last ones in rising order, stand at the room's front.
#[derive(Clone, Copy)]
pub struct Log {
    pub blocks: u32,
    pub held: u32,
}

// Where the last whole record ends: in the last of so many blocks, behind so many bytes of its payload. With no block there is none: no
// Option, since C keeps both numbers in a reader's (`log_face::read_word`).
#[derive(Clone, Copy)]
pub struct End {
    pub blocks: u32,
    pub used: u32,
}

// A reader between two blocks. At the room's front stand so many bytes of whole records, and behind them so many of one that isn't whole,
// which counts only within a record: else reading looks for a block in which one begins. What is behind stands beside `within`, and in no
// Option, since C keeps both in a reader's number (`log_face::read_word`).
#[derive(Clone, Copy)]
pub struct Reader {
    pub within: bool,
    pub whole: usize,
    pub behind: usize,
    pub end: End,
}

// The first block that an append touches: its number, how many bytes of its payload are used, and where its first record begins then.
#[derive(Clone, Copy)]
struct First {
    number: u32,
    used: usize,
    place: u32,
    ghost fits: { (number ≤ BLOCKS_MAX) × ((used < PAYLOAD) × (place < 65536)) },
}

// A good block, and its number.
#[derive(Clone, Copy)]
struct Good<'a> {
    number: u32,
    block: &'a [u8],
    ghost numbered: { number < 65536 },
    ghost long: { length block.now ≡ BLOCK },
    ghost fits: { used_in block.now ≤ PAYLOAD },
    ghost begins: { may_begin (used_in block.now) (place_in block.now) ≡ true },
}

// How many blocks so many bytes fill.
#[tactic(auto, unfolding(crate::specs::Written::blocks_for))]
fn blocks_for(bytes: usize) -> usize
    ensures { result ≡ blocks_for bytes }
{
    bytes.div_ceil(PAYLOAD)
}

// Whether a block may be the last of so many.
#[tactic(auto, using(std::proofs::lemmas::Bool::Decides::nat_tests), unfolding(crate::specs::Appending::may_be_last))]
fn may_be_last(blocks: u32, block: &[u8]) -> bool
    ensures { (result ≡ may_be_last blocks block.now) × (result ≡ true → blocks ≤ BLOCKS_MAX) }
{
    u32::from(blocks::number(block)) + 1 == blocks && usize::from(blocks::used(block)) <= PAYLOAD
}

// Whether the room is of its size, and has the last block of a log that isn't empty.
fn is_lent(log: Log, room: &[u8]) -> bool
    ensures { (result ≡ is_lent log room.now) × (result ≡ true → log.blocks ≤ BLOCKS_MAX) }
{
    if room.len() < ROOM {
        return false;
    }
    if log.blocks == 0 {
        return true;
    }
    if log.held < 1 {
        return false;
    }
    if HELD_MAX < log.held {
        return false;
    }
    let at = BLOCK * (log.held as usize - 1);
    may_be_last(log.blocks, &room[at..at + BLOCK])
}

// The first block that an append touches, where there is a last block: that one, or a new one where it is full.
fn first_touched(blocks: u32, last: &[u8]) -> First
    requires { (blocks ≡ 0 → ⊥) × ((blocks ≤ BLOCKS_MAX) × (used_in last.now ≤ PAYLOAD)) }
    ensures { (result.number ≡ first_touched blocks last.now)
        × ((take result.used (drop HEAD last.now) ≡ payload_so_far blocks last.now)
        × (result.place ≡ place_then blocks last.now)) }
{
    let used = usize::from(blocks::used(last));
    if used == PAYLOAD {
        return First {
            number: blocks,
            used: 0,
            place: 0,
        };
    }
    let place = u32::from(blocks::place(last));
    First {
        number: blocks - 1,
        used,
        place: if place == NONE { used as u32 } else { place },
    }
}

// One block of the payload's front, from a place of the room on.
fn lay(room: &mut [u8], to: usize, number: u32, place: u32, payload: &[u8])
    requires { (to + BLOCK ≤ length room.old) × ((number < 65536) × (place < 65536)) }
    ensures { room.new ≡ laid room.old to (block_of number place (take PAYLOAD payload.now)) }
{
    blocks::seal(&mut room[to..to + BLOCK], number, place, 0, payload);
}

// The blocks of the payload, one behind the other from the room's front on. No record begins in the second or behind it.
fn chain(room: &mut [u8], number: u32, place: u32, payload: &[u8])
    requires { (BLOCK * blocks_for (length payload.now) ≤ length room.old)
        × ((number + blocks_for (length payload.now) ≤ 65536) × (place < 65536)) }
    ensures { room.new ≡ laid room.old 0 (chained (blocks_for (length payload.now)) number place payload.now) }
{
    let mut first = place;
    for i in 0..blocks_for(payload.len()) {
        lay(
            room,
            BLOCK * i,
            number + i as u32,
            first,
            &payload[PAYLOAD * i..],
        );
        first = NONE;
    }
}

// Three pieces, one behind the other.
fn gather(out: &mut [u8], first: &[u8], second: &[u8], third: &[u8])
    requires { length first.now + (length second.now + length third.now) ≤ length out.old }
    ensures { out.new ≡ laid out.old 0 (first.now ++ (second.now ++ third.now)) }
{
    let two = first.len() + second.len();
    lists::copy(out, first);
    lists::copy_at(out, first.len(), second);
    lists::copy_at(out, two, third);
}

// The blocks of what the first one has, which stands in the room from a place on, and of the record behind it.
fn put(first: First, from: usize, room: &mut [u8], head: &[u8], body: &[u8])
    requires in_bounds { (ROOM ≤ length room.old) × ((from + PAYLOAD ≤ length room.old) × (length head.now + length body.now ≤ RECORD_MAX)) }
    requires body_bound { first.number + blocks_for (first.used + (length head.now + length body.now)) ≤ BLOCKS_MAX }
    ensures { room.new ≡ laid room.old 0
        (chained (blocks_for (first.used + (length head.now + length body.now)))
        first.number first.place (take first.used (drop from room.old) ++ (head.now ++ body.now))) }
{
    let size = first.used + (head.len() + body.len());
    let to = from + first.used;
    let mut payload = [0u8; IN_HAND];
    gather(&mut payload, &room[from..to], head, body);
    chain(room, first.number, first.place, &payload[..size]);
}

// The same, where it fits in 65,536 blocks.
fn fill(
    first: First,
    from: usize,
    room: &mut [u8],
    head: &[u8],
    body: &[u8],
) -> Result<Log, Refusal>
    requires { (ROOM ≤ length room.old) × ((from + PAYLOAD ≤ length room.old) × (length head.now + length body.now ≤ RECORD_MAX)) }
    ensures value { result ≡ filled_to first.number (take first.used (drop from room.old) ++ (head.now ++ body.now)) }
    ensures room_after { room.new ≡ filled_with first.number first.place
        (take first.used (drop from room.old) ++ (head.now ++ body.now)) room.old }
{
    let count = blocks_for(first.used + (head.len() + body.len()));
    let blocks = first.number + count as u32;
    if BLOCKS_MAX < blocks {
        return Err(Refusal::LogFull);
    }
    put(first, from, room, head, body);
    Ok(Log {
        blocks,
        held: count as u32,
    })
}

// A record, whose bytes are the head's and behind them the body's.
fn add(log: Log, room: &mut [u8], head: &[u8], body: &[u8]) -> Result<Log, Refusal>
    requires { length head.now + length body.now ≤ RECORD_MAX }
    ensures value { result ≡ answer_for log room.old (head.now ++ body.now) }
    ensures room_after { room.new ≡ room_then log room.old (head.now ++ body.now) }
{
    if !is_lent(log, room) {
        return Err(Refusal::BadCall);
    }
    if log.blocks == 0 {
        let first = First {
            number: 0,
            used: 0,
            place: 0,
        };
        return fill(first, 0, room, head, body);
    }
    let at = BLOCK * (log.held as usize - 1);
    let first = first_touched(log.blocks, &room[at..at + BLOCK]);
    fill(first, at + HEAD, room, head, body)
}

// Appends a received PDU. Of a longer one the first 1,601 bytes are logged.
pub fn append(log: Log, room: &mut [u8], pdu: &[u8]) -> Result<Log, Refusal>
    ensures value { result ≡ answer_for log room.old (record_of (Received pdu.now)) }
    ensures room_after { room.new ≡ room_then log room.old (record_of (Received pdu.now)) }
{
    let n = pdu.len().min(CUT);
    add(log, room, &(n as u16).to_le_bytes(), &pdu[..n])
}

// Appends the local close of a number.
pub fn close(log: Log, room: &mut [u8], number: u32) -> Result<Log, Refusal>
    ensures value { result ≡ answer_for log room.old (record_of (Closed number)) }
    ensures room_after { room.new ≡ room_then log room.old (record_of (Closed number)) }
{
    add(
        log,
        room,
        &(CLOSE as u16).to_le_bytes(),
        &numbers::split(number),
    )
}

// Before the first block.
pub fn begin() -> Reader
    ensures { result ≡ at_first }
{
    seeking(End { blocks: 0, used: 0 })
}

// Whether the room is of its size, and what the reader says of it can be.
#[tactic(auto, using(std::proofs::lemmas::Bool::Decides::nat_tests), unfolding(crate::specs::Turns::is_reader))]
fn is_reader(reader: Reader, room: &[u8]) -> bool
    ensures { result ≡ is_reader reader room.now }
{
    room.len() >= ROOM
        && reader.whole <= ROOM
        && reader.behind <= ROOM - reader.whole
        && reader.behind < RECORD_MAX
}

// Whether the length at the front is one that no record has.
#[tactic(auto, using(std::proofs::lemmas::Bool::Decides::nat_tests), unfolding(crate::specs::Records::is_stray, records::specs::Records::announced, numbers::specs::Numbers::value_at))]
fn is_stray(input: &[u8]) -> bool
    ensures { result ≡ is_stray input.now }
{
    if input.len() < LENGTH {
        return false;
    }
    let announced = numbers::short_at(input, 0);
    CUT < usize::from(announced) && u32::from(announced) != CLOSE
}

// How many bytes the record at the front needs, as far as those that are there can tell.
#[tactic(auto, using(std::proofs::lemmas::Bool::Decides::nat_tests), unfolding(crate::specs::Records::needs_of, records::specs::Records::announced, numbers::specs::Numbers::value_at))]
fn needs(input: &[u8]) -> usize
    ensures { (result ≡ needs_of input.now) × (LENGTH ≤ result) }
{
    if input.len() < LENGTH {
        return LENGTH;
    }
    let announced = numbers::short_at(input, 0);
    if u32::from(announced) == CLOSE {
        return CLOSE_SIZE;
    }
    LENGTH + usize::from(announced)
}

// So many bytes, where they are there.
#[tactic(auto, using(std::proofs::lemmas::Bool::Decides::nat_tests), unfolding(records::specs::Records::found))]
fn there(input: &[u8], n: usize) -> Option<usize>
    requires { 0 < n }
    ensures value { result ≡ found (cond (nat_lt (length input.now) n) 0 n) }
    ensures within { IfSome result (λ k. (k ≡ n) × (n ≤ length input.now)) }
{
    (n <= input.len()).then_some(n)
}

// How many bytes the record at the front has, where a whole one stands there: any length but a close's announces a PDU.
#[tactic(auto, using(std::proofs::lemmas::Bool::Decides::nat_tests), unfolding(records::specs::Records::found, records::specs::Desk::whole_by))]
pub fn framed(input: &[u8]) -> Option<usize>
    ensures value { result ≡ found (whole_by needs_of input.now) }
    ensures within { IfSome result (λ n. (LENGTH ≤ n) × (n ≤ length input.now)) }
{
    there(input, needs(input))
}

// How many bytes the record at the front has, where a whole one stands there that a log can have. A close is told apart first: with one
// size for either kind, reading a log of closes takes half as long again.
#[tactic(auto, using(std::proofs::lemmas::Bool::Decides::nat_tests), unfolding(records::specs::Records::found, crate::specs::Records::logged_whole, crate::specs::Records::is_stray, crate::specs::Records::needs_of, records::specs::Desk::whole_by, records::specs::Records::announced, numbers::specs::Numbers::value_at))]
pub fn whole(input: &[u8]) -> Option<usize>
    ensures value { result ≡ found (logged_whole input.now) }
    ensures within { IfSome result (λ n. (LENGTH ≤ n) × (n ≤ length input.now)) }
{
    if input.len() < LENGTH {
        return None;
    }
    let announced = numbers::short_at(input, 0);
    if u32::from(announced) == CLOSE {
        return there(input, CLOSE_SIZE);
    }
    if CUT < usize::from(announced) {
        return None;
    }
    there(input, LENGTH + usize::from(announced))
}

// How many bytes the whole records at the front have.
fn whole_records(input: &[u8]) -> usize
    ensures { (result ≡ size_of (records_of logged_whole input.now)) × (result ≤ length input.now) }
{
    let mut at = 0;
    while let Some(n) = whole(&input[at..]) {
        at += n;
    }
    at
}

// Brings bytes that stand at a place to the room's front.
fn bring(room: &mut [u8], from: usize, n: usize)
    requires { from + n ≤ length room.old }
    ensures { room.new ≡ laid room.old 0 (take n (drop from room.old)) }
{
    lists::to_front(&mut room[..from + n], from);
}

// Bytes from a record's beginning on, which end with the used ones of the block of a number.
fn go_through(end: End, number: u32, used: usize, input: &[u8]) -> Reader
    requires { (number < 65536) × (used ≤ PAYLOAD) }
    ensures { result ≡ reader_at (end_with end number used (through input.now)) (through input.now) }
{
    let whole = whole_records(input);
    let behind = input.len() - whole;
    Reader {
        within: !is_stray(&input[whole..]),
        whole,
        behind,
        end: if whole == 0 {
            end
        } else {
            End {
                blocks: number + 1,
                used: used.saturating_sub(behind) as u32,
            }
        },
    }
}

// Where reading looks for a block in which a record begins.
fn seeking(end: End) -> Reader
    ensures { result ≡ reader_at end nothing }
{
    Reader {
        within: false,
        whole: 0,
        behind: 0,
        end,
    }
}

// A good block, within a record: its payload comes behind what the record has so far.
fn go_on(reader: Reader, good: Good<'_>, room: &mut [u8]) -> Reader
    requires { is_reader reader room.old ≡ true }
    ensures value { result ≡ reader_with reader good.entry.number good.entry.block.now
        (entered (Within (take reader.behind (drop reader.whole room.old))) good.entry.block.now) }
    ensures room_after { room.new ≡ laid room.old 0
        (brought_by (Within (take reader.behind (drop reader.whole room.old))) good.entry.block.now) }
{
    let used = usize::from(blocks::used(good.block));
    let held = reader.behind;
    bring(room, reader.whole, held);
    lists::copy_at(room, held, &good.block[HEAD..HEAD + used]);
    go_through(reader.end, good.number, used, &room[..held + used])
}

// A good block, from the place where its first record begins.
fn go_in(reader: Reader, good: Good<'_>, room: &mut [u8]) -> Reader
    requires { is_reader reader room.old ≡ true }
    ensures value { result ≡ reader_with reader good.entry.number good.entry.block.now (entered Seeking good.entry.block.now) }
    ensures room_after { room.new ≡ laid room.old 0 (brought_by Seeking good.entry.block.now) }
{
    let place = blocks::place(good.block);
    if u32::from(place) == NONE {
        return seeking(reader.end);
    }
    let place = usize::from(place);
    let used = usize::from(blocks::used(good.block));
    let size = used - place;
    let from = HEAD + place;
    lists::copy(room, &good.block[from..from + size]);
    go_through(reader.end, good.number, used, &room[..size])
}

// Whether the block of a number is the last of so many.
#[tactic(auto, using(std::proofs::lemmas::Bool::Decides::nat_tests), unfolding(crate::specs::Turns::is_last_of))]
fn is_last_of(blocks: u32, number: u32) -> bool
    ensures { result ≡ is_last_of blocks number }
{
    blocks != 0 && number == blocks - 1
}

// A good block.
fn enter(reader: Reader, good: Good<'_>, room: &mut [u8]) -> Reader
    requires { is_reader reader room.old ≡ true }
    ensures value { result ≡ reader_with reader good.entry.number good.entry.block.now (entered (course_in reader room.old) good.entry.block.now) }
    ensures room_after { room.new ≡ laid room.old 0 (brought_by (course_in reader room.old) good.entry.block.now) }
{
    if reader.within {
        return go_on(reader, good, room);
    }
    go_in(reader, good, room)
}

// Reads the block of a number, of a log of so many. At the room's front then stand the bytes of the records that it makes whole, one
// behind the other, and behind them those of one that isn't whole.
pub fn turn(
    reader: Reader,
    blocks: u32,
    number: u32,
    block: &[u8],
    room: &mut [u8],
) -> Result<Reader, Refusal>
    ensures value { result ≡ turned_to reader blocks number block.now room.old }
    ensures room_after { room.new ≡ room_after reader blocks number block.now room.old }
{
    if !is_reader(reader, room) {
        return Err(Refusal::BadCall);
    }
    if !blocks::good(block, number, is_last_of(blocks, number)) {
        return Ok(seeking(reader.end));
    }
    Ok(enter(reader, Good { number, block }, room))
}

// A log that was stopped between two appends, taken up from its last block, which is to stand at the room's front.
pub fn take_up(blocks: u32, block: &[u8]) -> Result<Log, Refusal>
    ensures { result ≡ taken_up blocks block.now }
{
    if blocks == 0 {
        return Ok(Log { blocks: 0, held: 0 });
    }
    if !blocks::good(block, blocks - 1, true) {
        return Err(Refusal::BadCall);
    }
    Ok(Log { blocks, held: 1 })
}

// Whether the room is of its size, and has the block that holds the end at its front.
fn may_shorten(end: End, room: &[u8]) -> bool
    ensures { (result ≡ may_shorten end room.now) × (result ≡ true → end.blocks ≤ BLOCKS_MAX) }
{
    if room.len() < ROOM {
        return false;
    }
    let block = &room[..BLOCK];
    if !may_be_last(end.blocks, block) {
        return false;
    }
    end.used <= u32::from(blocks::used(block))
}

// Cuts the block at the room's front behind so many bytes of its payload.
fn shorten(number: u32, used: usize, room: &mut [u8])
    requires { (ROOM ≤ length room.old) × ((number < 65536) × ((used ≤ used_in (take BLOCK room.old)) × (used_in (take BLOCK room.old) ≤ PAYLOAD))) }
    ensures { room.new ≡ laid room.old 0 (shortened number used (take BLOCK room.old)) }
{
    let block = &mut room[..BLOCK];
    let place = blocks::place(block);
    let first = if usize::from(place) < used {
        u32::from(place)
    } else {
        NONE
    };
    blocks::seal(block, number, first, used, b"");
}

// A log taken back to the end of its last whole record, after a loss of power inside an append: the block that holds the end stands at the
// room's front, and is made anew with nothing behind it. The blocks behind it are to be taken off the log before it is put.
pub fn take_back(end: End, room: &mut [u8]) -> Result<Log, Refusal>
    ensures value { result ≡ took_back end room.old }
    ensures room_after { room.new ≡ room_back end room.old }
{
    if end.blocks == 0 {
        return Ok(Log { blocks: 0, held: 0 });
    }
    if !may_shorten(end, room) {
        return Err(Refusal::BadCall);
    }
    shorten(end.blocks - 1, end.used as usize, room);
    Ok(Log {
        blocks: end.blocks,
        held: 1,
    })
}
