// What two small programs print: `logwrite`, which makes a log of records, and `logread`, which gives a log's records as lines.
//
// Writing begins with `begin`. The bytes of the input, as reads give them, go to `take` with the course that came out before and the room
// of the log, which lays the blocks that became full; `finish` then lays the last one, where it is partly filled. A refusal (21, the log
// has no room for the record) stands in the course: what is behind it is not logged. Nothing is kept but the course and the room.
//
// Reading begins with `judge`, which refuses by its size a file that is no log (22). The log's blocks then go to `tell`, one by one with the
// reader that came out before, at first `linklog::begin()`, and with its room; it lays the lines of the records that the block gives. Each takes
// anything.
#![tactic(auto)]

ghost use Rattle.std.specs.Prelude.{◌≡◌, ◌+◌, ◌*◌, ◌≤◌, length, take, drop, IfOk, IfSome};
ghost use Rattle.lists.specs.Bytes.{laid};
ghost use Rattle.numbers.specs.Numbers.{value_at};
ghost use Rattle.records.specs.Records.{LENGTH, found};
ghost use Rattle.records.specs.Walks.{records_of, size_of, rest_of};
ghost use Rattle.blocks.specs.Block.{BLOCK, PAYLOAD};
ghost use Rattle.lines.specs.Decimal.{FIELD_MAX};
ghost use Rattle.lines.specs.Pen.{Lays};
ghost use Rattle.linklog.specs.Records.{Received, Closed, entry_in, record_of};
ghost use Rattle.linklog.specs.Appending.{ROOM, last_at, last_in, answer_for, room_then};
ghost use Rattle.logging.specs.Input.{input_whole};
ghost use Rattle.logging.specs.Writing.{is_even, full_text, last_text, step_of, put_of, is_over, start_course, turned_to, stand_of};
ghost use Rattle.logging.specs.Lines.{TEXT_PER_BYTE, SAID_MAX, entry_line, said_of};
ghost use Rattle.linklog.specs.Turns.{room_after};
ghost use Rattle.logging.specs.Reading.{judged_by, told_by, text_of};

use blocks::{BLOCK, PAYLOAD};
use lines::Pen;
use linklog::{BLOCKS_MAX, Log, ROOM, Reader};
use paper::Refusal;
use records::{CLOSE, LENGTH};

// The most bytes that a record of the input has: its length, and as many bytes as it can announce.
pub const INPUT_MAX: usize = LENGTH + 65534;

// The most bytes of text for a byte of records, and for a room of them.
const TEXT_PER_BYTE: usize = 14;

pub const SAID_MAX: usize = TEXT_PER_BYTE * ROOM;

// How a log stands after the records so far: the log, and the refusal that ended it, if one did.
#[derive(Clone, Copy)]
pub struct Course {
    pub log: Log,
    pub why: Option<Refusal>,
}

// Where writing stands between two reads: the course, how many bytes were left, and how many bytes of full blocks the last turn laid.
#[derive(Clone, Copy)]
pub struct Stand {
    pub course: Course,
    pub had: usize,
    pub laid: usize,
}

// What a block gives: where the reader stands, and how many bytes its records' lines have.
#[derive(Clone, Copy)]
pub struct Told {
    pub reader: Reader,
    pub laid: usize,
}

// What one record gives: the course, and how many bytes of full blocks it laid.
#[derive(Clone, Copy)]
struct Stepped {
    course: Course,
    laid: usize,
}

// What a walk through records gives: the course, how many bytes of the input it took, and how many bytes of full blocks it laid.
#[derive(Clone, Copy)]
struct Walked {
    course: Course,
    taken: usize,
    laid: usize,
}

// How many bytes the record at the front has, where a whole one stands there.
#[tactic(auto, using(std::proofs::lemmas::Bool::Decides::nat_tests), unfolding(crate::specs::Input::input_whole, records::specs::Records::found, records::specs::Desk::whole_by))]
fn whole(input: &[u8]) -> Option<usize>
    ensures value { result ≡ found (input_whole input.now) }
    ensures within { IfSome result (λ n. (LENGTH ≤ n) × (n ≤ length input.now)) }
{
    linklog::framed(input)
}

// Appends what a record of the input says.
fn append(log: Log, room: &mut [u8], bytes: &[u8]) -> Result<Log, Refusal>
    requires { LENGTH ≤ length bytes.now }
    ensures value { result ≡ answer_for log room.old (record_of (entry_in bytes.now)) }
    ensures room_after { room.new ≡ room_then log room.old (record_of (entry_in bytes.now)) }
{
    let announced = numbers::short_at(bytes, 0);
    if u32::from(announced) == CLOSE {
        let number = numbers::number(&bytes[LENGTH..]);
        return linklog::close(log, room, number);
    }
    linklog::append(log, room, &bytes[LENGTH..])
}

// Where the log's last block stands in the room.
fn last_at(log: Log) -> usize
    ensures { (result ≡ last_at log) × (result ≤ BLOCK * 4294967295) }
{
    if log.held == 0 {
        return 0;
    }
    BLOCK * (log.held as usize - 1)
}

// The log's last block, as far as the room has it.
fn last_block(log: Log, room: &[u8]) -> &[u8]
    ensures { (result.now ≡ last_in log room.now) × (length result.now ≤ BLOCK) }
{
    let at = last_at(log);
    let start = at.min(room.len());
    let end = (at + BLOCK).min(room.len());
    &room[start..end]
}

// Whether the log has no last block, or a full one.
fn is_even(log: Log, room: &[u8]) -> bool
    ensures { result ≡ is_even log room.now }
{
    if log.blocks == 0 {
        return true;
    }
    usize::from(blocks::used(last_block(log, room))) == PAYLOAD
}

// How many bytes at the room's front are full blocks.
fn full(log: Log, room: &[u8]) -> usize
    ensures { (result ≤ length room.now) × ((result ≡ length (full_text log room.now))
        × (take result room.now ≡ full_text log room.now)) }
{
    if is_even(log, room) {
        return (BLOCK * log.held as usize).min(room.len());
    }
    last_at(log).min(room.len())
}

// Appends a record, and lays the blocks that became full from a place on.
fn put(log: Log, bytes: &[u8], room: &mut [u8], out: &mut [u8], at: usize) -> Stepped
    requires { LENGTH ≤ length bytes.now }
    ensures course_value { (result.course ≡ (put_of log room.old bytes.now).course)
        × (result.laid ≡ length (put_of log room.old bytes.now).text) }
    ensures room_after { room.new ≡ (put_of log room.old bytes.now).room }
    ensures out_after { out.new ≡ laid out.old at (put_of log room.old bytes.now).text }
{
    match append(log, room, bytes) {
        Ok(next) => {
            let n = full(next, room);
            lists::copy_at(out, at, &room[..n]);
            Stepped {
                course: Course {
                    log: next,
                    why: None,
                },
                laid: n,
            }
        }
        Err(why) => Stepped {
            course: Course {
                log,
                why: Some(why),
            },
            laid: 0,
        },
    }
}

// One record. Behind a refusal it isn't logged.
fn step(course: Course, bytes: &[u8], room: &mut [u8], out: &mut [u8], at: usize) -> Stepped
    requires { LENGTH ≤ length bytes.now }
    ensures course_value { (result.course ≡ (step_of course room.old bytes.now).course)
        × (result.laid ≡ length (step_of course room.old bytes.now).text) }
    ensures room_after { room.new ≡ (step_of course room.old bytes.now).room }
    ensures out_after { out.new ≡ laid out.old at (step_of course room.old bytes.now).text }
{
    if is_over(course) {
        return Stepped { course, laid: 0 };
    }
    let log = course.log;
    put(log, bytes, room, out, at)
}

// Walks through the whole records at the front of the input, and lays the blocks that became full one behind the other.
fn walk(course: Course, input: &[u8], room: &mut [u8], out: &mut [u8]) -> Walked
    ensures course_value { (result.course ≡ (turned_to course room.old input.now).kept.course)
        × ((result.laid ≡ length (turned_to course room.old input.now).kept.text)
        × (PAYLOAD * result.laid ≤ BLOCK * (length input.now + PAYLOAD))) }
    ensures taken_value { (result.taken ≡ size_of (records_of input_whole input.now)) × (result.taken ≤ length input.now) }
    ensures room_after { room.new ≡ (turned_to course room.old input.now).kept.room }
    ensures out_after { out.new ≡ laid out.old 0 (turned_to course room.old input.now).kept.text }
{
    let mut next = course;
    let mut at = 0;
    let mut used = 0;
    // Records have varying sizes.
    while let Some(n) = whole(&input[at..]) {
        let end = at + n;
        let stepped = step(next, &input[at..end], room, out, used);
        next = stepped.course;
        used += stepped.laid;
        at = end;
    }
    Walked {
        course: next,
        taken: at,
        laid: used,
    }
}

// Where writing begins: an empty log, and nothing left.
pub fn begin() -> Stand
    ensures { result ≡ record { course = start_course; had = 0; laid = 0 } }
{
    Stand {
        course: Course {
            log: Log { blocks: 0, held: 0 },
            why: None,
        },
        had: 0,
        laid: 0,
    }
}

// Whether a refusal has ended the log.
#[tactic(auto, unfolding(crate::specs::Writing::is_over))]
pub fn is_over(course: Course) -> bool
    ensures { result ≡ is_over course }
{
    course.why.is_some()
}

// Logs the whole records of the input that is there, what was left and behind it what was read, and lays the blocks that became full at
// the front of the output. What is left then comes to the input's front. An output that is too short gets as much as it has room for.
pub fn take(course: Course, input: &mut [u8], room: &mut [u8], out: &mut [u8]) -> Stand
    ensures value { (result ≡ stand_of (turned_to course room.old input.old))
        × ((result.had ≤ length input.old) × (PAYLOAD * result.laid ≤ BLOCK * (length input.old + PAYLOAD))) }
    ensures input_after { input.new ≡ laid input.old 0 (rest_of input_whole input.old) }
    ensures room_after { room.new ≡ (turned_to course room.old input.old).kept.room }
    ensures out_after { out.new ≡ laid out.old 0 (turned_to course room.old input.old).kept.text }
{
    let walked = walk(course, input, room, out);
    let taken = walked.taken;
    lists::to_front(input, taken);
    let course = walked.course;
    Stand {
        course,
        had: input.len() - taken,
        laid: walked.laid,
    }
}

// Lays the last block, where it is partly filled, at the front of the output. Answers how many bytes it has, or 0.
pub fn finish(log: Log, room: &[u8], out: &mut [u8]) -> usize
    ensures value { (result ≡ length (last_text log room.now)) × (result ≤ BLOCK) }
    ensures out_after { out.new ≡ laid out.old 0 (last_text log room.now) }
{
    if is_even(log, room) {
        return 0;
    }
    lines::text(out, 0, last_block(log, room))
}

// The line of a local close.
fn close_line(pen: &mut Pen, bytes: &[u8])
    requires { (LENGTH ≤ length bytes.now) × (pen.old.at ≤ SAID_MAX) }
    ensures { Lays pen.old pen.new (entry_line (Closed (value_at bytes.now LENGTH 4))) (6 + FIELD_MAX) }
{
    let number = numbers::number(&bytes[LENGTH..]);
    pen.text(b"close ");
    pen.field(u64::from(number), b'\n');
}

// The line of a PDU.
fn pdu_line(pen: &mut Pen, pdu: &[u8])
    requires { (length pdu.now ≤ ROOM) × (pen.old.at ≤ SAID_MAX) }
    ensures { Lays pen.old pen.new (entry_line (Received pdu.now)) (4 + FIELD_MAX + 2 * length pdu.now + 2) }
{
    pen.text(b"pdu ");
    pen.field(pdu.len() as u64, b' ');
    pen.bytes(pdu);
    pen.text(b"\n");
}

// The line of a record.
fn line(pen: &mut Pen, bytes: &[u8])
    requires { (LENGTH ≤ length bytes.now) × ((length bytes.now ≤ ROOM) × (pen.old.at ≤ SAID_MAX)) }
    ensures { Lays pen.old pen.new (entry_line (entry_in bytes.now)) (TEXT_PER_BYTE * length bytes.now) }
{
    let announced = numbers::short_at(bytes, 0);
    if u32::from(announced) == CLOSE {
        close_line(pen, bytes);
        return;
    }
    pdu_line(pen, &bytes[LENGTH..]);
}

// The lines of the whole records at the front of the bytes, one behind the other.
fn lines_of(records: &[u8], out: &mut [u8]) -> usize
    requires { length records.now ≤ ROOM }
    ensures value { (result ≡ length (said_of records.now)) × (result ≤ SAID_MAX) }
    ensures out_after { out.new ≡ laid out.old 0 (said_of records.now) }
{
    let mut pen = Pen { out, at: 0 };
    let mut at = 0;
    // Records have varying sizes.
    while let Some(n) = linklog::whole(&records[at..]) {
        let end = at + n;
        line(&mut pen, &records[at..end]);
        at = end;
    }
    pen.at
}

// The lines of the whole records at the front of the bytes, of which a turn gives at most a room's. Answers how many bytes they have.
fn say(records: &[u8], out: &mut [u8]) -> usize
    ensures value { (result ≡ length (said_of (take ROOM records.now))) × (result ≤ SAID_MAX) }
    ensures out_after { out.new ≡ laid out.old 0 (said_of (take ROOM records.now)) }
{
    let n = records.len().min(ROOM);
    lines_of(&records[..n], out)
}

// How many blocks a log of such a size has.
pub fn judge(size: u64) -> Result<u32, Refusal>
    ensures { result ≡ judged_by size }
{
    if size % (BLOCK as u64) != 0 {
        return Err(Refusal::NotBlocks);
    }
    let blocks = size / (BLOCK as u64);
    if (BLOCKS_MAX as u64) < blocks {
        return Err(Refusal::NotBlocks);
    }
    Ok(blocks as u32)
}

// The lines of the records that a block gives to a reader, at the front of the output. The reader's room is lent from block to block, and
// a reader that `tell` gave for this room is never refused.
pub fn tell(
    reader: Reader,
    blocks: u32,
    number: u32,
    block: &[u8],
    room: &mut [u8],
    out: &mut [u8],
) -> Result<Told, Refusal>
    ensures value { result ≡ told_by reader blocks number block.now room.old }
    ensures laid { IfOk result (λ told. told.laid ≤ SAID_MAX) }
    ensures room_after { room.new ≡ room_after reader blocks number block.now room.old }
    ensures out_after { out.new ≡ laid out.old 0 (text_of reader blocks number block.now room.old) }
{
    let next = linklog::turn(reader, blocks, number, block, room)?;
    let n = (next.whole + next.behind).min(room.len());
    let laid = say(&room[..n], out);
    Ok(Told { reader: next, laid })
}
