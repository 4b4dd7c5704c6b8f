// Why is this channel dead? Says of a place of the walker's input what its PDU got, and why: for a 13 what spoiled the channel, for
// any other refusal the first rule in the order that held.
//
// A search begins with `begin`, on a store that is lent. The records of the input, as reads give them, go to `turn` with the course
// that came out before, until something is said or the input ends; `say` then lays the program's one line. Nothing is kept but the
// course, with a note for each of the sixteen records: the input may have any length. `sought_in` is the program's argument. Each takes
// anything, and none refuses.
#![tactic(auto)]

ghost use Rattle.std.specs.Prelude.{◌≡◌, ◌+◌, ◌-◌, ◌*◌, ◌<◌, ◌≤◌, cond, not, ◌&&◌, ◌==◌, nat_lt, Some, None, length};
ghost use Rattle.std.specs.List.{list_all};
ghost use Rattle.std.specs.Char.{is_ascii_digit};
ghost use Rattle.paper.specs.Rows.{refused_with};
ghost use Rattle.lists.specs.Bytes.{laid};
ghost use Rattle.client.specs.Client.{store_started};
ghost use Rattle.steps.specs.Rows.{verdict_of};
ghost use Rattle.rules.specs.Rules.{the_rules, first_of};
ghost use Rattle.records.specs.Records.{PLACES, whole_of};
ghost use Rattle.records.specs.Walks.{rest_of};
ghost use Rattle.cause.specs.Notes.{note_at, turned, noted_from, notes_after};
ghost use Rattle.cause.specs.Cause.{cause_named, cause_by, cause_of, said_by, course_on, way_of, way_after, start_course, turned_to, stand_of};
ghost use Rattle.cause.specs.Why.{sought_in, WHY_MAX, why_line, said_line};

use channel::{Answer, Record};
use client::Received;
use lines::{ANSWER_MAX, FIELD_MAX, Pen};
use paper::{PARTS, REPLY_MIN, Refusal};
use records::{Stand, Step};
use rules::Rule;
use table::Table;

// What spoiled a channel: the place of the PDU, and the refusal that it got.
#[derive(Clone, Copy)]
pub struct Note {
    pub place: u64,
    pub why: Refusal,
}

// Why a PDU was refused. What was accepted has no cause, and refusal 1 is the call's.
#[derive(Clone, Copy)]
pub enum Cause {
    // 13: what spoiled the channel.
    SpoiledBy { place: u64, why: Refusal },
    // Any other refusal: the first rule in the order that held.
    ByRule(Rule),
}

// What is said of the place that is sought: what its PDU was answered, the reply's length, and why.
#[derive(Clone, Copy)]
pub struct Said {
    pub answer: Answer,
    pub sent: usize,
    pub cause: Option<Cause>,
}

// How a search stands after the PDUs so far: the manager's table, the notes, the place of the next PDU, and what is said, once
// the records have the place that is sought.
#[derive(Clone, Copy)]
pub struct Course {
    pub table: Table,
    pub notes: [Note; PARTS],
    pub place: u64,
    pub said: Option<Said>,
}

// Why the program's argument names no place.
#[derive(Clone, Copy, PartialEq, Eq)]
pub enum NoPlace {
    // It is of no record: 2^64 or more.
    Beyond,
    // Not digits only, or none.
    NoDigits,
}

// The most bytes of the program's line: the answer's fields, `spoiled at `, a place, `by `, and a number.
pub const WHY_MAX: usize = ANSWER_MAX + 11 + FIELD_MAX + 3 + FIELD_MAX;

// Whether a record turned from not spoiled to spoiled.
#[tactic(auto, unfolding(crate::specs::Notes::turned))]
fn has_turned(before: Record, after: Record) -> bool
    ensures { result ≡ turned before after }
{
    !rules::is_spoiled(before.stage) && rules::is_spoiled(after.stage)
}

// The note of a record: the new one where it turned spoiled, and else the old one.
fn newer(has_turned: bool, note: Note, old: Note) -> Note
    ensures { result ≡ cond has_turned note old }
{
    if has_turned { note } else { old }
}

// The notes, with the note where a record turned spoiled.
fn noted(notes: [Note; PARTS], note: Note, before: Table, after: Table) -> [Note; PARTS]
    ensures { result ≡ noted_from 0 note before after notes }
{
    let mut next = notes;
    // The index goes over the records of two tables and the notes at once: iterators put side by side have as many lines.
    for i in 0..PARTS {
        let was = before.records[i];
        let is = after.records[i];
        let old = next[i];
        next[i] = newer(has_turned(was, is), note, old);
    }
    next
}

// The notes after a PDU at a place.
fn notes_after(
    place: u64,
    answer: Answer,
    before: Table,
    after: Table,
    notes: [Note; PARTS],
) -> [Note; PARTS]
    ensures { result ≡ notes_after place (verdict_of answer) before after notes }
{
    let Answer::Refused { why, .. } = answer else {
        return notes;
    };
    noted(notes, Note { place, why }, before, after)
}

// The note of a record. A place of sixteen is no record, as the table's search has it; its note says nothing.
fn note_at(notes: [Note; PARTS], k: usize) -> Note
    ensures { result ≡ note_at notes k }
{
    if k < PARTS {
        return notes[k];
    }
    Note {
        place: 0,
        why: Refusal::BadCall,
    }
}

// The cause of a 13.
fn spoiling(note: Note) -> Cause
    ensures { result ≡ Cause.SpoiledBy note.place note.why }
{
    Cause::SpoiledBy {
        place: note.place,
        why: note.why,
    }
}

// The cause by the rule that held first.
#[tactic(auto, unfolding(crate::specs::Cause::cause_named))]
fn named(broken: Option<Rule>) -> Option<Cause>
    ensures { result ≡ cause_named broken }
{
    match broken {
        None => None,
        Some(rule) => Some(Cause::ByRule(rule)),
    }
}

// The cause of a refusal, by the notes and the table before it and the place of the channel's record.
fn of_refusal(
    notes: [Note; PARTS],
    table: Table,
    list: &[u8],
    pdu: &[u8],
    why: Refusal,
    place: usize,
) -> Option<Cause>
    ensures { result ≡ cause_by (note_at notes place) (first_of (the_rules table list.now pdu.now)) (refused_with why) }
{
    match why {
        Refusal::BadCall => None,
        Refusal::IsSpoiled => Some(spoiling(note_at(notes, place))),
        _ => named(rules::first(table, list, pdu)),
    }
}

// The cause of what a PDU got.
fn of_answer(
    notes: [Note; PARTS],
    table: Table,
    list: &[u8],
    pdu: &[u8],
    answer: Answer,
    place: usize,
) -> Option<Cause>
    ensures { result ≡ cause_by (note_at notes place) (first_of (the_rules table list.now pdu.now)) (verdict_of answer) }
{
    let Answer::Refused { why, .. } = answer else {
        return None;
    };
    of_refusal(notes, table, list, pdu, why, place)
}

// What is said of the PDU at the place.
#[tactic(auto, unfolding(crate::specs::Cause::cause_of))]
fn told(notes: [Note; PARTS], table: Table, list: &[u8], pdu: &[u8], received: Received) -> Said
    ensures { result ≡ record { answer = received.answer; sent = received.sent; cause = cause_of notes table list.now pdu.now received } }
{
    let answer = received.answer;
    Said {
        answer,
        sent: received.sent,
        cause: of_answer(notes, table, list, pdu, answer, received.place),
    }
}

// What is said after a PDU: at the place that is sought what it got, and from there on that.
#[tactic(auto, unfolding(crate::specs::Cause::said_by))]
fn said_after(
    sought: u64,
    course: Course,
    list: &[u8],
    pdu: &[u8],
    received: Received,
) -> Option<Said>
    ensures { result ≡ said_by course.said sought course.place received
        (cause_of course.notes course.table list.now pdu.now received) }
{
    match course.said {
        None if course.place == sought => {
            let notes = course.notes;
            let table = course.table;
            Some(told(notes, table, list, pdu, received))
        }
        said => said,
    }
}

// The course after a PDU, from what it got.
fn onward(sought: u64, course: Course, list: &[u8], pdu: &[u8], received: Received) -> Course
    ensures { result ≡ course_on sought list.now course pdu.now received }
{
    let said = said_after(sought, course, list, pdu, received);
    let answer = received.answer;
    let before = course.table;
    let table = received.table;
    let notes = course.notes;
    Course {
        table,
        notes: notes_after(course.place, answer, before, table, notes),
        place: course.place.wrapping_add(1),
        said,
    }
}

// One PDU more: the client's step for it.
fn step(sought: u64, course: Course, store: &mut [u8], list: &[u8], pdu: &[u8]) -> Course
    ensures value { result ≡ (way_after sought list.now (way_of course store.old) pdu.now).course }
    ensures store_after { store.new ≡ (way_after sought list.now (way_of course store.old) pdu.now).store }
{
    let table = course.table;
    let mut reply = [0u8; REPLY_MIN];
    let received = client::receive(table, store, list, pdu, &mut reply);
    onward(sought, course, list, pdu, received)
}

// Where a search begins: the manager is started on the store, nothing is noted, and nothing is left.
pub fn begin(store: &mut [u8]) -> Stand<Course>
    ensures value { result ≡ record { course = start_course; had = 0 } }
    ensures store_after { store.new ≡ store_started store.old }
{
    let started = client::start(store);
    let table = started.table;
    let notes = [Note {
        place: 0,
        why: Refusal::BadCall,
    }; PARTS];
    Stand {
        course: Course {
            table,
            notes,
            place: 0,
            said: None,
        },
        had: 0,
    }
}

// A search, by the place that is sought and the client's listeners, as a step of a walk. The store is lent.
#[derive(Drop)]
struct Search<'a> {
    sought: u64,
    list: &'a [u8],
}

impl<'a> Step<Course> for Search<'a> {
    ghost after = { λ search at pdu.
        let way = way_after search.sought search.list.now (way_of at.0 at.1) pdu in (way.course, way.store) };

    fn take(&self, course: Course, store: &mut [u8], pdu: &[u8]) -> Course {
        step(self.sought, course, store, self.list, pdu)
    }
}

// Takes the whole records of the input that is there, what was left and behind it what was read. What is left then comes to the
// front.
pub fn turn(
    sought: u64,
    course: Course,
    store: &mut [u8],
    list: &[u8],
    input: &mut [u8],
) -> Stand<Course>
    ensures value { (result ≡ stand_of (turned_to sought list.now (way_of course store.old) input.old))
        × (result.had ≤ length input.old) }
    ensures store_after { store.new ≡ (turned_to sought list.now
        (way_of course store.old) input.old).kept.store }
    ensures input_after { input.new ≡ laid input.old 0 (rest_of whole_of input.old) }
{
    records::turn(course, store, input, &Search { sought, list })
}

// The number with a digit behind it, where that is below 2^64.
fn with_digit(number: u64, digit: u8) -> Option<u64>
    ensures { result ≡ cond (nat_lt (10 * number + (digit - 48)) PLACES) (Some (10 * number + (digit - 48))) None }
{
    number
        .checked_mul(10)?
        .checked_add(digit.saturating_sub(b'0') as u64)
}

// Whether a word is digits only.
fn has_digits_only(word: &[u8]) -> bool
    ensures { result ≡ list_all is_ascii_digit word.now }
{
    word.iter().all(|byte| byte.is_ascii_digit())
}

// Whether it has a digit, and nothing else.
fn is_number(word: &[u8]) -> bool
    ensures { result ≡ (not (length word.now == 0) && list_all is_ascii_digit word.now) }
{
    !word.is_empty() && has_digits_only(word)
}

// The place that a word of digits names.
pub fn sought_in(word: &[u8]) -> Result<u64, NoPlace>
    ensures { result ≡ sought_in word.now }
{
    if !is_number(word) {
        return Err(NoPlace::NoDigits);
    }
    let mut number = 0;
    for digit in word {
        let Some(next) = with_digit(number, *digit) else {
            return Err(NoPlace::Beyond);
        };
        number = next;
    }
    Ok(number)
}

// The line of what a PDU got, at the front of the buffer.
fn line(out: &mut [u8], answer: Answer, sent: usize, cause: Option<Cause>) -> usize
    ensures value { (result ≡ length (why_line answer sent cause)) × (result ≤ WHY_MAX) }
    ensures out_after { out.new ≡ laid out.old 0 (why_line answer sent cause) }
{
    let mut pen = Pen { out, at: 0 };
    let Some(cause) = cause else {
        pen.answer(answer, sent, b'\n');
        return pen.at;
    };
    pen.answer(answer, sent, b' ');
    match cause {
        Cause::SpoiledBy { place, why } => {
            pen.text(b"spoiled at ");
            pen.field(place, b' ');
            pen.text(b"by ");
            pen.field(paper::refusal_number(why) as u64, b'\n');
        }
        Cause::ByRule(rule) => {
            pen.text(b"rule ");
            pen.text(rules::text(rule));
        }
    }
    pen.at
}

// The program's line, at the front of the buffer: of what is said, or `absent`. Answers its length.
#[tactic(auto, unfolding(crate::specs::Why::said_line))]
pub fn say(out: &mut [u8], said: Option<Said>) -> usize
    ensures value { (result ≡ length (said_line said)) × (result ≤ WHY_MAX) }
    ensures out_after { out.new ≡ laid out.old 0 (said_line said) }
{
    match said {
        None => lines::text(out, 0, b"absent\n"),
        Some(said) => line(out, said.answer, said.sent, said.cause),
    }
}
