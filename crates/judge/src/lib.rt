// Judges a sender: whether PDUs hand up a message at the last of them, and nothing before.
//
// A judgement begins with `begin`. Each PDU goes to `judge`, or records as a read gives them go to `turn`, with the course that
// came out before; `comes_to` says what the list has come to where no further PDU follows. Nothing is kept but the course: the list
// may have any length. `head_needs` and `say` are the program's: what stands before the PDUs in its input, and its one line.
// Each takes anything, and none refuses.
#![tactic(auto)]

ghost use Rattle.std.specs.Prelude.{◌≡◌, ◌≤◌, ◌&&◌, length, ◌==◌};
ghost use Rattle.lists.specs.Bytes.{laid};
ghost use Rattle.channel.specs.Stages.{took};
ghost use Rattle.lines.specs.Lines.{LINE_MAX};
ghost use Rattle.records.specs.Records.{whole_of};
ghost use Rattle.records.specs.Walks.{rest_of};
ghost use Rattle.judge.specs.Judge.{agrees, course_by, brought, course_after, judgement_on};
ghost use Rattle.judge.specs.Sender.{HEAD, HEAD_MAX, head_needs, is_whole, REASON_MAX, reason_field, judgement_line, line_at, turned, at_first};

use channel::{Offer, Stage, Took};
use lines::Pen;
use reading::Pdu;
use records::{Stand, Step};

// The bytes of the channel's number, and of number and message length.
pub const NUMBER: usize = 4;

pub const HEAD: usize = 6;

// The most bytes before the PDUs.
pub const HEAD_MAX: usize = HEAD + 65535;

// Why a PDU makes the answer a no, in the order in which they are judged.
#[derive(Clone, Copy)]
pub enum Reason {
    // It is refused in reading.
    Reading,
    // It is no Data First and no Data.
    Kind,
    // It is another channel's.
    OtherChannel,
    // The steps refuse it.
    Steps,
    // It hands up a message and isn't the last.
    Before,
}

// How a list stands after the PDUs that were judged.
#[derive(Clone, Copy)]
pub enum Course {
    // None has a fault and none handed up: the place of the next, the channel's stage, and whether the bytes that are held are
    // the message's first.
    Going {
        place: u64,
        stage: Stage,
        same: bool,
    },
    // The last, at the place, handed up: whether the message.
    Handed {
        place: u64,
        same: bool,
    },
    // The first with a fault.
    Faulty {
        place: u64,
        why: Reason,
    },
}

// What a list comes to. Its four answers are printed each in a word of its own: not the shape of a result.
#[derive(Clone, Copy)]
pub enum Judgement {
    Yes,
    // The first PDU with a fault.
    No { place: u64, why: Reason },
    // Nothing was handed up.
    Early,
    // Something else was handed up.
    Differs,
}

// Whether the block is the message's bytes from a place on.
#[tactic(auto, using(lists::proofs::Lent::rest_lent, crate::proofs::Blocks::compared_so), unfolding(crate::specs::Judge::agrees))]
fn agrees(message: &[u8], from: usize, block: &[u8]) -> bool
    ensures { result ≡ agrees message.now from block.now }
{
    let start = from.min(message.len());
    message[start..].starts_with(block)
}

// The same, if what is before it agreed.
fn agrees_on(same: bool, message: &[u8], from: usize, block: &[u8]) -> bool
    ensures { result ≡ (same && agrees message.now from block.now) }
{
    same && agrees(message, from, block)
}

// Whether a message of so many bytes, that ends with the block, is the message.
fn is_message(same: bool, message: &[u8], from: usize, block: &[u8], len: usize) -> bool
    ensures { result ≡ ((same && agrees message.now from block.now) && len == length message.now) }
{
    agrees_on(same, message, from, block) && len == message.len()
}

// A block of the channel's.
fn lands(message: &[u8], place: u64, stage: Stage, same: bool, offer: Offer, block: &[u8]) -> Course
    ensures { result ≡ course_by message.now place same block.now (took stage offer (length block.now)) }
{
    match channel::take(stage, offer, block.len()) {
        Took::Bars(_) => Course::Faulty {
            place,
            why: Reason::Steps,
        },
        Took::Spoils(_) => Course::Faulty {
            place,
            why: Reason::Steps,
        },
        Took::Holds { wanted, at, held } => Course::Going {
            place: place.wrapping_add(1),
            stage: Stage::Joining { wanted, held },
            same: agrees_on(same, message, at as usize, block),
        },
        Took::Finishes { at, len } => Course::Handed {
            place,
            same: is_message(same, message, at as usize, block, len),
        },
    }
}

// A Data First or a Data: for the channel, or for another.
fn brings(
    number: u32,
    message: &[u8],
    place: u64,
    stage: Stage,
    same: bool,
    theirs: u32,
    offer: Offer,
    block: &[u8],
) -> Course
    ensures { result ≡ brought number message.now place stage same theirs offer block.now }
{
    if theirs != number {
        return Course::Faulty {
            place,
            why: Reason::OtherChannel,
        };
    }
    lands(message, place, stage, same, offer, block)
}

// A PDU where none before it has a fault or handed up.
fn goes(number: u32, message: &[u8], place: u64, stage: Stage, same: bool, pdu: &[u8]) -> Course
    ensures { result ≡ course_after number message.now (Course.Going place stage same) pdu.now }
{
    // The reason of all that is read and isn't data.
    let why = Reason::Kind;
    match reading::read(pdu, true) {
        Pdu::Refused(_) => Course::Faulty {
            place,
            why: Reason::Reading,
        },
        Pdu::DataFirst {
            number: theirs,
            length,
            block,
        } => {
            let at = block.at;
            let end = at + block.len;
            let offer = Offer::First(length);
            brings(
                number,
                message,
                place,
                stage,
                same,
                theirs,
                offer,
                &pdu[at..end],
            )
        }
        Pdu::Data {
            number: theirs,
            block,
        } => {
            let at = block.at;
            let end = at + block.len;
            brings(
                number,
                message,
                place,
                stage,
                same,
                theirs,
                Offer::More,
                &pdu[at..end],
            )
        }
        Pdu::CreateRequest {
            number: _,
            class: _,
            name: _,
        } => Course::Faulty { place, why },
        Pdu::Close { number: _ } => Course::Faulty { place, why },
        Pdu::CapsRequest {
            version: _,
            charges: _,
        } => Course::Faulty { place, why },
        Pdu::CreateResponse {
            number: _,
            status: _,
        } => Course::Faulty { place, why },
        Pdu::CapsResponse { version: _ } => Course::Faulty { place, why },
    }
}

// The course with one more PDU.
pub fn judge(number: u32, message: &[u8], course: Course, pdu: &[u8]) -> Course
    ensures { result ≡ course_after number message.now course pdu.now }
{
    match course {
        Course::Going { place, stage, same } => goes(number, message, place, stage, same, pdu),
        Course::Handed { place, same: _ } => Course::Faulty {
            place,
            why: Reason::Before,
        },
        Course::Faulty { place, why } => Course::Faulty { place, why },
    }
}

// What a list comes to whose PDUs were all judged.
pub fn comes_to(course: Course) -> Judgement
    ensures { result ≡ judgement_on course }
{
    match course {
        Course::Going {
            place: _,
            stage: _,
            same: _,
        } => Judgement::Early,
        Course::Handed { place: _, same } => {
            if same {
                return Judgement::Yes;
            }
            Judgement::Differs
        }
        Course::Faulty { place, why } => Judgement::No { place, why },
    }
}

// Where a run begins: no PDU was judged, the channel is open and idle, and nothing is left.
pub fn begin() -> Stand<Course>
    ensures { result ≡ at_first }
{
    Stand {
        course: Course::Going {
            place: 0,
            stage: Stage::Idle,
            same: true,
        },
        had: 0,
    }
}

// A judgement, by the channel's number and the message, as a step of a walk. It uses nothing that is lent.
#[derive(Drop)]
struct Judging<'a> {
    number: u32,
    message: &'a [u8],
}

impl<'a> Step<Course> for Judging<'a> {
    ghost after = { λ judging at pdu. (course_after judging.number judging.message.now at.0 pdu, at.1) };

    fn take(&self, course: Course, _: &mut [u8], pdu: &[u8]) -> Course {
        judge(self.number, self.message, course, pdu)
    }
}

// Judges the whole records of the input that is there, what was left and behind it what was read. What is left then comes to
// the front.
pub fn turn(number: u32, message: &[u8], course: Course, input: &mut [u8]) -> Stand<Course>
    ensures value { (result ≡ turned number message.now course input.old) × (result.had ≤ length input.old) }
    ensures input_after { input.new ≡ laid input.old 0 (rest_of whole_of input.old) }
{
    records::turn(course, &mut [], input, &Judging { number, message })
}

// How many bytes stand before the PDUs, as far as those that are there can tell.
pub fn head_needs(head: &[u8]) -> usize
    ensures { (result ≡ head_needs head.now) × (HEAD ≤ result) × (result ≤ HEAD_MAX) }
{
    if head.len() < HEAD {
        return HEAD;
    }
    let message = numbers::number(&head[NUMBER..HEAD]);
    HEAD + message as usize
}

// The word of a reason, which ends the line.
#[tactic(auto, unfolding(crate::specs::Sender::reason_field))]
fn word(why: Reason) -> &'static [u8]
    ensures { (result.now ≡ reason_field why) × (length result.now ≤ REASON_MAX) }
{
    match why {
        Reason::Reading => b"reading\n",
        Reason::Kind => b"kind\n",
        Reason::OtherChannel => b"channel\n",
        Reason::Steps => b"steps\n",
        Reason::Before => b"before\n",
    }
}

// The line of a judgement, at the front of the buffer. Answers its length.
#[tactic(auto, unfolding(crate::specs::Sender::judgement_line))]
pub fn line(out: &mut [u8], judgement: Judgement) -> usize
    ensures value { (result ≡ length (judgement_line judgement)) × (result ≤ LINE_MAX) }
    ensures out_after { out.new ≡ laid out.old 0 (judgement_line judgement) }
{
    match judgement {
        Judgement::Yes => lines::text(out, 0, b"yes\n"),
        Judgement::No { place, why } => {
            let mut pen = Pen { out, at: 0 };
            pen.text(b"no ");
            pen.field(place, b' ');
            pen.text(word(why));
            pen.at
        }
        Judgement::Early => lines::text(out, 0, b"no early\n"),
        Judgement::Differs => lines::text(out, 0, b"no bytes\n"),
    }
}

// Whether number and message are there whole.
fn is_whole(head: &[u8]) -> bool
    ensures { result ≡ is_whole head.now }
{
    !(head.len() < head_needs(head))
}

// The program's line at the end of its input, with so many bytes left behind the last whole record: the judgement, or `cut`
// where number and message aren't there whole or a record is cut short.
pub fn say(out: &mut [u8], head: &[u8], course: Course, left: usize) -> usize
    ensures value { (result ≡ length (line_at head.now course left)) × (result ≤ LINE_MAX) }
    ensures out_after { out.new ≡ laid out.old 0 (line_at head.now course left) }
{
    if !is_whole(head) {
        return lines::text(out, 0, b"cut\n");
    }
    if 0 < left {
        return lines::text(out, 0, b"cut\n");
    }
    line(out, comes_to(course))
}
