// One channel: its record, its stage, and the rules of what an event does to it.
//
// specs/Channel has the rules as one definition, `act`, which every step of the manager goes through. The function `act` is
// their code, with no table, no store and no bytes in hand: it takes the channel's record and what is asked of it, and says
// what becomes of the record and of the part, what is answered and what is sent. `take` is the part that joins messages.
// `garbles` stands beside `act`: a block that reading refuses, on an open channel.
#![tactic(auto)]

ghost use Rattle.std.specs.Prelude.{◌≡◌, ◌-◌};
ghost use Rattle.channel.specs.Answers.{concern_of, number_of};
ghost use Rattle.channel.specs.Stages.{added, took_first, took};
ghost use Rattle.channel.specs.Channel.{class_at, counted, opened_record, rebuilt};
ghost use Rattle.channel.specs.Turns.{answering, declining, creating, landing, bringing, garbling, closing, turn_of};

use paper::{COUNT_MAX, MESSAGE_MAX, Refusal};

// How far a channel's message is.
#[derive(Clone, Copy)]
pub enum Stage {
    // No message is being joined.
    Idle,
    // Of a message of `wanted` bytes, `held` are in the channel's part. While joining, held is less than wanted.
    Joining { wanted: u16, held: u16 },
    // Data is refused until the channel is closed.
    Spoiled,
}

// A channel's record. It is taken while it holds a number, open or awaited. A free one is not taken, and is as Start made
// it: number 0, class 0, idle, count 0, not awaited.
#[derive(Clone, Copy)]
pub struct Record {
    pub number: u32,
    pub stage: Stage,
    // Whether the number only waits for its Create response: the shore's mark. The client end doesn't read it.
    pub awaited: bool,
    pub taken: bool,
    // A u32, so that no byte of a record is unused: where some are, the compiler carries fields two to a slot, and takes all
    // sixteen records' apart and together again at every call.
    pub class: u32,
    // The messages handed up since the opening, or COUNT_MAX once there.
    pub count: u32,
}

// Why a Create request is declined, by its number.
#[derive(Clone, Copy)]
pub enum Decline {
    // Its name is not in the listener list.
    Unlisted = 1,
    // All sixteen records are taken.
    Full = 2,
}

// The answer to a call.
#[derive(Clone, Copy)]
pub enum Answer {
    // The level in use.
    Ready { level: u8 },
    Opened { number: u32 },
    Declined { number: u32, why: Decline },
    // So many bytes of the message are still to come.
    Held { number: u32, left: usize },
    // The message is the first `len` bytes of the channel's part.
    Message { number: u32, len: usize },
    Closed { number: u32 },
    Ignored { number: u32 },
    Refused { why: Refusal, concern: Option<u32> },
}

// What a data PDU offers beside its block: a Length, or more of the message. The names say which PDU brings the block, as an
// option's would not.
#[derive(Clone, Copy)]
pub enum Offer {
    First(u32),
    More,
}

// What data does to a channel.
#[derive(Clone, Copy)]
pub enum Took {
    // Refused, and nothing changes.
    Bars(Refusal),
    // Refused, and the channel is spoiled.
    Spoils(Refusal),
    // The block goes into the part at `at`, and then `held` bytes of `wanted` are there.
    Holds { wanted: u16, at: u16, held: u16 },
    // The block goes into the part at `at`, and the message of `len` bytes is whole.
    Finishes { at: u16, len: usize },
}

// A block of n bytes, added to a message of which `held` bytes of `wanted` are there.
#[tactic(auto, unfolding(crate::specs::Stages::added))]
fn add(wanted: u16, held: u16, n: usize) -> Took
    ensures { result ≡ added wanted held n }
{
    let whole = wanted as usize;
    let then = (held as usize).saturating_add(n);
    if whole < then {
        return Took::Spoils(Refusal::PastLength);
    }
    if then == whole {
        return Took::Finishes {
            at: held,
            len: whole,
        };
    }
    Took::Holds {
        wanted,
        at: held,
        held: then as u16,
    }
}

// A Data First on an idle channel: a message of `length` bytes begins with a block of n.
#[tactic(auto, unfolding(crate::specs::Stages::took_first, paper::specs::Sizes::MESSAGE_MAX))]
fn begin(length: u32, n: usize) -> Took
    ensures { result ≡ took_first length n }
{
    if MESSAGE_MAX < length as usize {
        return Took::Spoils(Refusal::OverLimit);
    }
    add(length as u16, 0, n)
}

// What a block of n bytes does to a channel in the stage.
#[tactic(auto, unfolding(crate::specs::Stages::took))]
pub fn take(stage: Stage, offer: Offer, n: usize) -> Took
    ensures { result ≡ took stage offer n }
{
    match stage {
        Stage::Spoiled => Took::Bars(Refusal::IsSpoiled),
        Stage::Joining { wanted, held } => match offer {
            Offer::First(_) => Took::Spoils(Refusal::StillJoining),
            Offer::More => add(wanted, held, n),
        },
        Stage::Idle => match offer {
            Offer::First(length) => begin(length, n),
            Offer::More => Took::Finishes { at: 0, len: n },
        },
    }
}

// What an event asks of its channel.
#[derive(Clone, Copy)]
pub enum Ask {
    // A Create request with a listener list outside its rule.
    NoList,
    // A Create request: whether its name is in the list, and its Pri.
    Name { listed: bool, pri: u8 },
    // A Data First or a Data. Its block stands beside it, and here only the block's length counts.
    Block(Offer),
    // A Close, or a close by the host.
    End { local: bool },
}

// What becomes of the record.
#[derive(Clone, Copy)]
pub enum Change {
    Stays,
    Becomes(Record),
    Frees,
}

// What becomes of the channel's part of the store.
#[derive(Clone, Copy)]
pub enum Part {
    Keeps,
    // The block goes into it from here on.
    Takes { at: usize },
    // Every byte becomes zero.
    Clears,
}

// The version that we say. The level in use is never above it.
pub const OUR_VERSION: u16 = 2;

// What is sent. Nothing is a case of it: with an option around them each case would be matched twice.
#[derive(Clone, Copy)]
pub enum Reply {
    NoReply,
    // A Capabilities response.
    Version,
    // A Create response.
    Status(i32),
    // A Close.
    CloseBack,
}

// What an event does to its channel, what is answered, and what is sent.
#[derive(Clone, Copy)]
pub struct Turn {
    pub change: Change,
    pub part: Part,
    pub answer: Answer,
    pub reply: Reply,
}

// Nothing but an answer.
pub fn answers(answer: Answer) -> Turn
    ensures { result ≡ answering answer }
{
    Turn {
        change: Change::Stays,
        part: Part::Keeps,
        answer,
        reply: Reply::NoReply,
    }
}

// A refusal that concerns the channel with the number, and nothing else.
fn refuses(number: u32, why: Refusal) -> Turn
    ensures { result ≡ answering (Answer.Refused why (Some number)) }
{
    let concern = Some(number);
    answers(Answer::Refused { why, concern })
}

// A Create request is declined with a status.
fn declines(number: u32, why: Decline, status: i32) -> Turn
    ensures { result ≡ declining number why status }
{
    Turn {
        reply: Reply::Status(status),
        ..answers(Answer::Declined { number, why })
    }
}

// Class is Pri at level 2, and 0 at level 1.
#[tactic(auto, unfolding(crate::specs::Channel::class_at))]
pub fn class_at(level: u8, pri: u8) -> u8
    ensures { result ≡ class_at level pri }
{
    if level == 2 {
        return pri;
    }
    0
}

// The record of a channel just opened.
#[tactic(auto, unfolding(crate::specs::Channel::opened_record))]
pub fn opened(level: u8, number: u32, pri: u8) -> Record
    ensures { result ≡ opened_record level number pri }
{
    let class = class_at(level, pri) as u32;
    Record {
        number,
        stage: Stage::Idle,
        awaited: false,
        taken: true,
        class,
        count: 0,
    }
}

// A Create request.
#[tactic(auto, unfolding(crate::specs::Turns::creating))]
fn create(level: u8, number: u32, room: bool, row: Record, listed: bool, pri: u8) -> Turn
    ensures { result ≡ creating level number room row listed pri }
{
    if row.taken {
        return refuses(number, Refusal::AlreadyOpen);
    }
    if !listed {
        return declines(number, Decline::Unlisted, paper::UNLISTED);
    }
    if !room {
        return declines(number, Decline::Full, paper::FULL);
    }
    Turn {
        change: Change::Becomes(opened(level, number, pri)),
        reply: Reply::Status(paper::OPENED),
        ..answers(Answer::Opened { number })
    }
}

// A channel's count, with one message more if one is handed up. It stays at the ceiling once there.
#[tactic(auto, unfolding(paper::specs::Sizes::COUNT_MAX))]
fn counted(count: u32, handed: bool) -> u32
    ensures { result ≡ counted count handed }
{
    if handed {
        return count.saturating_add(1).min(COUNT_MAX);
    }
    count
}

// The record in another stage, with a message counted if one is handed up. Every other change of a record is an opening
// or a closing.
fn rebuilt(row: Record, stage: Stage, handed: bool) -> Record
    ensures { result ≡ rebuilt row stage handed }
{
    Record {
        stage,
        count: counted(row.count, handed),
        ..row
    }
}

// What data does to an open channel, told of its record and its part.
#[tactic(auto, unfolding(crate::specs::Turns::landing, crate::specs::Turns::change_by, crate::specs::Turns::part_by, crate::specs::Channel::stage_after, crate::specs::Channel::answer_to))]
fn lands(number: u32, row: Record, took: Took) -> Turn
    ensures { result ≡ landing number row took }
{
    match took {
        Took::Bars(why) => refuses(number, why),
        Took::Spoils(why) => Turn {
            change: Change::Becomes(rebuilt(row, Stage::Spoiled, false)),
            ..refuses(number, why)
        },
        Took::Holds { wanted, at, held } => {
            let left = wanted.saturating_sub(held) as usize;
            Turn {
                change: Change::Becomes(rebuilt(row, Stage::Joining { wanted, held }, false)),
                part: Part::Takes { at: at as usize },
                ..answers(Answer::Held { number, left })
            }
        }
        Took::Finishes { at, len } => Turn {
            change: Change::Becomes(rebuilt(row, Stage::Idle, true)),
            part: Part::Takes { at: at as usize },
            ..answers(Answer::Message { number, len })
        },
    }
}

// A Data First or a Data, with a block of n bytes.
#[tactic(auto, unfolding(crate::specs::Turns::bringing))]
fn bring(number: u32, row: Record, offer: Offer, n: usize) -> Turn
    ensures { result ≡ bringing number row offer n }
{
    if !row.taken {
        return refuses(number, Refusal::NotOpen);
    }
    let stage = row.stage;
    lands(number, row, take(stage, offer, n))
}

// A garbled block on an open channel: it is spoiled, and the refusal, one of reading, concerns no channel.
#[tactic(auto, unfolding(crate::specs::Turns::garbling, crate::specs::Channel::restaged))]
pub fn garbles(row: Record, why: Refusal) -> Turn
    ensures { result ≡ garbling row why }
{
    let concern = None;
    Turn {
        change: Change::Becomes(rebuilt(row, Stage::Spoiled, false)),
        ..answers(Answer::Refused { why, concern })
    }
}

// A Close, or a close by the host.
#[tactic(auto, unfolding(crate::specs::Turns::closing))]
fn close(number: u32, row: Record, local: bool) -> Turn
    ensures { result ≡ closing number row local }
{
    if row.taken {
        return Turn {
            change: Change::Frees,
            part: Part::Clears,
            answer: Answer::Closed { number },
            reply: Reply::CloseBack,
        };
    }
    if local {
        return refuses(number, Refusal::NotOpen);
    }
    answers(Answer::Ignored { number })
}

// The rules of one channel, at a level, for an event with a block of n bytes. A record that isn't taken is that of a
// channel which is shut; `room` says whether a record is free for it.
#[tactic(auto, unfolding(crate::specs::Turns::turn_of))]
pub fn act(level: u8, number: u32, room: bool, row: Record, ask: Ask, n: usize) -> Turn
    ensures { result ≡ turn_of level number room row ask n }
{
    match ask {
        Ask::NoList => answers(Answer::Refused {
            why: Refusal::BadList,
            concern: None,
        }),
        Ask::Name { listed, pri } => create(level, number, room, row, listed, pri),
        Ask::Block(offer) => bring(number, row, offer, n),
        Ask::End { local } => close(number, row, local),
    }
}

// The channel that the answer concerns.
#[tactic(auto, unfolding(crate::specs::Answers::concern_of))]
pub fn concerns(answer: Answer) -> Option<u32>
    ensures { result ≡ concern_of answer }
{
    match answer {
        Answer::Ready { .. } => None,
        Answer::Opened { number }
        | Answer::Declined { number, .. }
        | Answer::Held { number, .. }
        | Answer::Message { number, .. }
        | Answer::Closed { number }
        | Answer::Ignored { number } => Some(number),
        Answer::Refused { concern, .. } => concern,
    }
}

// The answer's number: level, bytes still to come, message length, refusal number, 1 unlisted or 2 full, else 0.
#[tactic(auto, unfolding(crate::specs::Answers::number_of, crate::specs::Answers::decline_number))]
pub fn value(answer: Answer) -> u64
    ensures { result ≡ number_of answer }
{
    match answer {
        Answer::Ready { level } => level as u64,
        Answer::Opened { .. } | Answer::Closed { .. } | Answer::Ignored { .. } => 0,
        Answer::Declined { why, .. } => why as u64,
        Answer::Held { left, .. } => left as u64,
        Answer::Message { len, .. } => len as u64,
        Answer::Refused { why, .. } => paper::refusal_number(why) as u64,
    }
}
