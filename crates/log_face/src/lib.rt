// The link log for hosts in C: what is kept between two calls is one number.
//
// `dvc_log_append` and `dvc_log_close` take a log's number and the room, and give the log's next number. `dvc_log_take_up` gives the number
// of a log that was stopped between two appends. `dvc_log_read` takes a reader's number, 0 before the first block, and gives the next; and
// `dvc_log_take_back` takes a log back to where the last whole record ends that was read. A refusal's number comes below zero.
#![tactic(auto)]

ghost use Rattle.std.specs.Prelude.{◌≡◌, ℕ, ◌<◌, ◌^◌};
ghost use Rattle.linklog.specs.Records.{Received, Closed, record_of};
ghost use Rattle.linklog.specs.Taking.{taken_up};
ghost use Rattle.log_face.specs.Words.{LOGS, READS, number_of, log_word, log_in, log_number, append_number, append_room, end_word, end_in};
ghost use Rattle.log_face.specs.Words.{read_word, read_in, turn_number};
ghost use Rattle.log_face.specs.Words.{turn_room, back_number, back_room, refused_as};
ghost use Rattle.paper.specs.Refusals.{refusal_number};

use linklog::{End, Log, Reader};
use paper::Refusal;

// The numbers of a log: the held blocks below eight, and the log's blocks above.
const HELDS: u64 = 8;

const LOGS: u64 = HELDS * 65537;

// The numbers of a reader's parts, from the lowest up.
const WHOLES: u64 = 4096;

const BEHINDS: u64 = 2048;

const ENDS: u64 = 131072;

const USEDS: u64 = 512;

const READS: u64 = WHOLES * BEHINDS * 2 * ENDS * USEDS;

// A refusal, below zero.
fn refused(why: Refusal) -> i64
    ensures { result ≡ refused_as (refusal_number why) }
{
    -(paper::refusal_number(why) as i64)
}

// What a host keeps as one number.
trait Word: Copy {
    ghost word: { Self → ℕ };

    fn word(self) -> u64
        ensures { (result ≡ word self) × (result < 2 ^ 63) };
}

impl Word for Log {
    ghost word = { log_word };

    #[tactic(auto, unfolding(crate::specs::Words::log_word))]
    fn word(self) -> u64 {
        self.held as u64 + HELDS * self.blocks as u64
    }
}

impl Word for Reader {
    ghost word = { read_word };

    fn word(self) -> u64 {
        self.whole as u64 % WHOLES
            + WHOLES
                * (self.behind as u64 % BEHINDS
                    + BEHINDS * (u64::from(self.within) + 2 * end_word(self.end)))
    }
}

// What a call answers: the next number, or a refusal below zero.
fn as_number<T: Word>(answer: Result<T, Refusal>) -> i64
    ensures { result ≡ number_of T.word answer }
{
    match answer {
        Ok(kept) => kept.word() as i64,
        Err(why) => refused(why),
    }
}

#[tactic(auto, unfolding(crate::specs::Words::log_in))]
fn log_in(word: u64) -> Log
    requires { word < LOGS }
    ensures { result ≡ log_in word }
{
    Log {
        blocks: (word / HELDS) as u32,
        held: (word % HELDS) as u32,
    }
}

#[tactic(auto, unfolding(crate::specs::Words::end_word))]
fn end_word(end: End) -> u64
    ensures { (result ≡ end_word end) × (result < 67108864) }
{
    end.blocks as u64 % ENDS + ENDS * (end.used as u64 % USEDS)
}

#[tactic(auto, unfolding(crate::specs::Words::end_in))]
fn end_in(word: u64) -> End
    ensures { result ≡ end_in word }
{
    End {
        blocks: (word % ENDS) as u32,
        used: (word / ENDS % USEDS) as u32,
    }
}

#[tactic(auto, unfolding(crate::specs::Words::read_in))]
fn read_in(word: u64) -> Reader
    ensures { result ≡ read_in word }
{
    let above = word / WHOLES / BEHINDS;
    Reader {
        within: above % 2 == 1,
        whole: (word % WHOLES) as usize,
        behind: (word / WHOLES % BEHINDS) as usize,
        end: end_in(above / 2),
    }
}

// The C interface: a log and a reader are numbers, and so is an answer.

// Appends a received PDU.
#[unsafe(no_mangle)]
pub extern "C" fn dvc_log_append(log: u64, room: &mut [u8], pdu: &[u8]) -> i64
    ensures value { result ≡ append_number log room.old (record_of (Received pdu.now)) }
    ensures room_after { room.new ≡ append_room log room.old (record_of (Received pdu.now)) }
{
    if LOGS <= log {
        return refused(Refusal::BadCall);
    }
    as_number(linklog::append(log_in(log), room, pdu))
}

// Appends the local close of a number.
#[unsafe(no_mangle)]
pub extern "C" fn dvc_log_close(log: u64, room: &mut [u8], number: u32) -> i64
    ensures value { result ≡ append_number log room.old (record_of (Closed number)) }
    ensures room_after { room.new ≡ append_room log room.old (record_of (Closed number)) }
{
    if LOGS <= log {
        return refused(Refusal::BadCall);
    }
    as_number(linklog::close(log_in(log), room, number))
}

// Takes a log up again after a stop between two appends, from its last block.
#[unsafe(no_mangle)]
pub extern "C" fn dvc_log_take_up(blocks: u32, block: &[u8]) -> i64
    ensures { result ≡ log_number (taken_up blocks block.now) }
{
    as_number(linklog::take_up(blocks, block))
}

// Reads the block of a number, of a log of so many.
#[unsafe(no_mangle)]
pub extern "C" fn dvc_log_read(
    read: u64,
    number: u32,
    blocks: u32,
    block: &[u8],
    room: &mut [u8],
) -> i64
    ensures value { result ≡ turn_number read blocks number block.now room.old }
    ensures room_after { room.new ≡ turn_room read blocks number block.now room.old }
{
    if READS <= read {
        return refused(Refusal::BadCall);
    }
    as_number(linklog::turn(read_in(read), blocks, number, block, room))
}

// Takes a log back to the end of the last whole record that was read.
#[unsafe(no_mangle)]
pub extern "C" fn dvc_log_take_back(read: u64, room: &mut [u8]) -> i64
    ensures value { result ≡ back_number read room.old }
    ensures room_after { room.new ≡ back_room read room.old }
{
    if READS <= read {
        return refused(Refusal::BadCall);
    }
    let reader = read_in(read);
    as_number(linklog::take_back(reader.end, room))
}
