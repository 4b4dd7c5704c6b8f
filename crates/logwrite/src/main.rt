// Makes a link log of records.
//
// It is called as `logwrite < RECORDS > LOG`. Each record of standard input is a PDU after its length in two bytes, little-endian; the length
// 65,535 is a local close, with its number in four bytes. The blocks of the log go to standard output, each when it is full and the last one
// at the end. Where a record has no room in the log, the log up to there goes out and `refused 21` is said on standard error. A last record
// that is cut short is not logged, and said there; so is a read that fails, and then nothing more goes out. What is written is the work of
// `logging`.
#![tactic(auto)]

ghost use Rattle.std.specs.Prelude.{◌≡◌};

use blocks::{BLOCK, PAYLOAD};
use files::Failed;
use linklog::{BLOCKS_MAX, ROOM};
use logging::{Course, INPUT_MAX};
use std::io::Read;

// The bytes of the output: for an input of the longest record, all blocks that become full, of which one was begun before.
const OUTPUT: usize = BLOCK * (INPUT_MAX + PAYLOAD) / PAYLOAD;

// Each read brings a byte, each record has a byte in the log, and a full log ends it: no log takes so many reads.
const READS: u64 = (BLOCKS_MAX as u64 * PAYLOAD as u64 + 1) * INPUT_MAX as u64;

// Writes the last block, where it is partly filled, and says what is to be said.
fn finish(rt: &(impl Print + Eprint), course: Course, had: usize, room: &[u8]) -> Result<(), Failed>
    ensures { room.now ≡ room.now }
{
    let mut out = [0u8; BLOCK];
    let last = logging::finish(course.log, room, &mut out);
    files::write(rt, &out[..last])?;
    if let Some(why) = course.why {
        let said = lines::refused(&mut out, 0, paper::refusal_number(why));
        files::complain(rt, &out[..said]);
    } else if 0 < had {
        files::complain(
            rt,
            b"logwrite: the last record is cut short, and is not logged\n",
        );
    }
    Ok(())
}

// Logs read by read, until the input ends or a record has no room.
fn run<R: Read>(rt: &(impl Print + Eprint), reader: &mut R) -> Result<(), Failed> {
    let mut input = [0u8; INPUT_MAX];
    let mut room = [0u8; ROOM];
    let mut out = [0u8; OUTPUT];
    let mut stand = logging::begin();
    // A loop shared with the other programs that read so, over a closure, has as many lines at each caller.
    for _ in 0..READS {
        let end = files::fill(rt, reader, b"standard input", &mut input, stand.had)?;
        if end == stand.had {
            break;
        }
        stand = logging::take(stand.course, &mut input[..end], &mut room, &mut out);
        files::write(rt, &out[..stand.laid])?;
        if logging::is_over(stand.course) {
            break;
        }
    }
    finish(rt, stand.course, stand.had, &room)
}

fn main(rt: HostRuntime) {
    if 0 < files::arguments(&rt) {
        files::complain(
            &rt,
            b"logwrite: call it as `logwrite < RECORDS > LOG`, with no more words\n",
        );
        return;
    }
    let _ = run(&rt, &mut rt.reader());
}
