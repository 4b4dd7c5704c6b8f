// The sender's judge: says whether PDUs hand up a message at the last of them, and nothing before.
//
// Standard input has a channel's number in four bytes, a message's length in two, the message, and then the PDUs as records. The
// one line says `yes`; `no` with the place of the first PDU at fault and why; `no early`; `no bytes`; or `cut`. What is judged
// and the text of the line are the work of `judge`.
#![tactic(auto)]

ghost use Rattle.std.specs.Prelude.{◌≤◌, ◌≡◌, length};
ghost use Rattle.judge.specs.Sender.{HEAD};

use files::Failed;
use judge::{Course, HEAD, HEAD_MAX, NUMBER};
use lines::LINE_MAX;
use records::{RECORD_MAX, Stand};
use std::io::Read;

// The bytes of the input buffer: room for two records of the greatest length.
const INPUT: usize = 2 * RECORD_MAX;

// Says what the PDUs came to at the end of the input.
fn say(rt: &(impl Print + Eprint), head: &[u8], stand: Stand<Course>) -> Result<(), Failed>
    ensures { head.now ≡ head.now }
{
    let mut out = [0u8; LINE_MAX];
    let laid = judge::say(&mut out, head, stand.course, stand.had);
    files::write(rt, &out[..laid])
}

// Judges the PDUs read by read, and says at the end of the input what they came to.
fn judged<R: Read>(rt: &(impl Print + Eprint), reader: &mut R, head: &[u8]) -> Result<(), Failed>
    requires { HEAD ≤ length head.now }
    ensures { head.now ≡ head.now }
{
    let mut buffer = [0u8; INPUT];
    let number = numbers::number(&head[..NUMBER]);
    let mut stand = judge::begin();
    // A loop shared with the other programs that read so, over a closure, has as many lines at each caller.
    // A proved loop has to end, and nothing says that an input does: a count that no run uses up.
    for _ in 0..u64::MAX {
        let end = files::fill(rt, reader, b"standard input", &mut buffer, stand.had)?;
        if end == stand.had {
            return say(rt, head, stand);
        }
        stand = judge::turn(number, &head[HEAD..], stand.course, &mut buffer[..end]);
    }
    Ok(())
}

// Reads number and length, then the message behind them, and then judges the PDUs. Where the input is too short for number
// and length, nothing is judged.
fn run<R: Read>(rt: &(impl Print + Eprint), reader: &mut R) -> Result<(), Failed> {
    let mut head = [0u8; HEAD_MAX];
    let fixed = files::load(rt, reader, b"standard input", &mut head[..HEAD])?;
    if fixed < HEAD {
        return say(rt, &head[..fixed], judge::begin());
    }
    let needs = judge::head_needs(&head[..HEAD]);
    let more = files::load(rt, reader, b"standard input", &mut head[HEAD..needs])?;
    judged(rt, reader, &head[..HEAD + more])
}

fn main(rt: HostRuntime) {
    if 0 < files::arguments(&rt) {
        files::complain(
            &rt,
            b"sender: takes no arguments, and reads a number, a message and records from standard input\n",
        );
        return;
    }
    let _ = run(&rt, &mut rt.reader());
}
