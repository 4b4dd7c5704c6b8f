// Why is this channel dead? Says of one place of the walker's input what its PDU got, and why.
//
// It is called as `why PLACE`, and the walker's input comes on standard input; the one listener is PUMP. The one line has the
// fields of the walker's line without the place, and behind them for a 13 the place and the refusal that spoiled the channel, for
// any other refusal the name of the first rule that held. Where the input doesn't have the place whole it is `absent`. What is said
// and the text of the line are the work of `cause`.
#![tactic(auto)]

use cause::{NoPlace, Said, WHY_MAX};
use files::Failed;
use paper::STORE;
use records::RECORD_MAX;
use std::io::Read;
use std::rt::Env;

// The bytes of the input buffer: room for two records of the greatest length.
const INPUT: usize = 2 * RECORD_MAX;

// The bytes for the argument: the system lets none be longer, so that no number of digits is too many.
const WORD: usize = 131072;

// Writes the line of what is said.
fn say(rt: &(impl Print + Eprint), said: Option<Said>) -> Result<(), Failed> {
    let mut out = [0u8; WHY_MAX];
    let laid = cause::say(&mut out, said);
    files::write(rt, &out[..laid])
}

// Goes through the input read by read, until something is said of the place or the input ends.
fn search<R: Read>(rt: &(impl Print + Eprint), reader: &mut R, place: u64) -> Result<(), Failed> {
    let mut store = [0u8; STORE];
    let mut buffer = [0u8; INPUT];
    let mut stand = cause::begin(&mut store);
    // A loop shared with the other programs that read so, over a closure, has as many lines at each caller.
    // A proved loop has to end, and nothing says that an input does: a count that no run uses up.
    for _ in 0..u64::MAX {
        let said = stand.course.said;
        if said.is_some() {
            return say(rt, said);
        }
        let end = files::fill(rt, reader, b"standard input", &mut buffer, stand.had)?;
        if end == stand.had {
            return say(rt, said);
        }
        let input = &mut buffer[..end];
        stand = cause::turn(place, stand.course, &mut store, b"PUMP\0", input);
    }
    Ok(())
}

// What is sought, by the program's one argument.
fn asked(rt: &impl Env) -> Result<u64, NoPlace> {
    if files::arguments(rt) != 1 {
        return Err(NoPlace::NoDigits);
    }
    let mut word = [0u8; WORD];
    match files::argument(rt, 1, &mut word) {
        Some(n) => cause::sought_in(&word[..n]),
        None => Err(NoPlace::NoDigits),
    }
}

fn main(rt: HostRuntime) {
    match asked(&rt) {
        Ok(place) => {
            let _ = search(&rt, &mut rt.reader(), place);
        }
        // No input has it.
        Err(NoPlace::Beyond) => {
            let _ = say(&rt, None);
        }
        Err(NoPlace::NoDigits) => files::complain(
            &rt,
            b"why: call it as `why PLACE`, a place from 0 on in digits, with the walker's input on standard input\n",
        ),
    }
}
