// A walk over what a reader gives.
//
// `program` is the whole of a program that walks over standard input, `walk_file` walks over a file, and `run` over any
// reader. They only read, call and write: what is written, when a read is due and when the run ends is `walking`'s to say, and no
// contract can say what is read. A read or a write that fails is said on standard error, and ends the run.
#![tactic(auto)]

ghost use Rattle.std.specs.Prelude.{◌≤◌, ◌≡◌, length, take};
ghost use Rattle.files.specs.Files.{Fills};
ghost use Rattle.records.specs.Desk.{RECORD_MAX};
ghost use Rattle.walking.specs.Walking.{room_for};

use files::Failed;
use paper::STORE;
use records::{Due, RECORD_MAX};
use std::io::Read;
use std::rt::{Env, Files};
use walking::{Job, Told};

// The bytes of the store: room for both ends'.
const BOTH: usize = 2 * STORE;

// The bytes of the input buffer: room for two records of the greatest length.
const INPUT: usize = 2 * RECORD_MAX;

// The bytes of the output buffer: room for every text, and for many short ones.
const OUTPUT: usize = 65536;

// What the buffer has for the next turn: where the walk waits for a read, what that brings behind what was left.
fn supply<R: Read>(
    rt: &impl Eprint,
    due: Due,
    reader: &mut R,
    name: &[u8],
    buffer: &mut [u8],
    had: usize,
) -> Result<usize, Failed>
    requires { had ≤ length buffer.old }
    ensures fills { Fills had (length buffer.old) result }
    ensures buffer_unchanged { take had buffer.new ≡ take had buffer.old }
{
    match due {
        Due::Read => files::fill(rt, reader, name, buffer, had),
        Due::Room | Due::Nothing => Ok(had),
    }
}

// Turn by turn: writes the text of each, and supplies the next. The output has room for any text of the job, and the
// buffer for any record, so that no turn is in vain.
fn turn_by_turn<R: Read>(
    rt: &(impl Print + Eprint),
    job: Job,
    reader: &mut R,
    name: &[u8],
    list: &[u8],
    store: &mut [u8],
    buffer: &mut [u8],
    out: &mut [u8],
) -> Result<(), Failed>
    requires { (room_for job ≤ length out.old) × (RECORD_MAX ≤ length buffer.old) }
    ensures { (name.now ≡ name.now) × (list.now ≡ list.now) }
{
    let mut turned = walking::begin(job, store, out);
    // A proved loop has to end, and nothing says that an input does: a count that no run uses up.
    for _ in 0..u64::MAX {
        files::write(rt, &out[..turned.laid])?;
        let stand = turned.stand;
        if let Due::Nothing = stand.due {
            return Ok(());
        }
        let end = supply(rt, stand.due, reader, name, buffer, stand.had)?;
        turned = walking::turn(job, stand, store, list, &mut buffer[..end], out);
    }
    Err(Failed)
}

// Does a job over what the reader gives, until the run comes to its end. Its name is said where it can't be read.
pub fn run<R: Read>(
    rt: &(impl Print + Eprint),
    job: Job,
    reader: &mut R,
    name: &[u8],
    list: &[u8],
) -> Result<(), Failed>
    ensures { (name.now ≡ name.now) × (list.now ≡ list.now) }
{
    let mut store = [0u8; BOTH];
    let mut buffer = [0u8; INPUT];
    let mut out = [0u8; OUTPUT];
    let n = walking::store_for(job);
    turn_by_turn(
        rt,
        job,
        reader,
        name,
        list,
        &mut store[..n],
        &mut buffer,
        &mut out,
    )
}

// Walks over the file as the walker does, with the list, behind a line with the file's name.
pub fn walk_file(rt: &(impl Files + Print + Eprint), name: &[u8], list: &[u8]) -> Result<(), Failed>
    ensures { (name.now ≡ name.now) × (list.now ≡ list.now) }
{
    let mut file = files::open(rt, name)?;
    files::write(rt, name)?;
    files::write(rt, b"\n")?;
    run(rt, Job::Client(Told::Lines), &mut file, name, list)
}

// A program that does a job over standard input. It takes no arguments: any is bad use, which is said in the line
// given.
pub fn program(rt: &(impl Env + Input + Print + Eprint), job: Job, list: &[u8], bad_use: &[u8])
    ensures { (list.now ≡ list.now) × (bad_use.now ≡ bad_use.now) }
{
    if 0 < files::arguments(rt) {
        files::complain(rt, bad_use);
        return;
    }
    let _ = run(rt, job, &mut rt.reader(), b"standard input", list);
}
