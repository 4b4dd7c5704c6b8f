// Shares by class: the radio planner's report.
//
// It is called as `shares FILE`. The file has sets of four charges, each of two bytes, little-endian. A line has a set's four shares, in
// ten-thousandths rounded down; the last line has `sums` and each class's sum, or, where the file's length is not a multiple of eight or
// it has more than 65,536 sets, `refused 17` in place of them. A file that can't be opened or read is said on standard error, and no more
// is printed. What is printed is the work of `planning`.
#![tactic(auto)]

ghost use Rattle.std.specs.Prelude.{◌≡◌};

use files::{ARGUMENT, Failed};
use paper::SETS_MAX;
use planning::{Course, FOUR_MAX, LAST_MAX, SET};
use std::io::Read;
use std::rt::Files;

// The sets that the input buffer has room for, and the bytes of the two buffers: a line for each set.
const SETS: usize = 4096;

const INPUT: usize = SETS * SET;

const OUTPUT: usize = SETS * FOUR_MAX;

// Each read brings a byte, and behind one set too many nothing more is read: no report takes so many reads.
const READS: usize = (SETS_MAX as usize + 2) * SET;

// Writes the line that the report ends with.
fn finish(rt: &(impl Print + Eprint), course: Course, had: usize) -> Result<(), Failed> {
    let mut out = [0u8; LAST_MAX];
    let laid = planning::say(&mut out, planning::ending(course, had));
    files::write(rt, &out[..laid])
}

// Reports read by read, until the file ends or has too many sets.
fn report<R: Read>(rt: &(impl Print + Eprint), reader: &mut R, name: &[u8]) -> Result<(), Failed>
    ensures { name.now ≡ name.now }
{
    let mut buffer = [0u8; INPUT];
    let mut out = [0u8; OUTPUT];
    let mut stand = planning::begin();
    // A loop shared with the other programs that read so, over a closure, has as many lines at each caller.
    for _ in 0..READS {
        let end = files::fill(rt, reader, name, &mut buffer, stand.had)?;
        if end == stand.had {
            break;
        }
        stand = planning::turn(stand.course, &mut buffer[..end], &mut out);
        files::write(rt, &out[..stand.laid])?;
        if planning::is_over(stand.course) {
            break;
        }
    }
    finish(rt, stand.course, stand.had)
}

// Opens the file, and reports.
fn run(rt: &(impl Files + Print + Eprint), name: &[u8]) -> Result<(), Failed>
    ensures { name.now ≡ name.now }
{
    let mut file = files::open(rt, name)?;
    report(rt, &mut file, name)
}

fn main(rt: HostRuntime) {
    if files::arguments(&rt) != 1 {
        files::complain(
            &rt,
            b"shares: call it as `shares FILE`, a file of eight-byte sets of four charges\n",
        );
        return;
    }
    let mut name = [0u8; ARGUMENT];
    if let Ok(n) = files::file_name(&rt, 1, b"shares: the file's name", &mut name) {
        let _ = run(&rt, &name[..n]);
    }
}
