// Names: our table of Windows-1252 beside the published one.
//
// It is called as `names FILE`. The file has 256 lines, from byte 00 to FF: a byte, a space, and its code point or `undefined`, in hexadecimal.
// It prints `256 agree`, or a line `BYTE ours OURS published THEIRS` for each that doesn't, `-` for none. A file of other lines, and one that
// can't be opened or read, is said on standard error, and nothing is printed. What is printed and said is the work of `published`.
#![tactic(auto)]

ghost use Rattle.std.specs.Prelude.{◌≡◌};

use files::{ARGUMENT, Failed};
use published::{COMPARED_MAX, FILE_MAX, NotCompared};
use std::rt::Files;

// One byte more than a file can have that is as it should be: what has it isn't.
const INPUT: usize = FILE_MAX + 1;

// Compares, and prints or says what comes of it. The file is as it was.
fn tell(rt: &(impl Print + Eprint), file: &[u8]) -> Result<(), Failed>
    ensures { file.now ≡ file.now }
{
    let mut out = [0u8; COMPARED_MAX];
    match published::compare(file, &mut out) {
        Ok(n) => files::write(rt, &out[..n]),
        Err(NotCompared::Wrong(line)) => {
            let n = published::say(&mut out, line);
            files::complain(rt, &out[..n]);
            Err(Failed)
        }
        Err(NotCompared::NoRoom) => Ok(()),
    }
}

// Opens the file, reads it, and compares. Its name is as it was.
fn run(rt: &(impl Files + Print + Eprint), name: &[u8]) -> Result<(), Failed>
    ensures { name.now ≡ name.now }
{
    let mut file = files::open(rt, name)?;
    let mut text = [0u8; INPUT];
    let n = files::load(rt, &mut file, name, &mut text)?;
    tell(rt, &text[..n])
}

fn main(rt: HostRuntime) {
    if files::arguments(&rt) != 1 {
        files::complain(
            &rt,
            b"names: call it as `names FILE`, a file of 256 lines `BYTE POINT` or `BYTE undefined`\n",
        );
        return;
    }
    let mut name = [0u8; ARGUMENT];
    if let Ok(n) = files::file_name(&rt, 1, b"names: the file's name", &mut name) {
        let _ = run(&rt, &name[..n]);
    }
}
