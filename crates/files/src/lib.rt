// Arguments, files, reads and writes, and what a program says where one fails.
//
// `fill` reads once behind what a buffer has, `load` reads until the input ends or the buffer is full, `write` writes
// all of its bytes to standard output. A read that ends the input and a read that fails are told apart. What fails is
// said on standard error, in a line with its name and why.
#![tactic(auto)]

ghost use Rattle.std.specs.Prelude.{◌≡◌, ◌≤◌, min, length, take, IfSome, IfOk};
ghost use Rattle.files.specs.Files.{Fills, Brings, Loads};

use std::env::FillError;
use std::fmt::Display;
use std::fs::File;
use std::io::{Cursor, Read, Write};
use std::rt::{Env, Files};
use std::{fmt, io, str};

// The bytes of a buffer for an argument: the system opens no file whose name is as long.
pub const ARGUMENT: usize = 4096;

// The system's numbers for an argument that is missing, and for a name that is too long.
const EINVAL: i32 = 22;

const ENAMETOOLONG: i32 = 36;

// The bytes of a buffer for why something failed, in the system's words.
const WHY_MAX: usize = 320;

// Something failed, and a line on standard error says what and why.
#[derive(Clone, Copy, Debug, PartialEq, Eq)]
pub struct Failed;

// Reads once, behind the bytes that the buffer has, and answers how many it has then. Where nothing comes the input has
// ended.
pub fn fill<R: Read>(
    rt: &impl Eprint,
    reader: &mut R,
    name: &[u8],
    buffer: &mut [u8],
    had: usize,
) -> Result<usize, Failed>
    ensures fills { Fills (min had (length buffer.old)) (length buffer.old) result }
    ensures brings { Brings (R.remaining reader.old) (R.remaining reader.new)
        (min had (length buffer.old)) buffer.new result }
    ensures buffer_unchanged { take had buffer.new ≡ take had buffer.old }
{
    let from = had.min(buffer.len());
    match reader.read(&mut buffer[from..]) {
        Ok(got) => Ok(from + got),
        Err(why) => Err(fail(rt, name, why)),
    }
}

// Reads until the input ends or the buffer is full, and answers how many bytes the buffer has then.
pub fn load<R: Read>(
    rt: &impl Eprint,
    reader: &mut R,
    name: &[u8],
    buffer: &mut [u8],
) -> Result<usize, Failed>
    ensures fills { Fills 0 (length buffer.old) result }
    ensures loads { Loads (R.remaining reader.old) (R.remaining reader.new) buffer.new result }
{
    let mut had = 0;
    // A read brings as many bytes as it likes, so this is no loop over a range.
    while had < buffer.len() {
        let n = fill(rt, reader, name, buffer, had)?;
        if n == had {
            break;
        }
        had = n;
    }
    Ok(had)
}

// Writes all the bytes to standard output, or says on standard error why it can't.
pub fn write(rt: &(impl Print + Eprint), bytes: &[u8]) -> Result<(), Failed>
    ensures { bytes.now ≡ bytes.now }
{
    rt.write_all(bytes)
        .map_err(|why| fail(rt, b"standard output", why))
}

// Opens the file for reading, or says on standard error why it can't. A name is text.
pub fn open<R: Files + Eprint>(rt: &R, name: &[u8]) -> Result<R::File, Failed>
    ensures { name.now ≡ name.now }
{
    let Ok(text) = str::from_utf8(name) else {
        return Err(fail(rt, name, io::Error::from(io::ErrorKind::InvalidFilename)));
    };
    File::open(rt, text).map_err(|why| fail(rt, name, why))
}

// How many arguments there are behind the program's own name. What the system has no contract can say.
pub fn arguments(rt: &impl Env) -> usize {
    (1..usize::MAX)
        .position(|i| matches!(rt.arg(i, &mut []), Err(FillError::NotPresent)))
        .unwrap_or(usize::MAX)
}

// Puts an argument at the front of the buffer. Answers its length, or nothing where it is missing or longer.
pub fn argument(rt: &impl Env, i: usize, buffer: &mut [u8]) -> Option<usize>
    ensures { IfSome result (λ n. n ≤ length buffer.new) }
{
    rt.arg(i, buffer).ok()
}

// Puts an argument that names a file at the front of the buffer. Answers its length, or says on standard error why it
// isn't there, behind what it is called.
pub fn file_name(
    rt: &(impl Env + Eprint),
    i: usize,
    what: &[u8],
    buffer: &mut [u8],
) -> Result<usize, Failed>
    ensures length { IfOk result (λ n. n ≤ length buffer.new) }
    ensures what_unchanged { what.now ≡ what.now }
{
    rt.arg(i, buffer).map_err(|why| {
        let number = match why {
            FillError::NotPresent => EINVAL,
            FillError::TooLong => ENAMETOOLONG,
        };
        fail(rt, what, io::Error::from_raw_os_error(number))
    })
}

// Writes bytes to standard error, as text.
pub fn complain(rt: &impl Eprint, bytes: &[u8])
    ensures { bytes.now ≡ bytes.now }
{
    let _ = rt.eprint(Text { bytes });
}

// Writes a line to standard error: what failed, a colon and why, in the system's words. Answers that it did.
pub fn fail(rt: &impl Eprint, what: &[u8], why: io::Error) -> Failed
    ensures { what.now ≡ what.now }
{
    let mut room = Cursor::new([0u8; WHY_MAX]);
    let _ = write!(room, "{why}");
    let n = WHY_MAX.min(room.position() as usize);
    let words = room.into_inner();
    let end = reason(&words[..n]);
    let _ = eprintln!(rt;
        "{}: {}",
        Text { bytes: what },
        Text {
            bytes: &words[..end]
        }
    );
    Failed
}

// What stands between a failure's words and its number.
const OS_ERROR: &[u8] = b" (os error ";

// Where a failure's words end: what follows is the system's number of it.
fn reason(words: &[u8]) -> usize
    ensures { result ≤ length words.now }
{
    words
        .windows(OS_ERROR.len())
        .position(|at| at == OS_ERROR)
        .unwrap_or(words.len())
}

// Bytes as text. What isn't text in them shows as U+FFFD.
#[derive(Clone, Copy)]
struct Text<'a> {
    bytes: &'a [u8],
}

impl Display for Text<'_> {
    fn fmt<W: fmt::Write>(&self, f: &mut fmt::Formatter<W>) -> fmt::Result {
        for chunk in self.bytes.utf8_chunks() {
            f.write_str(chunk.valid())?;
            if !chunk.invalid().is_empty() {
                f.write_str("\u{FFFD}")?;
            }
        }
        Ok(())
    }
}
