// The table of Windows-1252 beside the published one, which a file holds.
//
// `compare` takes a file of 256 lines, from byte 00 to FF: a byte in two hexadecimal digits, a space, and its code point in four, or
// `undefined`. It lays `256 agree`, or a line for each byte whose entry is another, and answers how many bytes that is; for any other file it
// answers the first line that isn't as it should be, and leaves the buffer. `say` lays what is said then. `compare` takes any bytes, and needs
// a buffer of `COMPARED_MAX`.
#![tactic(auto)]

ghost use Rattle.std.specs.Prelude.{◌≡◌, None, ◌+◌, ◌*◌, ◌^◌, ◌≤◌, ◌<◌, length, IfSome, IfOk};
ghost use Rattle.lists.specs.Bytes.{laid};
ghost use Rattle.lists.specs.Lines.{lines_in};
ghost use Rattle.lines.specs.Pen.{Lays};
ghost use Rattle.codepage.specs.Points.{BYTES};
ghost use Rattle.published.specs.Claims.{digit_in, pair_in, claim_behind, claim_in, agrees};
ghost use Rattle.published.specs.Comparing.{wrong_from, point_text, our_text, their_text, DIFFERENCE_MAX, difference_of, differences_from};
ghost use Rattle.published.specs.Comparing.{COMPARED_MAX, compared_for, compared_in, WRONG_MAX, wrong_line};

use codepage::NONE;
use lines::{FIELD_MAX, Pen};

// The bytes that have an entry.
const BYTES: usize = 256;

// The most bytes of a file: a byte, a space, `undefined` and a line's end for each.
pub const FILE_MAX: usize = BYTES * 13;

// The most bytes of a line that tells a difference, and of all.
const DIFFERENCE_MAX: usize = 28;

pub const COMPARED_MAX: usize = BYTES * DIFFERENCE_MAX;

// The most bytes of what is said of a file that isn't such.
pub const WRONG_MAX: usize = 12 + FIELD_MAX + 108;

// Why a file isn't compared.
#[derive(Clone, Copy)]
pub enum NotCompared {
    // The first line that isn't as it should be, counted from 1.
    Wrong(usize),
    // The buffer is shorter than `COMPARED_MAX`.
    NoRoom,
}

// ---- a line

// A hexadecimal digit's value, of either case.
fn digit(c: u8) -> Option<u32>
    ensures value { result ≡ digit_in c }
    ensures small { IfSome result (λ d. d < 16) }
{
    char::from(c).to_digit(16)
}

// The value of two digits.
fn pair(high: u8, low: u8) -> Option<u8>
    ensures { result ≡ pair_in high low }
{
    let sixteens = digit(high)?;
    let ones = digit(low)?;
    Some((sixteens * 16 + ones) as u8)
}

// What stands behind a byte and a space: a code point in four digits, or `undefined` for none.
fn claimed(rest: &[u8]) -> Option<Option<u16>>
    ensures { result ≡ claim_behind rest.now }
{
    if rest == b"undefined".as_slice() {
        return Some(None);
    }
    let [a, b, c, d] = *rest else {
        return None;
    };
    let high = pair(a, b)?;
    let low = pair(c, d)?;
    Some(Some(u16::from_be_bytes([high, low])))
}

// What a line says that a byte has, a code point or none, if it is a line of that byte.
fn claim_in(line: &[u8], byte: u8) -> Option<Option<u16>>
    ensures { result ≡ claim_in byte line.now }
{
    let [high, low, space, ref rest @ ..] = *line else {
        return None;
    };
    if pair(high, low) != Some(byte) || space != b' ' {
        return None;
    }
    claimed(rest)
}

// Whether our table has what a line says.
#[tactic(auto, using(crate::proofs::Numbers::same_claim))]
fn agree(claim: Option<Option<u16>>, byte: u8) -> bool
    ensures { result ≡ agrees claim byte }
{
    claim == Some(codepage::point_for(byte))
}

// ---- the file

// The first line that isn't as it should be, counted from 1.
fn wrong_line(file: &[u8]) -> Option<usize>
    ensures { result ≡ wrong_from 0 (lines_in file.now) }
{
    let mut rest = file;
    for k in 0..BYTES {
        if rest.len() == 0 {
            return Some(k + 1);
        }
        let (line, behind) = lists::first_line(rest);
        if claim_in(line, k as u8).is_none() {
            return Some(k + 1);
        }
        rest = behind;
    }
    if rest.len() == 0 {
        None
    } else {
        Some(BYTES + 1)
    }
}

// ---- the lines of those that differ

// A code point's four digits.
fn point_text(pen: &mut Pen, point: u16)
    requires { pen.old.at + 4 < 2 ^ 64 }
    ensures { Lays pen.old pen.new (point_text point) 4 }
{
    pen.text(&lines::hex_byte((point / 256) as u8));
    pen.text(&lines::hex_byte((point % 256) as u8));
}

// Our entry: `-` for none.
fn ours(pen: &mut Pen, point: u16)
    requires { pen.old.at + 4 < 2 ^ 64 }
    ensures { Lays pen.old pen.new (our_text point) 4 }
{
    if point == NONE {
        pen.text(b"-");
        return;
    }
    point_text(pen, point);
}

// The published one: `-` for none.
fn theirs(pen: &mut Pen, claim: Option<Option<u16>>)
    requires { pen.old.at + 4 < 2 ^ 64 }
    ensures { Lays pen.old pen.new (their_text claim) 4 }
{
    match claim {
        Some(Some(point)) => point_text(pen, point),
        Some(None) => pen.text(b"-"),
        None => {}
    }
}

// The line of a byte whose entries differ, at the front. Answers its length: 0 where they agree.
fn difference(out: &mut [u8], byte: u8, claim: Option<Option<u16>>) -> usize
    ensures value { (result ≡ length (difference_of byte claim)) × (result ≤ DIFFERENCE_MAX) }
    ensures out_after { out.new ≡ laid out.old 0 (difference_of byte claim) }
{
    if agree(claim, byte) {
        return 0;
    }
    let mut pen = Pen { out, at: 0 };
    pen.text(&lines::hex_byte(byte));
    pen.text(b" ours ");
    ours(&mut pen, codepage::point_of(byte));
    pen.text(b" published ");
    theirs(&mut pen, claim);
    pen.text(b"\n");
    pen.at
}

// The lines of all that differ, in a file that is as it should be. Answers how many bytes they have.
fn lay_differences(file: &[u8], out: &mut [u8]) -> usize
    requires { (wrong_from 0 (lines_in file.now) ≡ None) × (COMPARED_MAX ≤ length out.old) }
    ensures value { (result ≡ length (differences_from 0 (lines_in file.now))) × (result ≤ COMPARED_MAX) }
    ensures out_after { out.new ≡ laid out.old 0 (differences_from 0 (lines_in file.now)) }
{
    let mut rest = file;
    let mut used = 0;
    for k in 0..BYTES {
        let (line, behind) = lists::first_line(rest);
        let byte = k as u8;
        used += difference(&mut out[used..], byte, claim_in(line, byte));
        rest = behind;
    }
    used
}

// Compares our table with the published one. Answers how many bytes stand at the front of the buffer.
pub fn compare(file: &[u8], out: &mut [u8]) -> Result<usize, NotCompared>
    ensures value { (result ≡ compared_for file.now out.old) × IfOk result (λ n. n ≤ COMPARED_MAX) }
    ensures out_after { out.new ≡ compared_in file.now out.old }
{
    if out.len() < COMPARED_MAX {
        return Err(NotCompared::NoRoom);
    }
    if let Some(line) = wrong_line(file) {
        return Err(NotCompared::Wrong(line));
    }
    let used = lay_differences(file, out);
    if used != 0 {
        return Ok(used);
    }
    Ok(lines::text(out, 0, b"256 agree\n"))
}

// What is said of a file by its first line that isn't as it should be, at the front. Answers its length.
pub fn say(out: &mut [u8], line: usize) -> usize
    ensures value { (result ≡ length (wrong_line line)) × (result ≤ WRONG_MAX) }
    ensures out_after { out.new ≡ laid out.old 0 (wrong_line line) }
{
    let mut pen = Pen { out, at: 0 };
    pen.text(b"names: line ");
    pen.field(line as u64, b' ');
    pen.text(
        b"isn't as it should be: 256 lines are wanted, `BYTE POINT` or `BYTE undefined` in hexadecimal, from 00 to FF\n",
    );
    pen.at
}
