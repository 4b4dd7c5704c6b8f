// Listener names for the log viewer: Windows-1252, in which a panel has them, to UTF-8 and back.
//
// `to_utf8` converts a name and `from_utf8` a text. Each takes any bytes, and writes its result to the front of the buffer that it is
// lent; the bytes behind stay. It refuses with 19 where a byte or a code point has no partner or the text isn't well-formed UTF-8, and
// then with 20 where the result doesn't fit; both leave every byte of the buffer. All of the input is judged before the room is.
//
// Both go by one table, Windows-1252 as Unicode publishes it: `point_of` gives a byte's entry, and `point_for` its code point, if it has
// one. `has_name` says whether a text can be converted at all. `dvc_name_to_utf8` and `dvc_name_from_utf8` are the two conversions for hosts in C.
#![tactic(auto)]

mod windows_1252;

ghost use Rattle.std.specs.Prelude.{◌≡◌, [], ◌∷◌, ◌+◌, ◌≤◌, ◌<◌, length, is_some, IsSome, false, ◌==◌};
ghost use Rattle.std.specs.List.{list_all, position};
ghost use Rattle.lists.specs.Bytes.{laid};
ghost use Rattle.codepage.specs.Points.{NONE, point_of, point_for, byte_for};
ghost use Rattle.codepage.specs.Utf8.{TAIL, is_in, point_in, sequence_of};
ghost use Rattle.codepage.specs.Names.{utf8_of, name_of, result_of, front_of};
ghost use Rattle.codepage.specs.Names.{is_over, answer_for, buffer_for, room_after, size_of, Countable, number_for};

use paper::Refusal;
use windows_1252::POINTS;

// Stands in the table for the code point of the five bytes that have none.
pub const NONE: u16 = 0xFFFF;

// What stands at the front of a text: a sequence of so many bytes, whose code point has this byte.
#[derive(Clone, Copy)]
struct Front {
    byte: u8,
    width: usize,
}

// The entry of a byte: its code point, or `NONE`. The table is one of numbers, so an entry is one.
pub fn point_of(byte: u8) -> u16
    ensures { result ≡ point_of byte }
{
    POINTS[byte as usize]
}

// The code point of a byte, unless it is one of the five.
pub fn point_for(byte: u8) -> Option<u16>
    ensures { result ≡ point_for byte }
{
    let point = point_of(byte);
    if point == NONE { None } else { Some(point) }
}

// ---- to UTF-8

// Whether each byte of a name has a code point.
fn has_points(name: &[u8]) -> bool
    ensures { result ≡ list_all (λ b. is_some (point_for b)) name.now }
{
    name.iter().all(|b| point_for(*b).is_some())
}

// How many bytes the sequence of a code point has.
fn width(point: u16) -> usize
    ensures { result ≡ length (sequence_of point) }
{
    if point < 0x80 {
        return 1;
    }
    if point < 0x800 {
        return 2;
    }
    3
}

// How much of a room a name in UTF-8 leaves, if it fits.
fn room_after(name: &[u8], room: usize) -> Option<usize>
    requires { IsSome (utf8_of name.now) }
    ensures { result ≡ room_after (utf8_of name.now) room }
{
    let mut left = room;
    for b in name {
        left = left.checked_sub(width(point_of(*b)))?;
    }
    Some(left)
}

// The sequence of a code point, from a place on. Answers its length.
fn lay(out: &mut [u8], at: usize, point: u16) -> usize
    requires { at + length (sequence_of point) ≤ length out.old }
    ensures value { result ≡ length (sequence_of point) }
    ensures out_after { out.new ≡ laid out.old at (sequence_of point) }
{
    if point < 0x80 {
        out[at] = point as u8;
        return 1;
    }
    if point < 0x800 {
        out[at] = 0xC0 + (point / 64) as u8;
        out[at + 1] = 0x80 + (point % 64) as u8;
        return 2;
    }
    out[at] = 0xE0 + (point / 4096) as u8;
    out[at + 1] = 0x80 + (point / 64 % 64) as u8;
    out[at + 2] = 0x80 + (point % 64) as u8;
    3
}

// Writes a name in UTF-8 to the front of a buffer that has room for it.
fn write_utf8(name: &[u8], out: &mut [u8])
    requires name_value { IsSome (utf8_of name.now) }
    requires out_value { is_over (result_of (utf8_of name.now)) out.old ≡ false }
    ensures { out.new ≡ laid out.old 0 (result_of (utf8_of name.now)) }
{
    let mut at = 0;
    for b in name {
        at += lay(out, at, point_of(*b));
    }
}

// A name in UTF-8. Answers how many bytes of it stand at the front of the buffer.
pub fn to_utf8(name: &[u8], out: &mut [u8]) -> Result<usize, Refusal>
    ensures value { result ≡ answer_for (utf8_of name.now) out.old }
    ensures out_after { out.new ≡ buffer_for (utf8_of name.now) out.old }
{
    if !has_points(name) {
        return Err(Refusal::NoPartner);
    }
    let left = room_after(name, out.len()).ok_or(Refusal::NoRoom)?;
    write_utf8(name, out);
    Ok(out.len() - left)
}

// ---- from UTF-8

// Where a code point stands in a table.
fn place(table: &[u16], point: u16) -> Option<usize>
    ensures { result ≡ position (λ entry. entry == point) table.now }
{
    table.iter().position(|entry| *entry == point)
}

// The entries from 80 to 9F (hexadecimal): the ones that are not their own place.
const FIRST: usize = 0x80;

const BEHIND: usize = 0xA0;

// Looks for a code point among these.
fn among(point: u16) -> Option<u8>
    requires { (0x100 ≤ point) × (point < NONE) }
    ensures { result ≡ byte_for point }
{
    let i = place(&POINTS[FIRST..BEHIND], point)?;
    Some((FIRST + i) as u8)
}

// The byte of a code point, if it has one.
fn byte_for(point: u16) -> Option<u8>
    ensures { result ≡ byte_for point }
{
    match point {
        0..0x80 | 0xA0..0x100 => Some(point as u8),
        0x80..0xA0 | NONE => None,
        _ => among(point),
    }
}

// Whether a byte may stand behind the first of a sequence.
fn is_tail(byte: u8) -> bool
    ensures { result ≡ is_in TAIL byte }
{
    matches!(byte, 0x80..=0xBF)
}

// The code point of two bytes.
fn two(first: u8, second: u8) -> u16
    ensures { result ≡ point_in (first ∷ second ∷ []) }
{
    (first % 32) as u16 * 64 + (second % 64) as u16
}

// The code point of three.
fn three(first: u8, second: u8, third: u8) -> u16
    ensures { result ≡ point_in (first ∷ second ∷ third ∷ []) }
{
    ((first % 16) as u16 * 64 + (second % 64) as u16) * 64 + (third % 64) as u16
}

// What stands at the front of a text with a first byte of two.
fn of_two(first: u8, rest: &[u8]) -> Option<Front>
    requires { (0xC2 ≤ first) × (first < 0xE0) }
    ensures { result ≡ front_of (first ∷ rest.now) }
{
    let [second, ..] = *rest else {
        return None;
    };
    if !is_tail(second) {
        return None;
    }
    let byte = byte_for(two(first, second))?;
    Some(Front { byte, width: 2 })
}

// What stands at the front of a text with a first byte of three. Below 800 (hexadecimal) two bytes would do; a surrogate has no byte.
fn of_three(first: u8, rest: &[u8]) -> Option<Front>
    requires { (0xE0 ≤ first) × (first < 0xF0) }
    ensures { result ≡ front_of (first ∷ rest.now) }
{
    let [second, third, ..] = *rest else {
        return None;
    };
    if !is_tail(second) || !is_tail(third) {
        return None;
    }
    let held = three(first, second, third);
    if held < 0x800 {
        return None;
    }
    let byte = byte_for(held)?;
    Some(Front { byte, width: 3 })
}

// What stands at the front of a text, by its first byte. No code point of four bytes has a byte.
fn front_of(text: &[u8]) -> Option<Front>
    ensures { result ≡ front_of text.now }
{
    let [first, ref rest @ ..] = *text else {
        return None;
    };
    match first {
        0..0x80 => Some(Front {
            byte: first,
            width: 1,
        }),
        0xC2..0xE0 => of_two(first, rest),
        0xE0..0xF0 => of_three(first, rest),
        _ => None,
    }
}

// How long the name of a text is, if it has one.
fn name_len(text: &[u8]) -> Option<usize>
    ensures { result ≡ size_of (name_of text.now) }
{
    let mut rest = text;
    let mut n = 0;
    while rest.len() != 0 {
        rest = &rest[front_of(rest)?.width..];
        n += 1;
    }
    Some(n)
}

// Whether a text has a name: it is well formed, and each of its code points has a byte.
pub fn has_name(text: &[u8]) -> bool
    ensures { result ≡ is_some (name_of text.now) }
{
    name_len(text).is_some()
}

// Writes the name of a text to the front of a buffer that has room for it.
fn write_name(text: &[u8], out: &mut [u8])
    requires text_value { IsSome (name_of text.now) }
    requires out_value { is_over (result_of (name_of text.now)) out.old ≡ false }
    ensures { out.new ≡ laid out.old 0 (result_of (name_of text.now)) }
{
    let mut rest = text;
    let mut n = 0;
    while let Some(front) = front_of(rest) {
        out[n] = front.byte;
        rest = &rest[front.width..];
        n += 1;
    }
}

// The name of a text. Answers how many bytes of it stand at the front of the buffer.
pub fn from_utf8(text: &[u8], out: &mut [u8]) -> Result<usize, Refusal>
    ensures value { result ≡ answer_for (name_of text.now) out.old }
    ensures out_after { out.new ≡ buffer_for (name_of text.now) out.old }
{
    let n = name_len(text).ok_or(Refusal::NoPartner)?;
    if out.len() < n {
        return Err(Refusal::NoRoom);
    }
    write_name(text, out);
    Ok(n)
}

// ---- for hosts in C

// An answer in one number: the length, or the refusal's number below zero.
fn number_for(answer: Result<usize, Refusal>) -> i64
    requires { Countable answer }
    ensures { result ≡ number_for answer }
{
    match answer {
        Ok(n) => n as i64,
        Err(why) => -(paper::refusal_number(why) as i64),
    }
}

// A name in UTF-8.
#[unsafe(no_mangle)]
pub extern "C" fn dvc_name_to_utf8(name: &[u8], out: &mut [u8]) -> i64
    ensures value { result ≡ number_for (answer_for (utf8_of name.now) out.old) }
    ensures out_after { out.new ≡ buffer_for (utf8_of name.now) out.old }
{
    number_for(to_utf8(name, out))
}

// The name of a text.
#[unsafe(no_mangle)]
pub extern "C" fn dvc_name_from_utf8(text: &[u8], out: &mut [u8]) -> i64
    ensures value { result ≡ number_for (answer_for (name_of text.now) out.old) }
    ensures out_after { out.new ≡ buffer_for (name_of text.now) out.old }
{
    number_for(from_utf8(text, out))
}
