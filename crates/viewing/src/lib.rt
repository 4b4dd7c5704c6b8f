// The log viewer's two ways: the names of a listener list as lines of UTF-8, and lines of UTF-8 as a list again.
//
// `show` lays a line for each name of a list, with `refused 19` for a name that has no UTF-8. `gather` lays the list of a text's lines,
// each name with its zero byte; lines that can't stand in a list are left out. Each takes any bytes, and needs a buffer for the longest
// that there can be, `LINES_MAX` or more than `TEXT_MAX` bytes; whatever it doesn't answer with a length leaves the buffer as it was.
// `line_at` gives the verdict on the line at a place of a text and where the next begins, and `say` lays what is said of one that is left
// out. `asked` tells which of the two a word asks for.
#![tactic(auto)]

ghost use Rattle.std.specs.Prelude.{◌≡◌, true, ◌+◌, ◌*◌, ◌^◌, ◌≤◌, ◌<◌, length, IfOk};
ghost use Rattle.lists.specs.Bytes.{laid};
ghost use Rattle.lists.specs.Lines.{lines_in};
ghost use Rattle.lines.specs.Lines.{REFUSED_MAX};
ghost use Rattle.lines.specs.Pen.{Lays};
ghost use Rattle.listeners.specs.Listeners.{names, good_list};
ghost use Rattle.viewing.specs.Ways.{way_by};
ghost use Rattle.viewing.specs.Lists.{LINES_MAX, name_line, name_lines, shown_for, shown_in};
ghost use Rattle.viewing.specs.Texts.{TEXT_MAX, verdict_on, entry_of, entries_of, gathered_for, gathered_in};
ghost use Rattle.viewing.specs.Texts.{SAY_MAX, reason_for, left_out_line, line_at};

use lines::{FIELD_MAX, Pen, REFUSED_MAX};
use paper::{LIST_MAX, Refusal};

// The most bytes of all lines of a list: for each of its bytes at most six.
pub const LINES_MAX: usize = 6 * LIST_MAX;

// The most bytes of a text.
pub const TEXT_MAX: usize = 65536;

// The most bytes of what is said of a line: two words, its number and the reason.
pub const SAY_MAX: usize = 26 + FIELD_MAX + REFUSED_MAX;

// The byte that ends a line.
const LF: u8 = b'\n';

// What is asked for.
#[derive(Clone, Copy)]
pub enum Way {
    // A list as lines of UTF-8.
    ToUtf8,
    // Lines of UTF-8 as a list.
    ToList,
}

// Why a list isn't shown.
#[derive(Clone, Copy)]
pub enum NotShown {
    // It is outside its rule.
    Outside,
    // The buffer is shorter than `LINES_MAX`.
    NoRoom,
}

// Why the list of a text isn't gathered.
#[derive(Clone, Copy)]
pub enum NotGathered {
    // It has more than `TEXT_MAX` bytes.
    TooLong,
    // The buffer has no more than `TEXT_MAX` bytes.
    NoRoom,
}

// Why a line is left out.
#[derive(Clone, Copy)]
pub enum LeftOut {
    Empty,
    HasZero,
    // It isn't well formed, or a code point has no byte: 19.
    Unnamed,
}

// A line of a text.
#[derive(Clone, Copy)]
pub struct Line {
    // Whether it is a name of the list.
    pub verdict: Result<(), LeftOut>,
    // Where the next line begins.
    pub next: usize,
}

// ---- what is asked for

// The way that a word asks for, if it does: `utf8` or `1252`.
pub fn asked(word: &[u8]) -> Option<Way>
    ensures { result ≡ way_by word.now }
{
    if word == b"utf8".as_slice() {
        return Some(Way::ToUtf8);
    }
    if word == b"1252".as_slice() {
        return Some(Way::ToList);
    }
    None
}

// ---- a list as lines

// The line of a name, from a place on. Answers its length. No pen: `codepage` lays into the part of the buffer that is lent.
fn name_line(name: &[u8], out: &mut [u8], at: usize) -> usize
    requires { (0 < length name.now) × (at + 6 * (length name.now + 1) ≤ length out.old) }
    ensures value { (result ≡ length (name_line name.now)) × (result ≤ 6 * (length name.now + 1)) }
    ensures out_after { out.new ≡ laid out.old at (name_line name.now) }
{
    let Ok(n) = codepage::to_utf8(name, &mut out[at..]) else {
        return lines::refused(out, at, paper::refusal_number(Refusal::NoPartner));
    };
    out[at + n] = LF;
    n + 1
}

// The lines of a good list, at the front. Answers how many bytes they have.
fn lay_lines(list: &[u8], out: &mut [u8]) -> usize
    requires { (good_list list.now ≡ true) × (LINES_MAX ≤ length out.old) }
    ensures value { (result ≡ length (name_lines (names list.now))) × (result ≤ LINES_MAX) }
    ensures out_after { out.new ≡ laid out.old 0 (name_lines (names list.now)) }
{
    let mut rest = list;
    let mut used = 0;
    // Names have varying lengths.
    while rest.len() != 0 {
        let end = lists::first_zero(rest);
        used += name_line(&rest[..end], out, used);
        rest = &rest[end + 1..];
    }
    used
}

// Shows a list: a line for each of its names. Answers how many bytes stand at the front of the buffer.
pub fn show(list: &[u8], out: &mut [u8]) -> Result<usize, NotShown>
    ensures value { (result ≡ shown_for list.now out.old) × IfOk result (λ n. n ≤ LINES_MAX) }
    ensures out_after { out.new ≡ shown_in list.now out.old }
{
    if out.len() < LINES_MAX {
        return Err(NotShown::NoRoom);
    }
    if !listeners::good(list) {
        return Err(NotShown::Outside);
    }
    Ok(lay_lines(list, out))
}

// ---- lines as a list

// Whether a line is a name of the list, or why it is left out.
fn judge(line: &[u8]) -> Result<(), LeftOut>
    ensures { result ≡ verdict_on line.now }
{
    if line.len() == 0 {
        return Err(LeftOut::Empty);
    }
    if lists::first_zero(line) < line.len() {
        return Err(LeftOut::HasZero);
    }
    if !codepage::has_name(line) {
        return Err(LeftOut::Unnamed);
    }
    Ok(())
}

// The name of a line that is kept and its zero byte, from a place on. Answers how many bytes there are. No pen: `codepage` lays into the
// part of the buffer that is lent.
fn entry(line: &[u8], out: &mut [u8], at: usize) -> usize
    requires { at + length line.now < length out.old }
    ensures value { (result ≡ length (entry_of line.now)) × (result ≤ length line.now + 1) }
    ensures out_after { out.new ≡ laid out.old at (entry_of line.now) }
{
    if judge(line).is_err() {
        return 0;
    }
    let Ok(n) = codepage::from_utf8(line, &mut out[at..]) else {
        return 0;
    };
    out[at + n] = 0;
    n + 1
}

// The list of a text, at the front. Answers how many bytes it has.
fn lay_list(text: &[u8], out: &mut [u8]) -> usize
    requires { length text.now < length out.old }
    ensures value { (result ≡ length (entries_of (lines_in text.now))) × (result ≤ length text.now + 1) }
    ensures out_after { out.new ≡ laid out.old 0 (entries_of (lines_in text.now)) }
{
    let mut rest = text;
    let mut used = 0;
    // Lines have varying lengths.
    while rest.len() != 0 {
        let (line, behind) = lists::first_line(rest);
        used += entry(line, out, used);
        rest = behind;
    }
    used
}

// Gathers the list of a text: each name and a zero byte. Answers how many bytes stand at the front of the buffer.
pub fn gather(text: &[u8], out: &mut [u8]) -> Result<usize, NotGathered>
    ensures value { (result ≡ gathered_for text.now out.old) × IfOk result (λ n. n ≤ TEXT_MAX + 1) }
    ensures out_after { out.new ≡ gathered_in text.now out.old }
{
    if TEXT_MAX < text.len() {
        return Err(NotGathered::TooLong);
    }
    if out.len() <= TEXT_MAX {
        return Err(NotGathered::NoRoom);
    }
    Ok(lay_list(text, out))
}

// ---- what is left out

// The line that begins at a place of a text.
pub fn line_at(text: &[u8], at: usize) -> Line
    ensures { result ≡ line_at text.now at }
{
    let from = at.min(text.len());
    let (line, _) = lists::first_line(&text[from..]);
    Line {
        verdict: judge(line),
        next: from + line.len() + 1,
    }
}

// Why a line is left out.
fn reason(pen: &mut Pen, why: LeftOut)
    requires { pen.old.at + REFUSED_MAX < 2 ^ 64 }
    ensures { Lays pen.old pen.new (reason_for why) REFUSED_MAX }
{
    match why {
        LeftOut::Empty => pen.text(b"it is empty\n"),
        LeftOut::HasZero => pen.text(b"it has a zero byte\n"),
        LeftOut::Unnamed => pen.refused(paper::refusal_number(Refusal::NoPartner)),
    }
}

// What is said of a line that is left out, at the front: its number, counted from 1, and why. Of one that is kept nothing is said.
pub fn say(out: &mut [u8], number: u64, verdict: Result<(), LeftOut>) -> usize
    ensures value { (result ≡ length (left_out_line number verdict)) × (result ≤ SAY_MAX) }
    ensures out_after { out.new ≡ laid out.old 0 (left_out_line number verdict) }
{
    let Err(why) = verdict else {
        return 0;
    };
    let mut pen = Pen { out, at: 0 };
    pen.text(b"viewer: line ");
    pen.field(number, b' ');
    pen.text(b"is left out: ");
    reason(&mut pen, why);
    pen.at
}
