// The log viewer's names, between a listener list and lines of UTF-8.
//
// `viewer utf8` reads a listener list from standard input and prints each name as a line of UTF-8, `refused 19` for a name with a byte that has
// no code point. A list outside its rule is said on standard error, and nothing is printed.
//
// `viewer 1252` reads lines of UTF-8 and writes the list of them, each name and a zero byte. A line that is empty, has a zero byte or can't be
// converted is left out, and said on standard error; more than 65,536 bytes are said there too, and nothing is written.
//
// What is printed and said of names and lines is the work of `viewing`.
#![tactic(auto)]

ghost use Rattle.std.specs.Prelude.{◌≡◌, is_some};

use files::ARGUMENT;
use std::io::Read;
use viewing::{LINES_MAX, NotGathered, NotShown, SAY_MAX, TEXT_MAX, Way};

// One byte more than a text can have: what has it is too long, and as a list it is outside its rule.
const INPUT: usize = TEXT_MAX + 1;

// Prints the names of a list. The list is as it was.
fn show(rt: &(impl Print + Eprint), list: &[u8])
    ensures { list.now ≡ list.now }
{
    let mut out = [0u8; LINES_MAX];
    match viewing::show(list, &mut out) {
        Ok(n) => {
            let _ = files::write(rt, &out[..n]);
        }
        Err(NotShown::Outside) => {
            files::complain(
                rt,
                b"viewer: no listener list: it has at most 512 bytes, of names that are not empty, each with a zero byte behind it\n",
            );
        }
        Err(NotShown::NoRoom) => {}
    }
}

// Says on standard error which lines are left out. The text is as it was.
fn complain(rt: &impl Eprint, text: &[u8])
    ensures { text.now ≡ text.now }
{
    let mut out = [0u8; SAY_MAX];
    let mut number: u64 = 1;
    let mut at = 0;
    // `line_at` says where the next line begins.
    while at < text.len() {
        let line = viewing::line_at(text, at);
        let n = viewing::say(&mut out, number, line.verdict);
        files::complain(rt, &out[..n]);
        at = line.next;
        number += 1;
    }
}

// Writes the list of a text's lines. The text is as it was.
fn gather(rt: &(impl Print + Eprint), text: &[u8])
    ensures { text.now ≡ text.now }
{
    let mut out = [0u8; INPUT];
    match viewing::gather(text, &mut out) {
        Ok(n) => {
            if files::write(rt, &out[..n]).is_ok() {
                complain(rt, text);
            }
        }
        Err(NotGathered::TooLong) => {
            files::complain(rt, b"viewer: the lines have more than 65,536 bytes\n");
        }
        Err(NotGathered::NoRoom) => {}
    }
}

// Does what is asked for, and answers whether anything was.
fn run<R: Read>(rt: &(impl Print + Eprint), reader: &mut R, way: Option<Way>) -> bool
    ensures { result ≡ is_some way }
{
    let Some(way) = way else {
        return false;
    };
    let mut input = [0u8; INPUT];
    let Ok(n) = files::load(rt, reader, b"standard input", &mut input) else {
        return true;
    };
    match way {
        Way::ToUtf8 => show(rt, &input[..n]),
        Way::ToList => gather(rt, &input[..n]),
    }
    true
}

fn main(rt: HostRuntime) {
    if files::arguments(&rt) == 1 {
        // One that is too long comes as nothing, which asks for nothing.
        let mut word = [0u8; ARGUMENT];
        let n = files::argument(&rt, 1, &mut word).unwrap_or(0);
        let way = viewing::asked(&word[..n]);
        if run(&rt, &mut rt.reader(), way) {
            return;
        }
    }
    files::complain(
        &rt,
        b"viewer: call it as `viewer utf8`, with a listener list on standard input, or as `viewer 1252`, with lines of UTF-8\n",
    );
}
