// The benchmark: all PDUs of a file, many times in memory, and how many calls got each answer.
//
// Called as `bench bench ROUNDS FILE`. FILE has PDUs, each after its length in two bytes, little-endian, and at most
// 2 MiB. Each round is a host's: it begins with Start, hands over every PDU, with the one listener PUMP, and then closes what
// is open, noting each channel's count of messages. Then it prints `calls N`, for each answer word how many calls got it,
// and `counted N`, the sum of the counts. bench/plain.c prints the same from plain C.
#![tactic(auto)]

ghost use Rattle.std.specs.Prelude.{◌≡◌, ◌<◌, ◌≤◌, IfSome, IfOk, length};
ghost use Rattle.bench.specs.Hosts.{asked_next};
ghost use Rattle.bench.specs.Tallies.{plus, tallied, noted, no_calls, sum_of};

use channel::Answer;
use client::Asked;
use deciding::Matter;
use files::{ARGUMENT, Failed};
use paper::PARTS;
use std::rt::{Env, Files};

// The most bytes that a file has.
const FILE_MAX: usize = 2097152;

// The first argument.
const BENCH: &[u8] = b"bench";

// Every count of rounds is below this.
const ROUNDS_END: u64 = 1000000000;

// How many calls got each answer word, and the messages that channels counted which were open at the end of a round.
#[derive(Clone, Copy)]
struct Tally {
    ready: u64,
    opened: u64,
    declined: u64,
    held: u64,
    message: u64,
    closed: u64,
    ignored: u64,
    refused: u64,
    counted: u64,
}

// The sum of two counts. It goes on from 0 where 64 bits end.
fn plus(a: u64, b: u64) -> u64
    ensures { result ≡ plus a b }
{
    a.wrapping_add(b)
}

// The tally with one more call for the answer's word.
fn tallied(tally: Tally, answer: Answer) -> Tally
    ensures { result ≡ tallied tally answer }
{
    let mut now = tally;
    match answer {
        Answer::Ready { .. } => now.ready = plus(now.ready, 1),
        Answer::Opened { .. } => now.opened = plus(now.opened, 1),
        Answer::Declined { .. } => now.declined = plus(now.declined, 1),
        Answer::Held { .. } => now.held = plus(now.held, 1),
        Answer::Message { .. } => now.message = plus(now.message, 1),
        Answer::Closed { .. } => now.closed = plus(now.closed, 1),
        Answer::Ignored { .. } => now.ignored = plus(now.ignored, 1),
        Answer::Refused { .. } => now.refused = plus(now.refused, 1),
    }
    now
}

// The tally with a channel's count of messages.
fn noted(tally: Tally, count: u32) -> Tally
    ensures { result ≡ noted tally count }
{
    let mut now = tally;
    now.counted = plus(now.counted, count as u64);
    now
}

// What the host asks next: what a PDU asks, or a close of the number.
fn next_asked(received: bool, pdu: &[u8], number: u32) -> Asked<Matter>
    ensures { result ≡ asked_next received pdu.now number }
{
    if received {
        return client::heard(b"PUMP\0", pdu);
    }
    client::closing(number)
}

// One round: Start, each whole record of the file, and a close of what is open then. A last record that is cut short is left
// out. PDUs and closes come to one call of `client::step`, which is compiled into this loop and has no other caller.
fn one_round(file: &[u8], store: &mut [u8], reply: &mut [u8], before: Tally) -> Tally
    ensures { length store.new ≡ length store.old }
{
    let mut table = client::start(store).table;
    let mut tally = before;
    let mut at = 0;
    let mut closes = 0;
    // Not a `for`: a turn takes a record, of any size, or closes a channel.
    while closes < PARTS {
        let mut start = at;
        let mut end = at;
        let mut number = 0;
        if 2 <= file.len() - at {
            let n = u16::from_le_bytes([file[at], file[at + 1]]) as usize;
            start = at + 2;
            if file.len() - start < n {
                at = file.len();
                continue;
            }
            end = start + n;
        } else {
            let row = table::find_open(table).row;
            if !row.taken {
                return tally;
            }
            number = row.number;
            tally = noted(tally, row.count);
            closes += 1;
        }
        let asked = next_asked(at < end, &file[start..end], number);
        let got = client::step(table, store, asked, &file[start..end], reply);
        let next = got.table;
        let answer = got.answer;
        table = next;
        tally = tallied(tally, answer);
        at = end;
    }
    tally
}

// So many rounds over the file.
fn run(rt: &impl Env, rounds: u64, file: &[u8]) -> Tally
    ensures { rounds ≡ 0 → result ≡ no_calls }
{
    let mut store = [0u8; paper::STORE];
    // The store begins used, and is known outside the program: what is written to it can't be left out as never read.
    files::argument(rt, 3, &mut store);
    let mut reply = [0u8; paper::REPLY_MIN];
    let mut tally = Tally {
        ready: 0,
        opened: 0,
        declined: 0,
        held: 0,
        message: 0,
        closed: 0,
        ignored: 0,
        refused: 0,
        counted: 0,
    };
    for _ in 0..rounds {
        tally = one_round(file, &mut store, &mut reply, tally);
    }
    tally
}

// How many calls there were.
fn sum(t: Tally) -> u64
    ensures { result ≡ sum_of t }
{
    let first = plus(plus(t.ready, t.opened), plus(t.declined, t.held));
    let last = plus(plus(t.message, t.closed), plus(t.ignored, t.refused));
    plus(first, last)
}

// Writes a word, a space and a number as a line. Answers how many lines were written, a number since they are added up.
fn print_line(rt: &impl Print, word: &str, number: u64) -> usize
    ensures { result ≤ 1 }
{
    match println!(rt; "{word} {number}") {
        Ok(()) => 1,
        Err(_) => 0,
    }
}

// Writes the tally. Answers how many lines were written.
fn print_tally(rt: &impl Print, t: Tally) -> usize
    ensures { result ≤ 10 }
{
    print_line(rt, "calls", sum(t))
        + print_line(rt, "ready", t.ready)
        + print_line(rt, "opened", t.opened)
        + print_line(rt, "declined", t.declined)
        + print_line(rt, "held", t.held)
        + print_line(rt, "message", t.message)
        + print_line(rt, "closed", t.closed)
        + print_line(rt, "ignored", t.ignored)
        + print_line(rt, "refused", t.refused)
        + print_line(rt, "counted", t.counted)
}

// The value of a decimal digit, or nothing for any other byte.
fn digit(byte: u8) -> Option<u64>
    ensures { IfSome result (λ n. n < 10) }
{
    if !byte.is_ascii_digit() {
        return None;
    }
    Some((byte - b'0') as u64)
}

// The number that decimal digits make, or nothing where they make none below ROUNDS_END.
fn count_of(text: &[u8]) -> Option<u64>
    ensures { IfSome result (λ n. n < 1000000000) }
{
    if text.is_empty() {
        return None;
    }
    let mut count = 0;
    for byte in text {
        let next = digit(*byte)?;
        if ROUNDS_END / 10 <= count {
            return None;
        }
        count = 10 * count + next;
    }
    Some(count)
}

// Reads the file into the room lent, and runs it. Answers how many lines were written. A file that can't be opened or
// read, or is too long, is said on standard error.
fn run_file(
    rt: &(impl Env + Files + Print + Eprint),
    rounds: u64,
    path: &[u8],
    room: &mut [u8],
) -> Result<usize, Failed>
    ensures { IfOk result (λ n. n ≤ 10) }
{
    let mut file = files::open(rt, path)?;
    let n = files::load(rt, &mut file, path, room)?;
    if FILE_MAX < n {
        files::complain(rt, b"bench: the file is over 2 MiB\n");
        return Err(Failed);
    }
    Ok(print_tally(rt, run(rt, rounds, &room[..n])))
}

// Room for a file, with one byte more than a file may have, so that a longer one shows.
fn room() -> [u8; FILE_MAX + 1]
    ensures { 2097153 ≡ length result }
{
    [0; FILE_MAX + 1]
}

// Lends room for the file.
fn bench(
    rt: &(impl Env + Files + Print + Eprint),
    rounds: u64,
    path: &[u8],
) -> Result<usize, Failed>
    ensures { IfOk result (λ n. n ≤ 10) }
{
    let mut room = room();
    run_file(rt, rounds, path, &mut room)
}

// How many rounds are asked for, where the program is called as it is to be.
fn asked(rt: &impl Env) -> Option<u64>
    ensures { IfSome result (λ n. n < 1000000000) }
{
    if files::arguments(rt) != 3 {
        return None;
    }
    let mut word = [0u8; ARGUMENT];
    let n = files::argument(rt, 1, &mut word)?;
    if &word[..n] != BENCH {
        return None;
    }
    let mut count = [0u8; ARGUMENT];
    let n = files::argument(rt, 2, &mut count)?;
    count_of(&count[..n])
}

fn main(rt: HostRuntime) {
    let Some(rounds) = asked(&rt) else {
        files::complain(&rt, b"usage: bench bench ROUNDS FILE\n");
        return;
    };
    let mut path = [0u8; ARGUMENT];
    // No file has a name that is too long: it comes as nothing, which can't be opened.
    let n = files::argument(&rt, 3, &mut path).unwrap_or(0);
    let _ = bench(&rt, rounds, &path[..n]);
}
