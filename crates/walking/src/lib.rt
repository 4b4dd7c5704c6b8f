// Walks over records: each record goes to the client's step or to the shore's, and what is written says what was answered;
// or it is only read, strictly, and what is written says whether it was accepted.
//
// A walk begins with `begin`, which lays what stands before the first record. Then, until it waits for nothing, it is
// taken on by `turn`: the caller lends it the input that is there, what was left and behind it what was read, and gets
// the text to write, with what is left of the input at its buffer's front. Where the walk waits for a read the caller
// reads, and a turn with nothing new is the end of the input. Both take anything, and neither refuses.
#![tactic(auto)]

ghost use Rattle.std.specs.Prelude.{◌≡◌, ℕ, ◌<◌, ◌≤◌, List, length, IfSome};
ghost use Rattle.lists.specs.Bytes.{laid};
ghost use Rattle.lines.specs.Lines.{LINE_MAX};
ghost use Rattle.records.specs.Records.{found};
ghost use Rattle.records.specs.Walks.{walk_through, turned, walked, ended};
ghost use Rattle.client.specs.Client.{Whole};
ghost use Rattle.walking.specs.declared.Job.TheVariants.{Client, Strict, Desk, Link};
ghost use Rattle.walking.specs.Walking.{walk_of, kept_of, beginning, has_closes, is_close, answered};
ghost use Rattle.walking.specs.Walking.{extent_for, text_for, first_told, cut_told, room_told, first_for, cut_unless, cut_for};
ghost use Rattle.walking.specs.Walking.{room_for, store_for, started_for, program, Steps, Walks, Turns};

use client::Received;
use lines::{LINE_MAX, MESSAGE_LINE_MAX};
use linking::{Ends, STEP_MAX};
use paper::{PDU_MAX, REPLY_MIN, STORE};
use records::{Due, LENGTH};
use shore::Shore;
use table::Table;

// What is told of the client's steps.
#[derive(Clone, Copy)]
pub enum Told {
    // A line for each PDU.
    Lines,
    // A line with the bytes of each message handed up.
    Messages,
    // A line for each move: a PDU, or a local close.
    Moves,
    // A line for each move, with the two totals after it.
    Totals,
}

// What a walk is for. A job is data: the definitions go over all jobs, so each step is a match on it and no closure.
#[derive(Clone, Copy)]
pub enum Job {
    // The client's step for each record.
    Client(Told),
    // Strict reading of each record: a line for each PDU.
    Strict { from_server: bool },
    // The shore's call for each record: a line for each.
    Desk,
    // Both ends, joined: a line for each call at an end.
    Link,
}

// What a walk keeps from record to record, beside the store: what the hosts of both ends keep, whether the run has ended at a
// record that is none, and the place of the next record.
#[derive(Clone, Copy)]
pub struct Kept {
    pub table: Table,
    pub shore: Shore,
    pub ended: bool,
    pub place: u64,
}

// Where a walk stands between two turns: what it keeps, how many bytes were left, and what it waits for.
#[derive(Clone, Copy)]
pub struct Stand {
    pub kept: Kept,
    pub had: usize,
    pub due: Due,
}

// What a turn gives: where the walk stands, and how many bytes of text it laid.
#[derive(Clone, Copy)]
pub struct Turned {
    pub stand: Stand,
    pub laid: usize,
}

// What one record gives: what is kept, and its text's length.
#[derive(Clone, Copy)]
struct Stepped {
    kept: Kept,
    laid: usize,
}

// What a walk through records gives: what is kept, how many bytes of the input it took, and how many bytes of text it
// laid.
#[derive(Clone, Copy)]
struct Walked {
    kept: Kept,
    taken: usize,
    laid: usize,
}

// How many bytes the record at the front has, where a whole record stands there.
#[tactic(auto, unfolding(crate::specs::Walking::extent_for))]
fn extent_for(job: Job, input: &[u8]) -> Option<usize>
    ensures value { result ≡ found (extent_for job input.now) }
    ensures within { IfSome result (λ n. (0 < n) × (n ≤ length input.now)) }
{
    match job {
        Job::Client(_) => records::whole(input),
        Job::Strict { from_server: _ } => records::whole(input),
        Job::Desk => records::desk_whole(input),
        Job::Link => records::link_whole(input),
    }
}

// The most bytes of a record's text.
#[tactic(auto, unfolding(crate::specs::Walking::room_told, lines::specs::Lines::MESSAGE_LINE_MAX, paper::specs::Sizes::MESSAGE_MAX))]
fn room_told(told: Told) -> usize
    ensures { result ≡ room_told told }
{
    match told {
        Told::Messages => MESSAGE_LINE_MAX,
        Told::Lines | Told::Moves | Told::Totals => LINE_MAX,
    }
}

#[tactic(auto, unfolding(crate::specs::Walking::room_for, linking::specs::Linking::STEP_MAX, linking::specs::Linking::CALL_MAX, lines::specs::Lines::MESSAGE_LINE_MAX, paper::specs::Sizes::MESSAGE_MAX))]
fn room_for(job: Job) -> usize
    ensures { result ≡ room_for job }
{
    match job {
        Job::Client(told) => room_told(told),
        Job::Strict { .. } | Job::Desk => LINE_MAX,
        Job::Link => STEP_MAX,
    }
}

// What stands before the first record.
#[tactic(auto, unfolding(crate::specs::Walking::first_told, lists::specs::Bytes::laid))]
fn first_told(told: Told, out: &mut [u8]) -> usize
    ensures value { (result ≡ length (first_told told)) × (result ≤ LINE_MAX) }
    ensures out_after { out.new ≡ laid out.old 0 (first_told told) }
{
    match told {
        Told::Lines | Told::Moves => lines::header(out),
        Told::Messages => 0,
        Told::Totals => lines::totals_header(out),
    }
}

#[tactic(auto, unfolding(crate::specs::Walking::first_for))]
fn first_for(job: Job, out: &mut [u8]) -> usize
    ensures value { (result ≡ length (first_for job)) × (result ≤ LINE_MAX) }
    ensures out_after { out.new ≡ laid out.old 0 (first_for job) }
{
    match job {
        Job::Client(told) => first_told(told, out),
        Job::Strict { .. } => lines::reading_header(out),
        Job::Desk => saying::desk_header(out),
        Job::Link => saying::link_header(out),
    }
}

// The text of a last record that is cut short.
#[tactic(auto, unfolding(crate::specs::Walking::cut_told, lists::specs::Bytes::laid))]
fn cut_told(told: Told, out: &mut [u8], place: u64) -> usize
    ensures value { (result ≡ length (cut_told told place)) × (result ≤ LINE_MAX) }
    ensures out_after { out.new ≡ laid out.old 0 (cut_told told place) }
{
    match told {
        Told::Messages => 0,
        Told::Lines | Told::Moves | Told::Totals => lines::cut_line(out, place),
    }
}

// After a record that is none nothing more is written.
#[tactic(auto, unfolding(crate::specs::Walking::cut_unless, lists::specs::Bytes::laid))]
fn cut_unless(ended: bool, out: &mut [u8], place: u64) -> usize
    ensures value { (result ≡ length (cut_unless ended place)) × (result ≤ LINE_MAX) }
    ensures out_after { out.new ≡ laid out.old 0 (cut_unless ended place) }
{
    if ended {
        return 0;
    }
    lines::cut_line(out, place)
}

#[tactic(auto, unfolding(crate::specs::Walking::cut_for))]
fn cut_for(job: Job, out: &mut [u8], ended: bool, place: u64) -> usize
    ensures value { (result ≡ length (cut_for job ended place)) × (result ≤ LINE_MAX) }
    ensures out_after { out.new ≡ laid out.old 0 (cut_for job ended place) }
{
    match job {
        Job::Client(told) => cut_told(told, out, place),
        Job::Strict { .. } | Job::Desk => lines::cut_line(out, place),
        Job::Link => cut_unless(ended, out, place),
    }
}

// The bytes of the store that a job is lent: one end's, or both ends'.
#[tactic(auto, unfolding(crate::specs::Walking::store_for, paper::specs::Sizes::STORE, paper::specs::Sizes::PARTS, paper::specs::Sizes::PART))]
pub fn store_for(job: Job) -> usize
    ensures { result ≡ store_for job }
{
    match job {
        Job::Client(_) | Job::Strict { .. } | Job::Desk => STORE,
        Job::Link => 2 * STORE,
    }
}

// The ends start.
#[tactic(auto, unfolding(crate::specs::Walking::started_for))]
fn start_for(job: Job, store: &mut [u8])
    ensures { store.new ≡ started_for job store.old }
{
    match job {
        Job::Client(_) | Job::Strict { .. } => {
            client::start(store);
        }
        Job::Desk => {
            shore::start(store);
        }
        Job::Link => {
            linking::start(store);
        }
    }
}

// Zeroes the store, lays what stands before the first record, and gives where the walk stands: at place 0, with the
// empty table.
pub fn begin(job: Job, store: &mut [u8], out: &mut [u8]) -> Turned
    ensures value { (result ≡ record { stand = beginning; laid = length (first_for job) }) × (result.laid ≤ LINE_MAX) }
    ensures store_after { store.new ≡ started_for job store.old }
    ensures out_after { out.new ≡ laid out.old 0 (first_for job) }
{
    start_for(job, store);
    let table = table::empty();
    let laid = first_for(job, out);
    Turned {
        stand: Stand {
            kept: Kept {
                table,
                shore: Shore { table, asked: 0 },
                ended: false,
                place: 0,
            },
            had: 0,
            due: Due::Read,
        },
        laid,
    }
}

// Whether local closes stand among the records.
#[tactic(auto, unfolding(crate::specs::Walking::has_closes))]
fn has_closes(told: Told) -> bool
    ensures { result ≡ has_closes told }
{
    matches!(told, Told::Moves | Told::Totals)
}

// Whether the record is a local close.
#[tactic(auto, unfolding(crate::specs::Walking::is_close))]
fn is_close(told: Told, bytes: &[u8]) -> bool
    ensures { result ≡ is_close told bytes.now }
{
    has_closes(told) && bytes.first() == Some(&0)
}

// The client's step for a record.
fn answered(told: Told, table: Table, store: &mut [u8], list: &[u8], bytes: &[u8]) -> Received
    ensures value { result ≡ (answered told list.now table store.old bytes.now).result }
    ensures store_after { store.new ≡ (answered told list.now table store.old bytes.now).store }
{
    let mut reply = [0u8; REPLY_MIN];
    if is_close(told, bytes) {
        let number = numbers::number(&bytes[1..]);
        return client::local_close(table, store, number, &mut reply);
    }
    client::receive(table, store, list, bytes, &mut reply)
}

// The text of a step, at the front of the buffer.
#[tactic(auto, unfolding(crate::specs::Walking::text_for, crate::specs::Walking::room_told))]
fn text_for(told: Told, out: &mut [u8], place: u64, received: Received, store: &[u8]) -> usize
    ensures value { (result ≡ length (text_for told place received store.now)) × (result ≤ room_told told) }
    ensures out_after { out.new ≡ laid out.old 0 (text_for told place received store.now) }
{
    let answer = received.answer;
    let totals = received.table.totals;
    match told {
        Told::Lines | Told::Moves => lines::line(out, place, answer, received.sent),
        Told::Messages => handing::of_answer(out, place, received.place, store, answer),
        Told::Totals => lines::totals_line(out, place, totals.channels, totals.awaited),
    }
}

// One record of the client's: its step, and its text at the front of the buffer.
fn step_told(
    told: Told,
    kept: Kept,
    store: &mut [u8],
    list: &[u8],
    bytes: &[u8],
    out: &mut [u8],
) -> Stepped
    ensures { Steps (program (Client told) list.now) (walk_of kept store.old)
        bytes.now out.old result store.new out.new }
{
    let from = LENGTH.min(bytes.len());
    let received = answered(told, kept.table, store, list, &bytes[from..]);
    let laid = text_for(told, out, kept.place, received, store);
    Stepped {
        kept: Kept {
            table: received.table,
            place: kept.place.wrapping_add(1),
            ..kept
        },
        laid,
    }
}

// One record that is only read: its line at the front of the buffer.
fn step_read(from_server: bool, kept: Kept, bytes: &[u8], out: &mut [u8]) -> Stepped
    ensures { (list store : List ℕ) → Steps (program (Strict from_server) list) (walk_of kept store)
        bytes.now out.old result store out.new }
{
    let from = LENGTH.min(bytes.len());
    let refusal = reading::verdict(reading::read_strict(&bytes[from..], from_server));
    let laid = lines::reading_line(out, kept.place, refusal);
    Stepped {
        kept: Kept {
            place: kept.place.wrapping_add(1),
            ..kept
        },
        laid,
    }
}

// One record of the shore's: its call, and its line at the front of the buffer.
fn step_desk(kept: Kept, store: &mut [u8], bytes: &[u8], out: &mut [u8]) -> Stepped
    ensures { (list : List ℕ) → Steps (program Desk list) (walk_of kept store.old)
        bytes.now out.old result store.new out.new }
{
    let mut buffer = [0u8; PDU_MAX];
    let given = hosting::hosted(kept.shore, store, bytes, &mut buffer);
    let laid = saying::desk_line(out, kept.place, given.said, given.sent);
    Stepped {
        kept: Kept {
            shore: given.shore,
            place: kept.place.wrapping_add(1),
            ..kept
        },
        laid,
    }
}

// One record of both ends: what comes of it, and its text at the front of the buffer. After a record that is none nothing
// more is done.
fn step_link(kept: Kept, store: &mut [u8], list: &[u8], bytes: &[u8], out: &mut [u8]) -> Stepped
    ensures { Steps (program Link list.now) (walk_of kept store.old)
        bytes.now out.old result store.new out.new }
{
    if kept.ended {
        return Stepped { kept, laid: 0 };
    }
    let ends = Ends {
        panel: kept.table,
        shore: kept.shore,
    };
    let stepped = linking::step(ends, store, list, bytes, kept.place, out);
    let crossed = stepped.crossed;
    Stepped {
        kept: Kept {
            table: crossed.ends.panel,
            shore: crossed.ends.shore,
            ended: stepped.bad,
            place: kept.place.wrapping_add(1),
        },
        laid: crossed.laid,
    }
}

// One record.
fn step(
    job: Job,
    kept: Kept,
    store: &mut [u8],
    list: &[u8],
    bytes: &[u8],
    out: &mut [u8],
) -> Stepped
    ensures { Steps (program job list.now) (walk_of kept store.old) bytes.now
        out.old result store.new out.new }
{
    match job {
        Job::Client(told) => step_told(told, kept, store, list, bytes, out),
        Job::Strict { from_server } => step_read(from_server, kept, bytes, out),
        Job::Desk => step_desk(kept, store, bytes, out),
        Job::Link => step_link(kept, store, list, bytes, out),
    }
}

// Walks through the whole records at the front of the input, while the output has room for a record's text.
fn walk(job: Job, kept: Kept, store: &mut [u8], list: &[u8], input: &[u8], out: &mut [u8]) -> Walked
    ensures walks { Walks (walk_through (program job list.now) (length out.old)
        (walk_of kept store.old) input.now)
        out.old result store.new out.new }
    ensures within { (result.taken ≤ length input.now) × (result.laid ≤ length out.old) }
{
    let room = room_for(job);
    let mut next = kept;
    let mut at = 0;
    let mut used = 0;
    // A record has the extent that its job gives it, and its text takes room: no loop over a range.
    while room <= out.len() - used {
        let Some(n) = extent_for(job, &input[at..]) else {
            break;
        };
        let end = at + n;
        let stepped = step(job, next, store, list, &input[at..end], &mut out[used..]);
        next = stepped.kept;
        at = end;
        used += stepped.laid;
    }
    Walked {
        kept: next,
        taken: at,
        laid: used,
    }
}

// A turn that walks: the whole records, as far as there is room. What is left comes to the front.
fn onward(
    job: Job,
    kept: Kept,
    store: &mut [u8],
    list: &[u8],
    input: &mut [u8],
    out: &mut [u8],
) -> Turned
    ensures turns { Turns (walked (program job list.now) (length out.old)
        (walk_of kept store.old) input.old)
        input.old out.old result store.new input.new out.new }
    ensures within { (result.stand.had ≤ length input.old) × (result.laid ≤ length out.old) }
{
    let walked = walk(job, kept, store, list, input, out);
    let taken = walked.taken;
    let due = records::due_for(extent_for(job, &input[taken..]));
    lists::to_front(input, taken);
    let kept = walked.kept;
    Turned {
        stand: Stand {
            kept,
            had: input.len() - taken,
            due,
        },
        laid: walked.laid,
    }
}

// The turn at the end of the input: what is left is a record that is cut short. With too little room it waits.
fn finish(job: Job, kept: Kept, input: &[u8], out: &mut [u8]) -> Turned
    ensures by_index { (list store : List ℕ) → Turns (ended (program job list) (length out.old)
        (walk_of kept store) input.now)
        input.now out.old result store input.now out.new }
    ensures within { (result.stand.had ≤ length input.now) × (result.laid ≤ length out.old) }
{
    let had = input.len();
    if out.len() < room_for(job) {
        let due = Due::Read;
        return Turned {
            stand: Stand { kept, had, due },
            laid: 0,
        };
    }
    let due = Due::Nothing;
    let stand = Stand { kept, had, due };
    if 0 < had {
        let laid = cut_for(job, out, kept.ended, kept.place);
        return Turned { stand, laid };
    }
    Turned { stand, laid: 0 }
}

// A turn over the input that is there. Where the walk waited for a read and nothing has come, the input has ended.
pub fn turn(
    job: Job,
    stand: Stand,
    store: &mut [u8],
    list: &[u8],
    input: &mut [u8],
    out: &mut [u8],
) -> Turned
    ensures turns { Turns (turned (program job list.now) (length out.old)
        stand.due (walk_of stand.kept store.old) stand.had input.old)
        input.old out.old result store.new input.new out.new }
    ensures within { (result.stand.had ≤ length input.old) × (result.laid ≤ length out.old) }
{
    let kept = stand.kept;
    let due = stand.due;
    match due {
        Due::Read => {
            if input.len() == stand.had {
                return finish(job, kept, input, out);
            }
            onward(job, kept, store, list, input, out)
        }
        Due::Room => onward(job, kept, store, list, input, out),
        Due::Nothing => Turned {
            stand: Stand {
                kept,
                had: input.len(),
                due,
            },
            laid: 0,
        },
    }
}
