// A table in bytes that a host lends: 204 of them, words of four bytes, little-endian.
//
// Record k is the three words from 12 × k on: bit 0 taken, bits 1 and 2 the class, bits 3 to 30 the stage and bit 31 awaited in
// the first; its number; its count. Behind the sixteen stand the level, or 0 while not ready, with the version that the shore
// asked for and the end's mark, and the two totals. Any bytes of any length are taken. No table is built: what is judged,
// looked for and changed is so in the bytes.
#![tactic(auto)]

ghost use Rattle.std.specs.Prelude.{◌≡◌, true, false, ◌&&◌, ◌||◌, ◌∷◌, [], ◌+◌, ◌*◌, ◌/◌, ◌%◌, ◌≤◌, ◌<◌, eqb, length, get_or, drop};
ghost use Rattle.paper.specs.Sizes.{PARTS};
ghost use Rattle.lists.specs.Bytes.{laid};
ghost use Rattle.numbers.specs.Numbers.{bytes_of};
ghost use Rattle.table.specs.Table.{holds, record_at, number_place, free_place};
ghost use Rattle.table.specs.Totals.{awaits, opens};
ghost use Rattle.table.specs.Sound.{some, no_number_twice};
ghost use Rattle.saved.specs.Saved.{STATE, CLIENT, SHORE, bit, stage_code, rest_of, level_if, stage_of, record_of, word_at, ready_in, table_in};
ghost use Rattle.saved.specs.Saved.{is_good, is_headed, head_in, home_over};
ghost use Rattle.saved.specs.Judging.{good_rest, fine_rows, recounted};
ghost use Rattle.saved.specs.Saved.{good_word};
ghost use Rattle.saved.specs.Saved.{row_put, change_put, totals_put, put_over, ask_over, begin_over};

use channel::{Change, Record, Stage};
use paper::{MESSAGE_MAX, PARTS};
use table::{Found, Totals};

// The bytes of a state.
pub const STATE: usize = 204;

// The bytes of a record.
const ROW: usize = 12;

// Where the level, the version asked for and the mark stand, and the totals.
const HEAD: usize = 192;

const CHANNELS: usize = 196;

const AWAITED: usize = 200;

// The marks of the ends. Numbers, since `good` takes any mark.
pub const CLIENT: u32 = 67;

pub const SHORE: u32 = 83;

// What is read of a state beside its records.
#[derive(Clone, Copy)]
pub struct Head {
    pub ready: bool,
    pub level: u8,
    // The version that the shore asked for, or 0.
    pub asked: u16,
    pub totals: Totals,
}

// ---- words

// The word from a place on.
#[tactic(auto, using(crate::proofs::Words::word_four), unfolding(crate::specs::Saved::STATE))]
fn word(state: &[u8; STATE], at: usize) -> u32
    requires { at + 4 ≤ STATE }
    ensures { result ≡ word_at state.now at }
{
    numbers::joined([state[at], state[at + 1], state[at + 2], state[at + 3]])
}

// Writes a word from a place on.
fn put_word(state: &mut [u8; STATE], at: usize, value: u32)
    requires { at + 4 ≤ STATE }
    ensures { state.new ≡ laid state.old at (bytes_of 4 value) }
{
    state[at..at + 4].copy_from_slice(&numbers::split(value));
}

// ---- a record in its words

// The bit of an awaited record.
const MARK: u32 = 2147483648;

// Every stage's number is below this, if it can stand in a sound table.
const CODES: u32 = 268435456;

// What a stage's number counts a message's length by.
const WANTED: u32 = 4096;

// A stage's number: 0 idle, 1 spoiled, from 4,096 on a message being joined.
#[tactic(auto, unfolding(crate::specs::Saved::stage_code))]
fn stage_code(stage: Stage) -> u32
    ensures { (result ≡ stage_code stage) × (result < 268500992) }
{
    match stage {
        Stage::Idle => 0,
        Stage::Joining { wanted, held } => WANTED * wanted as u32 + held as u32,
        Stage::Spoiled => 1,
    }
}

#[tactic(auto, unfolding(crate::specs::Saved::rest_of))]
fn rest_of(record: Record) -> u32
    ensures { result ≡ rest_of «record» }
{
    record.taken as u32
        + 2 * (record.class % 4)
        + 8 * (stage_code(record.stage) % CODES)
        + MARK * record.awaited as u32
}

#[tactic(auto, unfolding(crate::specs::Saved::stage_of))]
fn stage_of(code: u32) -> Stage
    ensures { result ≡ stage_of code }
{
    if code == 0 {
        return Stage::Idle;
    }
    if code < WANTED {
        return Stage::Spoiled;
    }
    Stage::Joining {
        wanted: (code / WANTED % 65536) as u16,
        held: (code % WANTED) as u16,
    }
}

#[tactic(auto, unfolding(crate::specs::Saved::record_of))]
fn record_of(rest: u32, number: u32, count: u32) -> Record
    ensures { result ≡ record_of rest number count }
{
    Record {
        number,
        stage: stage_of(rest / 8 % CODES),
        awaited: rest / MARK == 1,
        taken: rest % 2 == 1,
        class: rest / 2 % 4,
        count,
    }
}

// The record at a place.
fn row(state: &[u8; STATE], k: usize) -> Record
    requires { k < PARTS }
    ensures { result ≡ record_at (table_in state.now) k }
{
    let at = ROW * k;
    let rest = word(state, at);
    let number = word(state, at + 4);
    let count = word(state, at + 8);
    record_of(rest, number, count)
}

// ---- which bytes are a state

// Whether a record's word is that of what it tells, and its stage can stand in a sound table; and whether it is awaited only
// where the end awaits numbers.
fn good_rest(rest: u32, asks: bool) -> bool
    ensures { result ≡ good_rest asks rest }
{
    if !asks && MARK <= rest {
        return false;
    }
    let code = rest / 8 % CODES;
    if code < 2 {
        return true;
    }
    if code / WANTED <= code % WANTED {
        return false;
    }
    code / WANTED <= MESSAGE_MAX as u32
}

// What a record with this word adds to the open channels.
fn opens(rest: u32) -> u32
    ensures { result ≡ opens (record_of rest 0 0) }
{
    if rest % 2 == 0 {
        return 0;
    }
    if MARK <= rest {
        return 0;
    }
    1
}

// And to the bytes awaited.
fn awaits(rest: u32) -> u32
    ensures { result ≡ awaits (record_of rest 0 0) }
{
    if opens(rest) == 0 {
        return 0;
    }
    let code = rest / 8 % CODES;
    if code < WANTED {
        return 0;
    }
    (code / WANTED).saturating_sub(code % WANTED)
}

// Whether every record is good, none is open or awaited when not ready, and the totals are what a recount comes to.
fn good_rows(state: &[u8; STATE], ready: bool, asks: bool) -> bool
    ensures { result ≡ (fine_rows ready asks PARTS state.now && recounted state.now) }
{
    let mut channels = 0;
    let mut awaited = 0;
    for i in 0..PARTS {
        let rest = word(state, ROW * i);
        if !good_rest(rest, asks) {
            return false;
        }
        if rest % 2 == 1 && !ready {
            return false;
        }
        channels += opens(rest);
        awaited += awaits(rest);
    }
    channels == word(state, CHANNELS) && awaited == word(state, AWAITED)
}

// Whether a record from the place on holds the number.
fn held_from(state: &[u8; STATE], k: usize, number: u32) -> bool
    ensures { result ≡ some (holds number) (drop k (table_in state.now).records) }
{
    for i in k..PARTS {
        let record = row(state, i);
        if record.taken && record.number == number {
            return true;
        }
    }
    false
}

// Whether no number stands in two records open or awaited, each compared with those behind it.
fn pairs_apart(state: &[u8; STATE]) -> bool
    ensures { result ≡ no_number_twice (table_in state.now).records }
{
    for i in 0..PARTS {
        let record = row(state, i);
        if record.taken && held_from(state, i + 1, record.number) {
            return false;
        }
    }
    true
}

// The marks that the taken records' numbers fall on: a number's mark is its remainder by this.
const MARKS: usize = 64;

// The same at a glance, in one pass from the last record to the first: true only where every free record is as Start made it,
// every other one is good and no two numbers share a mark, which numbers that are counted up don't. Such a state needs no
// second look.
fn plain(state: &[u8; STATE], ready: bool, asks: bool) -> bool
    ensures { result ≡ true → (fine_rows ready asks PARTS state.now ≡ true) × ((recounted state.now ≡ true)
        × (no_number_twice (table_in state.now).records ≡ true)) }
{
    let mut marks = [false; MARKS];
    let mut channels = 0;
    let mut awaited = 0;
    for i in (0..PARTS).rev() {
        let at = ROW * i;
        let rest = word(state, at);
        if rest != 0 {
            if rest % 2 == 0 {
                return false;
            }
            if !ready {
                return false;
            }
            let mark = word(state, at + 4) as usize % MARKS;
            if marks[mark] {
                return false;
            }
            marks[mark] = true;
            if asks && MARK <= rest {
                if MARK + 16 <= rest {
                    return false;
                }
            } else {
                channels += 1;
                if 16 <= rest {
                    let wanted = rest / 32768;
                    let held = rest / 8 % WANTED;
                    if wanted <= held {
                        return false;
                    }
                    if (MESSAGE_MAX as u32) < wanted {
                        return false;
                    }
                    awaited += wanted - held;
                }
            }
        }
    }
    channels == word(state, CHANNELS) && awaited == word(state, AWAITED)
}

// Whether the word has the end's mark, a level that may be, and a version only where the end asks.
#[tactic(auto, unfolding(crate::specs::Saved::good_word))]
fn good_head(head: u32, mark: u32, asks: bool) -> bool
    ensures { result ≡ good_word mark asks head }
{
    if head / 16777216 != mark {
        return false;
    }
    if 2 < head % 256 {
        return false;
    }
    asks || head / 256 % 65536 == 0
}

// Whether the bytes are a state of the end with this mark, and its table is sound. Only the shore asks and awaits.
pub fn good(state: &[u8], mark: u32, asks: bool) -> bool
    ensures { result ≡ is_good mark asks state.now }
{
    let Some(state) = state.as_array() else {
        return false;
    };
    let head = word(state, HEAD);
    if !good_head(head, mark, asks) {
        return false;
    }
    let ready = head % 256 != 0;
    if plain(state, ready, asks) {
        return true;
    }
    if !good_rows(state, ready, asks) {
        return false;
    }
    pairs_apart(state)
}

// Whether the word is that of one of the ends.
fn of_an_end(head: u32) -> bool
    ensures { result ≡ (good_word CLIENT false head || good_word SHORE true head) }
{
    if good_head(head, CLIENT, false) {
        return true;
    }
    good_head(head, SHORE, true)
}

// Whether what stands behind the records is that of a state of one of the ends, with totals that a sound table may have.
#[tactic(auto, unfolding(crate::specs::Saved::STATE, crate::specs::Saved::HEAD, crate::specs::Saved::CHANNELS, crate::specs::Saved::AWAITED, crate::specs::Saved::is_headed, paper::specs::Sizes::PARTS, paper::specs::Sizes::STORE, paper::specs::Sizes::PART, paper::specs::Sizes::MESSAGE_MAX))]
pub fn headed(state: &[u8]) -> bool
    ensures { result ≡ is_headed state.now }
{
    let Some(state) = state.as_array() else {
        return false;
    };
    if !of_an_end(word(state, HEAD)) {
        return false;
    }
    if (PARTS as u32) < word(state, CHANNELS) {
        return false;
    }
    word(state, AWAITED) <= paper::STORE as u32
}

// ---- what is read of a state

// Ready or not, the level, the version that was asked for, and the totals.
#[tactic(auto, unfolding(crate::specs::Saved::STATE, crate::specs::Saved::HEAD, crate::specs::Saved::CHANNELS, crate::specs::Saved::AWAITED, crate::specs::Saved::head_in, crate::specs::Saved::ready_in, crate::specs::Saved::asked_in, table::specs::Table::empty_table))]
pub fn read_head(state: &[u8]) -> Head
    ensures { result ≡ head_in state.now }
{
    let Some(state) = state.as_array() else {
        return Head {
            ready: false,
            level: 0,
            asked: 0,
            totals: Totals {
                channels: 0,
                awaited: 0,
            },
        };
    };
    let head = word(state, HEAD);
    let channels = word(state, CHANNELS);
    let awaited = word(state, AWAITED);
    Head {
        ready: head % 256 != 0,
        level: (head % 256) as u8,
        asked: (head / 256 % 65536) as u16,
        totals: Totals { channels, awaited },
    }
}

// The place of the record that holds the number, or sixteen: the table's searches, over the bytes.
fn find_number(state: &[u8; STATE], number: u32) -> usize
    ensures { result ≡ number_place number (table_in state.now) }
{
    for i in 0..PARTS {
        let at = ROW * i;
        if word(state, at + 4) == number && word(state, at) % 2 == 1 {
            return i;
        }
    }
    PARTS
}

// The place of the lowest free record, or sixteen.
fn find_free(state: &[u8; STATE]) -> usize
    ensures { result ≡ free_place (table_in state.now) }
{
    for i in 0..PARTS {
        if word(state, ROW * i) % 2 == 0 {
            return i;
        }
    }
    PARTS
}

// The place of a number, and the record that holds it, as `table::find` gives them.
pub fn find(state: &[u8], number: u32) -> Found
    ensures { result ≡ home_over number state.now }
{
    let Some(state) = state.as_array() else {
        return Found {
            place: PARTS,
            row: table::blank(),
        };
    };
    let k = find_number(state, number);
    if k < PARTS {
        return Found {
            place: k,
            row: row(state, k),
        };
    }
    Found {
        place: find_free(state),
        row: table::blank(),
    }
}

// ---- what is written into a state

fn put_row(state: &mut [u8; STATE], k: usize, record: Record)
    ensures { state.new ≡ row_put state.old k «record» }
{
    if PARTS <= k {
        return;
    }
    let at = ROW * k;
    put_word(state, at, rest_of(record));
    put_word(state, at + 4, record.number);
    put_word(state, at + 8, record.count);
}

#[tactic(auto, unfolding(crate::specs::Saved::change_put))]
fn put_change(state: &mut [u8; STATE], k: usize, change: Change)
    ensures { state.new ≡ change_put state.old k change }
{
    match change {
        Change::Stays => {}
        Change::Becomes(record) => put_row(state, k, record),
        Change::Frees => put_row(state, k, table::blank()),
    }
}

#[tactic(auto, unfolding(crate::specs::Saved::STATE, crate::specs::Saved::CHANNELS, crate::specs::Saved::AWAITED, crate::specs::Saved::totals_put))]
fn put_totals(state: &mut [u8; STATE], totals: Totals)
    ensures { state.new ≡ totals_put state.old totals }
{
    put_word(state, CHANNELS, totals.channels);
    put_word(state, AWAITED, totals.awaited);
}

fn level_if(ready: bool, level: u8) -> u8
    ensures { result ≡ level_if ready level }
{
    if ready { level } else { 0 }
}

// Ready or not, at a level, with what becomes of the record at a place, which is `row` as `find` gave both; and the totals
// by that change.
pub fn put(state: &mut [u8], ready: bool, level: u8, k: usize, row: Record, change: Change)
    ensures { state.new ≡ put_over state.old ready level k row change }
{
    let Some(state) = state.as_mut_array() else {
        return;
    };
    let channels = word(state, CHANNELS);
    let awaited = word(state, AWAITED);
    let before = Totals { channels, awaited };
    state[HEAD] = level_if(ready, level);
    put_totals(state, table::totals_after(before, row, change));
    put_change(state, k, change);
}

// The version that the shore asks for.
pub fn ask(state: &mut [u8], version: u16)
    ensures { state.new ≡ ask_over state.old version }
{
    if let Some(state) = state.as_mut_array::<STATE>() {
        state[HEAD + 1..HEAD + 3].copy_from_slice(&version.to_le_bytes());
    }
}

// An empty table, not ready, with the end's mark.
pub fn begin(state: &mut [u8], mark: u8)
    ensures { state.new ≡ begin_over state.old mark }
{
    if let Some(state) = state.as_mut_array::<STATE>() {
        *state = [0; STATE];
        state[HEAD + 3] = mark;
    }
}
