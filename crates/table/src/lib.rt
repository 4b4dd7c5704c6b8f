// The table: sixteen records by value, with two totals over them, whether the connection is ready and the level in use.
//
// A table goes in by value and comes back. Every function takes any table, unsound ones too, and any number and place.
#![tactic(auto)]

ghost use Rattle.std.specs.Prelude.{◌≡◌, true, false, cond, ◌&&◌, eqb, drop};
ghost use Rattle.channel.specs.Channel.{blank};
ghost use Rattle.table.specs.Table.{empty_table, holds, with_record, free_place, found_in, open_in, home_in};
ghost use Rattle.table.specs.Table.{bit_of, site_of, next_of, totals_after, put_back};
ghost use Rattle.table.specs.Totals.{is_open, is_awaited, opens, awaits, total, moved, changed};
ghost use Rattle.table.specs.Sound.{some, every, no_number_twice, is_staged, good_seat, good_level, sound_table};

use channel::{Change, Record, Stage};
use paper::{MESSAGE_MAX, PARTS};

// What a host's status lamp shows. In a sound table it is what a recount of the records comes to.
#[derive(Clone, Copy)]
pub struct Totals {
    // The open channels.
    pub channels: u32,
    // The bytes still to come over all joining channels.
    pub awaited: u32,
}

#[derive(Clone, Copy)]
pub struct Table {
    pub totals: Totals,
    pub ready: bool,
    // 1 or 2 when ready.
    pub level: u8,
    pub records: [Record; PARTS],
}

// Where a number stands: the place of the record that holds it, and the record. Where none holds it, the place is sixteen
// and the record a free one.
#[derive(Clone, Copy)]
pub struct Found {
    pub place: usize,
    pub row: Record,
}

// A free record, as Start makes it.
pub fn blank() -> Record
    ensures { result ≡ blank }
{
    Record {
        number: 0,
        stage: Stage::Idle,
        awaited: false,
        taken: false,
        class: 0,
        count: 0,
    }
}

// A table as Start makes it: not ready, every record free.
#[tactic(auto, unfolding(crate::specs::Table::empty_table, paper::specs::Sizes::PARTS))]
pub fn empty() -> Table
    ensures { result ≡ empty_table }
{
    let record = blank();
    Table {
        totals: Totals {
            channels: 0,
            awaited: 0,
        },
        ready: false,
        level: 0,
        records: [record; PARTS],
    }
}

// Whether the record holds the number, open or awaited.
#[tactic(auto, unfolding(crate::specs::Table::holds))]
fn holds(record: Record, number: u32) -> bool
    ensures { result ≡ holds number «record» }
{
    record.number == number && record.taken
}

// Whether the record is open: it holds a number that isn't awaited.
#[tactic(auto, unfolding(crate::specs::Totals::is_open))]
fn is_open(record: Record) -> bool
    ensures { result ≡ is_open «record» }
{
    record.taken & !record.awaited
}

// The search for the record that holds the number. It leaves a loop of its own, as `find_open` and `find_free` do: one search
// over a closure, or a `for`, makes a call of the manager cost twice as much (bench/NOTES.md).
pub fn find_number(table: Table, number: u32) -> Found
    ensures { result ≡ found_in number table }
{
    let mut k = 0;
    let found = loop {
        if k == PARTS {
            let row = blank();
            break Found { place: k, row };
        }
        let row = table.records[k];
        if holds(row, number) {
            break Found { place: k, row };
        }
        k += 1;
    };
    found
}

// The place of the lowest-numbered free record, or sixteen where none is free.
pub fn find_free(table: Table) -> usize
    ensures { result ≡ free_place table }
{
    let mut i = 0;
    let k = loop {
        if i == PARTS {
            break PARTS;
        }
        let record = table.records[i];
        if !record.taken {
            break i;
        }
        i += 1;
    };
    k
}

// The lowest-numbered record that is open, and not awaited. Where none is open, the place is sixteen and the record a free one.
pub fn find_open(table: Table) -> Found
    ensures { result ≡ open_in table }
{
    let mut k = 0;
    let found = loop {
        if k == PARTS {
            let row = blank();
            break Found { place: k, row };
        }
        let row = table.records[k];
        if is_open(row) {
            break Found { place: k, row };
        }
        k += 1;
    };
    found
}

// The place of a number: of the record that holds it, or else of the lowest free record, or sixteen; with the record that
// holds it, or a free one.
pub fn find(table: Table, number: u32) -> Found
    ensures { result ≡ home_in number table }
{
    let found = find_number(table, number);
    if found.place < PARTS {
        return found;
    }
    Found {
        place: find_free(table),
        ..found
    }
}

// A place as the bit with its number, or no bit where the table doesn't have it: `put` says why a place is told so.
#[tactic(auto, unfolding(crate::specs::Table::bit_of, paper::specs::Sizes::PARTS))]
fn bit(k: usize) -> u32
    ensures { result ≡ bit_of k }
{
    if PARTS <= k {
        return 0;
    }
    1 << k
}

// Where a change is put: nowhere, if the record stays.
#[tactic(auto, unfolding(crate::specs::Table::site_of, paper::specs::Sizes::PARTS))]
fn site(k: usize, change: Change) -> usize
    ensures { result ≡ site_of k change }
{
    match change {
        Change::Stays => PARTS,
        Change::Becomes(_) | Change::Frees => k,
    }
}

// The record that a change puts.
#[tactic(auto, unfolding(crate::specs::Table::next_of))]
fn next_record(change: Change) -> Record
    ensures { result ≡ next_of change }
{
    match change {
        Change::Becomes(row) => row,
        Change::Stays | Change::Frees => blank(),
    }
}

// What a record adds to the channels: an open one itself, an awaited or a free one nothing.
#[tactic(auto, unfolding(crate::specs::Totals::opens))]
fn opens(record: Record) -> u32
    ensures { result ≡ opens «record» }
{
    is_open(record) as u32
}

// What a record adds to the bytes awaited.
#[tactic(auto, unfolding(crate::specs::Totals::awaits, crate::specs::Totals::to_come))]
fn awaits(record: Record) -> u32
    ensures { result ≡ awaits «record» }
{
    if !is_open(record) {
        return 0;
    }
    match record.stage {
        Stage::Idle | Stage::Spoiled => 0,
        Stage::Joining { wanted, held } => wanted.saturating_sub(held) as u32,
    }
}

// A total, after a record that added `old` to it adds `new`. In a sound table neither end of a u32 is met.
#[tactic(auto, unfolding(crate::specs::Totals::moved))]
fn moved(total: u32, old: u32, new: u32) -> u32
    ensures { result ≡ moved total old new }
{
    total.wrapping_add(new).wrapping_sub(old)
}

// The totals, after one record takes the place of another.
#[tactic(auto, unfolding(crate::specs::Totals::changed))]
fn changed(totals: Totals, old: Record, new: Record) -> Totals
    ensures { result ≡ changed totals old new }
{
    Totals {
        channels: moved(totals.channels, opens(old), opens(new)),
        awaited: moved(totals.awaited, awaits(old), awaits(new)),
    }
}

// The totals, after what becomes of a record.
#[tactic(auto, unfolding(crate::specs::Table::totals_after))]
pub fn totals_after(totals: Totals, row: Record, change: Change) -> Totals
    ensures { result ≡ totals_after totals row change }
{
    match change {
        Change::Stays => totals,
        Change::Becomes(record) => changed(totals, row, record),
        Change::Frees => changed(totals, row, blank()),
    }
}

// The table ready or not, at a level, with what becomes of the record at a place, which is `row` as `find` gave both. Every
// change of a table goes this way, and it moves the totals by what the change makes.
//
// The loop asks of each record in turn whether it is the one, and asks the bits of one number: its last bit, and then the
// number is halved. It doesn't compare the record's index with the place, since the compiler makes of such a comparison,
// as of `next.records[k]`, one store at an address that it works out: for that it writes the whole table to memory and reads
// it back, some 400 instructions. With the bits each record is set where it stands, by sixteen tests. The loop stands here
// and not in a function of its own for the same reason, and for the same reason `row` is handed in and not read.
pub fn put(table: Table, ready: bool, level: u8, k: usize, row: Record, change: Change) -> Table
    ensures { result ≡ put_back table ready level k row change }
{
    let record = next_record(change);
    let mut rest = bit(site(k, change));
    let mut next = table;
    next.ready = ready;
    next.level = level;
    for i in 0..PARTS {
        if rest % 2 == 1 {
            next.records[i] = record;
        }
        rest /= 2;
    }
    let before = table.totals;
    next.totals = totals_after(before, row, change);
    next
}

// Whether a record from the place on holds the number.
fn held_from(table: Table, k: usize, number: u32) -> bool
    ensures { result ≡ some (holds number) (drop k table.records) }
{
    for i in k..PARTS {
        if holds(table.records[i], number) {
            return true;
        }
    }
    false
}

// The marks that the taken records' numbers fall on: a number's mark is its remainder by this.
const MARKS: usize = 64;

// Whether no two taken records share a mark, and the open ones are as many as the total says, in one pass from the last to
// the first. Then no number stands in two.
fn marks_apart(table: Table) -> bool
    ensures { result ≡ true → (no_number_twice table.records ≡ true) × (total opens table.records ≡ table.totals.channels) }
{
    let mut marks = [false; MARKS];
    let mut channels = 0;
    for i in (0..PARTS).rev() {
        let record = table.records[i];
        if record.taken {
            let mark = record.number as usize % MARKS;
            if marks[mark] {
                return false;
            }
            marks[mark] = true;
            channels += opens(record);
        }
    }
    channels == table.totals.channels
}

// Whether no number stands in two records open or awaited, each compared with those behind it. By index: over the slice that
// is left, a step takes a quarter more (bench/NOTES.md).
fn pairs_apart(table: Table) -> bool
    ensures { result ≡ no_number_twice table.records }
{
    for i in 0..PARTS {
        let record = table.records[i];
        if record.taken && held_from(table, i + 1, record.number) {
            return false;
        }
    }
    true
}

// How many records are open.
fn count(table: Table) -> u32
    ensures { result ≡ total opens table.records }
{
    let mut channels = 0;
    for record in table.records {
        channels += opens(record);
    }
    channels
}

// Whether no number stands in two records open or awaited, and the open ones are as many as the total says. Numbers that
// are counted up differ in their marks, and then no pair is compared.
fn good_numbers(table: Table) -> bool
    ensures { result ≡ (no_number_twice table.records && eqb table.totals.channels (total opens table.records)) }
{
    if marks_apart(table) {
        return true;
    }
    if !pairs_apart(table) {
        return false;
    }
    table.totals.channels == count(table)
}

// Whether each record has a class, and none is open or awaited when not ready.
fn good_seats(table: Table) -> bool
    ensures { result ≡ every (good_seat table.ready) table.records }
{
    for record in table.records {
        if 3 < record.class {
            return false;
        }
        if record.taken && !table.ready {
            return false;
        }
    }
    true
}

// Whether some record has the shore's mark.
fn some_awaited(table: Table) -> bool
    ensures { result ≡ some is_awaited table.records }
{
    table.records.iter().any(|record| record.awaited)
}

// Whether the record is open, in a table of which it is known whether some record has the mark.
fn counts(record: Record, marked: bool) -> bool
    ensures { result ≡ cond marked (is_open «record») «record».taken }
{
    if marked {
        return is_open(record);
    }
    record.taken
}

// Whether each record's stage can stand in a sound table, a message being joined is not whole yet and fits a part, and
// as many bytes are still to come over the open ones as the total says. Where no record is marked, `marked` may be false.
fn stages(table: Table, marked: bool) -> bool
    requires { marked ≡ false → some is_awaited table.records ≡ false }
    ensures { result ≡ (every is_staged table.records && eqb table.totals.awaited (total awaits table.records)) }
{
    let mut awaited = 0;
    for record in table.records {
        let stage = record.stage;
        if let Stage::Joining { wanted, held } = stage {
            if wanted <= held {
                return false;
            }
            if MESSAGE_MAX < wanted as usize {
                return false;
            }
            if counts(record, marked) {
                awaited += (wanted - held) as u32;
            }
        }
    }
    table.totals.awaited == awaited
}

// The same of any table. The pass is short enough for the compiler to write it out record by record only if it doesn't read
// the mark. So the mark is looked for first; a client end's program, which never sets one, is compiled without that.
fn good_stages(table: Table) -> bool
    ensures { result ≡ (every is_staged table.records && eqb table.totals.awaited (total awaits table.records)) }
{
    if some_awaited(table) {
        return stages(table, true);
    }
    stages(table, false)
}

// Whether the level is 1 or 2, when ready.
#[tactic(auto, unfolding(crate::specs::Sound::good_level))]
fn good_level(ready: bool, level: u8) -> bool
    ensures { result ≡ good_level ready level }
{
    !ready || level == 1 || level == 2
}

// Whether the table is sound. The manager asks at every call, so each record is looked at three times and no more, unless
// two numbers share a mark; and a fourth time where a program sets the shore's mark. The passes are short enough for the
// compiler to write each out, record by record.
pub fn sound(table: Table) -> bool
    ensures { result ≡ sound_table table }
{
    if !good_numbers(table) {
        return false;
    }
    if !good_seats(table) {
        return false;
    }
    if !good_stages(table) {
        return false;
    }
    good_level(table.ready, table.level)
}
