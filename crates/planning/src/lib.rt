// The radio planner's report: the shares of each set of charges in a file, and then each class's sum.
//
// A report begins with `begin`. The bytes of the file, as reads give them, go to `turn` with the course that came out before, which lays
// the lines of the whole sets; `ending` then says what the report ends with, and `say` lays its line: the sums, or refusal 17 in place
// of them, where the file's length is not a multiple of eight or it has more than 65,536 sets. Once `is_over` says that it has more,
// nothing that is still to be read matters. Nothing is kept but the course: the file may have any length. Each takes anything; only
// `ending` refuses.
#![tactic(auto)]

ghost use Rattle.std.specs.Prelude.{◌≡◌, ◌*◌, ◌<◌, ◌≤◌, length};
ghost use Rattle.paper.specs.Sizes.{SETS_MAX};
ghost use Rattle.lists.specs.Bytes.{laid};
ghost use Rattle.lines.specs.Pen.{Lays};
ghost use Rattle.records.specs.Walks.{records_of, size_of, rest_of};
ghost use Rattle.planning.specs.Sets.{SET, set_extent, charges_in};
ghost use Rattle.planning.specs.Lines.{FOUR_MAX, LAST_MAX, four_line, last_line};
ghost use Rattle.planning.specs.Course.{TEXT_MAX, added, course_after, line_for, start_course, turned_to, stand_of, is_over, ending_of};

use charges::Shares;
use lines::{FIELD_MAX, Pen};
use paper::{Refusal, SETS_MAX};

// The bytes of a set: four charges of two bytes, little-endian.
pub const SET: usize = 8;

// The most bytes of a line of four numbers.
pub const FOUR_MAX: usize = 4 * FIELD_MAX;

// The most bytes of the last line: `sums ` and four numbers.
pub const LAST_MAX: usize = 5 + FOUR_MAX;

// Each class's shares, added up. A field for a class, as the shares have it.
#[derive(Clone, Copy)]
pub struct Sums {
    pub class0: u64,
    pub class1: u64,
    pub class2: u64,
    pub class3: u64,
}

// How a report stands after the sets so far: how many there are, of which any number behind the limit counts as one, and the sums of
// those within it.
#[derive(Clone, Copy)]
pub struct Course {
    pub sets: u32,
    pub sums: Sums,
}

// Where a report stands between two reads: the course, how many bytes were left, and how many bytes of text the last turn laid.
#[derive(Clone, Copy)]
pub struct Stand {
    pub course: Course,
    pub had: usize,
    pub laid: usize,
}

// What a walk through sets gives: the course, how many bytes of the input it took, and how many bytes of text it laid.
#[derive(Clone, Copy)]
struct Walked {
    course: Course,
    taken: usize,
    laid: usize,
}

// The sums, with a set's shares.
#[tactic(auto, unfolding(crate::specs::Course::added))]
fn add(sums: Sums, shares: Shares) -> Sums
    ensures { result ≡ added sums shares }
{
    Sums {
        class0: sums.class0.wrapping_add(u64::from(shares.class0)),
        class1: sums.class1.wrapping_add(u64::from(shares.class1)),
        class2: sums.class2.wrapping_add(u64::from(shares.class2)),
        class3: sums.class3.wrapping_add(u64::from(shares.class3)),
    }
}

// The line of four numbers.
fn four(pen: &mut Pen, a: u64, b: u64, c: u64, d: u64)
    requires { pen.old.at ≤ TEXT_MAX }
    ensures { Lays pen.old pen.new (four_line a b c d) FOUR_MAX }
{
    pen.field(a, b' ');
    pen.field(b, b' ');
    pen.field(c, b' ');
    pen.field(d, b'\n');
}

// One set within the limit: its line, and its shares in the sums.
fn share(course: Course, set: &[u8], pen: &mut Pen) -> Course
    requires { (course.sets < SETS_MAX) × (pen.old.at ≤ TEXT_MAX) }
    ensures course_value { result ≡ course_after course (charges_in set.now) }
    ensures line { Lays pen.old pen.new (line_for course (charges_in set.now)) FOUR_MAX }
{
    let shares = charges::shares_of(reading::charges_at(set, 0));
    four(
        pen,
        u64::from(shares.class0),
        u64::from(shares.class1),
        u64::from(shares.class2),
        u64::from(shares.class3),
    );
    Course {
        sets: course.sets + 1,
        sums: add(course.sums, shares),
    }
}

// One set. Behind the limit it has no line and isn't added.
fn step(course: Course, set: &[u8], pen: &mut Pen) -> Course
    requires { pen.old.at ≤ TEXT_MAX }
    ensures course_value { result ≡ course_after course (charges_in set.now) }
    ensures line { Lays pen.old pen.new (line_for course (charges_in set.now)) FOUR_MAX }
{
    if SETS_MAX <= course.sets {
        return Course {
            sets: SETS_MAX + 1,
            sums: course.sums,
        };
    }
    share(course, set, pen)
}

// Walks through the whole sets at the front of the input, and lays their lines one behind the other.
fn walk(course: Course, input: &[u8], out: &mut [u8]) -> Walked
    ensures course_value { (result.course ≡ (turned_to course input.now).kept.course)
        × ((result.laid ≡ length (turned_to course input.now).kept.text) × (SET * result.laid ≤ FOUR_MAX * length input.now)) }
    ensures taken_value { (result.taken ≡ size_of (records_of set_extent input.now)) × (result.taken ≤ length input.now) }
    ensures out_after { out.new ≡ laid out.old 0 (turned_to course input.now).kept.text }
{
    let mut next = course;
    let mut pen = Pen { out, at: 0 };
    for set in input.chunks_exact(SET) {
        next = step(next, set, &mut pen);
    }
    Walked {
        course: next,
        taken: input.len() / SET * SET,
        laid: pen.at,
    }
}

// Where a report begins: no sets, no sums, and nothing left.
pub fn begin() -> Stand
    ensures { result ≡ record { course = start_course; had = 0; laid = 0 } }
{
    Stand {
        course: Course {
            sets: 0,
            sums: Sums {
                class0: 0,
                class1: 0,
                class2: 0,
                class3: 0,
            },
        },
        had: 0,
        laid: 0,
    }
}

// Takes the whole sets of the input that is there, what was left and behind it what was read, and lays their lines at the front of the
// output. What is left then comes to the input's front. A line has at most `FOUR_MAX` bytes, and an output that is too short gets as much
// as it has room for.
pub fn turn(course: Course, input: &mut [u8], out: &mut [u8]) -> Stand
    ensures value { (result ≡ stand_of (turned_to course input.old))
        × ((result.had ≤ length input.old) × (SET * result.laid ≤ FOUR_MAX * length input.old)) }
    ensures input_after { input.new ≡ laid input.old 0 (rest_of set_extent input.old) }
    ensures out_after { out.new ≡ laid out.old 0 (turned_to course input.old).kept.text }
{
    let Walked {
        course,
        taken,
        laid,
    } = walk(course, input, out);
    lists::to_front(input, taken);
    Stand {
        course,
        had: input.len() - taken,
        laid,
    }
}

// Whether the file has more sets than a file may have.
#[tactic(auto, unfolding(crate::specs::Course::is_over, paper::specs::Sizes::SETS_MAX))]
pub fn is_over(course: Course) -> bool
    ensures { result ≡ is_over course }
{
    SETS_MAX < course.sets
}

// What the report ends with, where so many bytes are left behind the whole sets: each class's sum, or 17 in place of the sums.
#[tactic(auto, using(std::proofs::lemmas::Bool::Decides::nat_tests), unfolding(crate::specs::Course::ending_of))]
pub fn ending(course: Course, had: usize) -> Result<Sums, Refusal>
    ensures { result ≡ ending_of course had }
{
    if is_over(course) || 0 < had {
        return Err(Refusal::NotSets);
    }
    Ok(course.sums)
}

// The line that the report ends with, at the front of the buffer. Answers its length.
pub fn say(out: &mut [u8], last: Result<Sums, Refusal>) -> usize
    ensures value { (result ≡ length (last_line last)) × (result ≤ LAST_MAX) }
    ensures out_after { out.new ≡ laid out.old 0 (last_line last) }
{
    let mut pen = Pen { out, at: 0 };
    match last {
        Ok(sums) => {
            pen.text(b"sums ");
            four(&mut pen, sums.class0, sums.class1, sums.class2, sums.class3);
        }
        Err(why) => pen.refused(paper::refusal_number(why)),
    }
    pen.at
}
