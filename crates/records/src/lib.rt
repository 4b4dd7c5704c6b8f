// The programs' input: records, most of them each a PDU after its length in two bytes, little-endian.
//
// `whole` finds such a record at the front of bytes, and `due_for` says what a walk waits for by the record at the front of
// what is left, whatever a record is. Both take anything. A record may announce 0 to 65,535 bytes; which of them can be a
// PDU is not judged here.
//
// specs/Walks says what any program that walks over records writes, at a turn and over a whole run.
#![tactic(auto)]

ghost use Rattle.std.specs.Prelude.{◌≡◌, ℕ, ◌<◌, ◌≤◌, List, cond, length, IfSome, nat_lt};
ghost use Rattle.lists.specs.Bytes.{laid};
ghost use Rattle.records.specs.Records.{found, whole_of};
ghost use Rattle.records.specs.Desk.{NEEDS_MAX, desk_needs, desk_whole, message_needs, link_needs, link_whole};
ghost use Rattle.records.specs.Walks.{due_for, records_of, size_of, rest_of};
ghost use Rattle.records.specs.Items.{after_items};
ghost use Rattle.records.specs.Pdus.{pdus_in};

// The bytes of a record's length.
pub const LENGTH: usize = 2;

// The lengths that announce no PDU in a record of the desk: the host's request, its local open and its local close. What a record
// announces, and the byte that leads one, are numbers of the input's format, and the definitions compare numbers: no enum.
pub const REQUEST: u32 = 65533;

pub const OPEN: u32 = 65534;

pub const CLOSE: u32 = 65535;

// The bytes of a request, of a local open without its name, and of a local close.
pub const REQUEST_SIZE: usize = LENGTH + 10;

pub const OPEN_HEAD: usize = LENGTH + 3;

pub const CLOSE_SIZE: usize = LENGTH + 4;

// The byte that leads a record of both ends, and what it says: what follows is a host's record of the desk; a local close at
// the panel; a message of the shore's or of the panel's host; the link drops.
pub const LEAD: usize = 1;

pub const AT_SHORE: u8 = 0;

pub const PANEL_CLOSE: u8 = 1;

pub const FROM_SHORE: u8 = 2;

pub const FROM_PANEL: u8 = 3;

pub const DROPS: u8 = 4;

// The bytes of a message's record before the message.
pub const MESSAGE_HEAD: usize = LEAD + 4 + 2;

// The most bytes that a record has, whatever a record is: those of a message's record, with as many as two bytes can
// announce.
pub const RECORD_MAX: usize = MESSAGE_HEAD + 65535 + 1;

// What a walk waits for: three states, not the shape of an option.
#[derive(Clone, Copy)]
pub enum Due {
    // More bytes, behind those that are left.
    Read,
    // Room for more text: a whole record is left.
    Room,
    // Nothing: the input has ended.
    Nothing,
}

// Where a run over records stands between two reads: what it keeps, and how many bytes were left.
#[derive(Clone, Copy)]
pub struct Stand<C> {
    pub course: C,
    pub had: usize,
}

// What a walk through records gives: what is kept, and how many bytes of the input it took.
struct Walked<C> {
    course: C,
    taken: usize,
}

// So many bytes, where they are there.
#[tactic(auto, using(std::proofs::lemmas::Bool::Decides::nat_tests), unfolding(crate::specs::Records::found))]
fn there(input: &[u8], n: usize) -> Option<usize>
    requires { 0 < n }
    ensures value { result ≡ found (cond (nat_lt (length input.now) n) 0 n) }
    ensures within { IfSome result (λ k. (k ≡ n) × (n ≤ length input.now)) }
{
    (n <= input.len()).then_some(n)
}

// How many bytes the record at the front has, its length among them, where a whole record stands there.
#[tactic(auto, using(std::proofs::lemmas::Bool::Decides::nat_tests), unfolding(crate::specs::Records::found, crate::specs::Records::whole_of, crate::specs::Records::announced))]
pub fn whole(input: &[u8]) -> Option<usize>
    ensures value { result ≡ found (whole_of input.now) }
    ensures within { IfSome result (λ n. (LENGTH ≤ n) × (n ≤ length input.now)) }
{
    let announced = numbers::number(input.get(..LENGTH)?);
    let size = LENGTH + announced as usize;
    there(input, size)
}

// How many bytes a record of the desk needs, as far as those that are there can tell. Where PDUs are not among the records,
// a length that announces one is all that is looked at.
#[tactic(auto, using(std::proofs::lemmas::Bool::Decides::nat_tests), unfolding(crate::specs::Desk::desk_needs, crate::specs::Desk::name_length, crate::specs::Records::announced))]
fn desk_needs(pdus: bool, input: &[u8]) -> usize
    ensures { (result ≡ desk_needs pdus input.now) × ((LENGTH ≤ result) × (result ≤ NEEDS_MAX)) }
{
    if input.len() < LENGTH {
        return LENGTH;
    }
    let announced = numbers::number(&input[..LENGTH]);
    match announced {
        REQUEST => REQUEST_SIZE,
        OPEN if input.len() < OPEN_HEAD => OPEN_HEAD,
        OPEN => OPEN_HEAD + numbers::number(&input[LENGTH + 1..OPEN_HEAD]) as usize,
        CLOSE => CLOSE_SIZE,
        _ if pdus => LENGTH + announced as usize,
        _ => LENGTH,
    }
}

// How many bytes the desk's record at the front has, where a whole record stands there.
#[tactic(auto, using(std::proofs::lemmas::Bool::Decides::nat_tests), unfolding(crate::specs::Desk::desk_whole, crate::specs::Desk::whole_by))]
pub fn desk_whole(input: &[u8]) -> Option<usize>
    ensures value { result ≡ found (desk_whole input.now) }
    ensures within { IfSome result (λ n. (LENGTH ≤ n) × (n ≤ length input.now)) }
{
    there(input, desk_needs(true, input))
}

// How many bytes a message's record needs.
#[tactic(auto, using(std::proofs::lemmas::Bool::Decides::nat_tests), unfolding(crate::specs::Desk::message_needs, crate::specs::Desk::message_length))]
fn message_needs(input: &[u8]) -> usize
    ensures { (result ≡ message_needs input.now) × (LEAD ≤ result) }
{
    if input.len() < MESSAGE_HEAD {
        return MESSAGE_HEAD;
    }
    let message = numbers::number(&input[LEAD + 4..MESSAGE_HEAD]);
    MESSAGE_HEAD + message as usize + 1
}

// How many bytes a record of both ends needs. With any other leading byte that byte is all that is looked at.
#[tactic(auto, using(std::proofs::lemmas::Bool::Decides::nat_tests), unfolding(crate::specs::Desk::link_needs, crate::specs::Desk::leading))]
fn link_needs(input: &[u8]) -> usize
    ensures { (result ≡ link_needs input.now) × (LEAD ≤ result) }
{
    if input.len() < LEAD {
        return LEAD;
    }
    match input[0] {
        AT_SHORE => LEAD + desk_needs(false, &input[LEAD..]),
        PANEL_CLOSE => LEAD + 4,
        FROM_SHORE | FROM_PANEL => message_needs(input),
        _ => LEAD,
    }
}

// How many bytes the record of both ends at the front has, where a whole record stands there.
#[tactic(auto, using(std::proofs::lemmas::Bool::Decides::nat_tests), unfolding(crate::specs::Desk::link_whole, crate::specs::Desk::whole_by))]
pub fn link_whole(input: &[u8]) -> Option<usize>
    ensures value { result ≡ found (link_whole input.now) }
    ensures within { IfSome result (λ n. (LEAD ≤ n) × (n ≤ length input.now)) }
{
    there(input, link_needs(input))
}

// What a walk waits for, by how many bytes the record at the front of what is left has, where one is whole: that waits for
// room, anything else for a read.
#[tactic(auto, using(std::proofs::lemmas::Bool::Decides::nat_tests), unfolding(crate::specs::Walks::due_for))]
pub fn due_for(front: Option<usize>) -> Due
    ensures { result ≡ due_for front }
{
    match front {
        None => Due::Read,
        Some(_) => Due::Room,
    }
}

// What a program does with a PDU, as a step of a walk.
pub trait Step<C> {
    // What a PDU makes of what is kept so far and of the bytes that are lent.
    ghost after: { Self → C × List ℕ → List ℕ → C × List ℕ };

    // Takes a PDU. Answers what is kept then.
    fn take(&self, course: C, lent: &mut [u8], pdu: &[u8]) -> C
        ensures { (result, lent.new) ≡ after self.now (course, lent.old) pdu.now };
}

// Walks through the whole records at the front of the input: the step takes each PDU, with what is kept so far and with what is
// lent.
fn walk<C, S: Step<C>>(course: C, lent: &mut [u8], input: &[u8], step: &S) -> Walked<C>
    ensures taken_value { (result.taken ≡ size_of (records_of whole_of input.now)) × (result.taken ≤ length input.now) }
    ensures steps { (result.course, lent.new) ≡ after_items (S.after step.now) (course, lent.old) (pdus_in input.now) }
{
    let mut next = course;
    let mut rest = input;
    // Records have varying sizes: no iterator of the library's goes from one to the next.
    while let Some(n) = whole(rest) {
        let (record, behind) = rest.split_at(n);
        next = step.take(next, lent, &record[LENGTH..]);
        rest = behind;
    }
    Walked {
        course: next,
        taken: input.len() - rest.len(),
    }
}

// Takes the whole records of the input that is there, what was left and behind it what was read: the step takes each PDU. What is
// left then comes to the input's front.
pub fn turn<C, S: Step<C>>(course: C, lent: &mut [u8], input: &mut [u8], step: &S) -> Stand<C>
    ensures steps { (result.course, lent.new) ≡ after_items (S.after step.now) (course, lent.old) (pdus_in input.old) }
    ensures had { (result.had ≡ length (rest_of whole_of input.old)) × (result.had ≤ length input.old) }
    ensures input_after { input.new ≡ laid input.old 0 (rest_of whole_of input.old) }
{
    let Walked { course, taken } = walk(course, lent, input, step);
    lists::to_front(input, taken);
    Stand {
        course,
        had: input.len() - taken,
    }
}
