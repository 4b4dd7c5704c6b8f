// The refusals' rules by name: which is the first in the order that holds for a PDU, at a table and with a listener list.
//
// `first` says it, `text` is a rule's name as text, and `name` lays that. They take anything, and none refuses. A PDU that `receive` accepts
// breaks no rule; one that it refuses breaks the rule whose number it answers, but for refusal 1, which is the call's.
#![tactic(auto)]

ghost use Rattle.std.specs.Prelude.{ℕ, ◌≤◌, ◌≡◌, true, List, length, drop};
ghost use Rattle.paper.specs.Rows.{first_held, refused_with};
ghost use Rattle.paper.specs.declared.Refusal.TheVariants.{BadField};
ghost use Rattle.lists.specs.Bytes.{laid};
ghost use Rattle.reading.specs.Layouts.{reading_rows, bad_cb_id};
ghost use Rattle.reading.specs.declared.Extent.{Extent};
ghost use Rattle.reading.specs.declared.Charges.{Charges};
ghost use Rattle.reading.specs.declared.Pdu.TheVariants.{CapsRequest, CreateRequest, DataFirst, Data, Close};
ghost use Rattle.table.specs.Table.{number_place};
ghost use Rattle.steps.specs.Rows.{stage_of, is_spoiled, is_joining, passes};
ghost use Rattle.rules.specs.Rules.{reading_rules, step_rules, the_rules, first_of, NAME_MAX, name_text};

use channel::Stage;
use paper::{CAPABILITIES, DATA_FIRST, MESSAGE_MAX, PARTS, Refusal};
use reading::Pdu;
use table::Table;

// The rules, in the order on receive, each with its refusal's number and its sentence.
#[derive(Clone, Copy)]
pub enum Rule {
    // 2: the PDU is empty.
    Empty,
    // 3: the PDU is longer than 1,600.
    Long,
    // 4: Cmd is not 1 to 5.
    Command,
    // 5: cbId is 3; with Capabilities, it is not 0.
    CbId,
    // 5: the Length's width code is 3.
    LengthWidth,
    // 2: a field, or the name, is not ended.
    Ended,
    // 5: Pad is not 0.
    Pad,
    // 5: Version is not 1 to 3.
    Version,
    // 5: bytes are left over, behind the last field or the name's zero.
    LeftOver,
    // 7: a Capabilities request when already ready.
    ReadyAlready,
    // 7: any other readable PDU when not ready.
    NotReady,
    // 6: a Create request with a listener list outside its rule.
    List,
    // 9: a Create request for a number that is open.
    OpenAlready,
    // 8: data for a number that isn't open.
    NotOpen,
    // 13: data for a spoiled channel.
    Spoiled,
    // 10: a Data First while a message is being joined.
    Joining,
    // 11: a Data First with Length over 4,096.
    OverLimit,
    // 12: a block longer than what is still to come.
    PastLength,
}

// Whether a cbId is refused.
fn bad_cb_id(cmd: u8, cb_id: u8) -> bool
    ensures { result ≡ bad_cb_id cmd cb_id }
{
    if cmd == CAPABILITIES {
        cb_id != 0
    } else {
        cb_id == 3
    }
}

// The rule of a PDU that reading refuses with 5.
fn field_rule(pdu: &[u8]) -> Rule
    ensures { first_held (reading_rows true pdu.now) ≡ refused_with BadField
        → Some result ≡ first_of (reading_rules pdu.now) }
{
    if pdu.is_empty() {
        return Rule::Empty;
    }
    let cmd = pdu[0] / 16;
    if bad_cb_id(cmd, pdu[0] % 4) {
        return Rule::CbId;
    }
    if cmd == DATA_FIRST && pdu[0] / 4 % 4 == 3 {
        return Rule::LengthWidth;
    }
    if cmd != CAPABILITIES {
        return Rule::LeftOver;
    }
    if pdu.len() < 4 || pdu[1] != 0 {
        return Rule::Pad;
    }
    let version = numbers::number(&pdu[2..4]);
    if version < 1 || 3 < version {
        return Rule::Version;
    }
    Rule::LeftOver
}

// The rule of a PDU that reading refuses.
fn reading_rule(pdu: &[u8], why: Refusal) -> Option<Rule>
    ensures { first_held (reading_rows true pdu.now) ≡ refused_with why
        → result ≡ first_of (reading_rules pdu.now) }
{
    match why {
        Refusal::CutShort => {
            if pdu.is_empty() {
                return Some(Rule::Empty);
            }
            Some(Rule::Ended)
        }
        Refusal::TooLong => Some(Rule::Long),
        Refusal::NoCommand => Some(Rule::Command),
        Refusal::BadField => Some(field_rule(pdu)),
        // Reading refuses with no other.
        _ => None,
    }
}

// A Capabilities request that was read.
fn caps_rule(table: Table) -> Option<Rule>
    ensures { (list : List ℕ) (version : ℕ) (charges : Charges)
        → result ≡ first_of (step_rules table list (CapsRequest version charges)) }
{
    table.ready.then_some(Rule::ReadyAlready)
}

// A Close that was read.
fn close_rule(table: Table) -> Option<Rule>
    ensures { (list : List ℕ) (n : ℕ) → result ≡ first_of (step_rules table list (Close n)) }
{
    (!table.ready).then_some(Rule::NotReady)
}

// A Create request that was read.
fn create_rule(table: Table, list: &[u8], number: u32) -> Option<Rule>
    ensures { (class : ℕ) (name : Extent)
        → result ≡ first_of (step_rules table list.now (CreateRequest number class name)) }
{
    if !table.ready {
        return Some(Rule::NotReady);
    }
    if !listeners::good(list) {
        return Some(Rule::List);
    }
    let found = table::find_number(table, number);
    if found.place < PARTS {
        return Some(Rule::OpenAlready);
    }
    None
}

// Whether a stage is spoiled.
#[tactic(auto, unfolding(steps::specs::Rows::is_spoiled))]
pub fn is_spoiled(stage: Stage) -> bool
    ensures { result ≡ is_spoiled stage }
{
    matches!(stage, Stage::Spoiled)
}

// Whether a message is being joined.
#[tactic(auto, unfolding(steps::specs::Rows::is_joining))]
fn is_joining(stage: Stage) -> bool
    ensures { result ≡ is_joining stage }
{
    matches!(stage, Stage::Joining { .. })
}

// Whether a Data's block of so many bytes is longer than what is still to come.
#[tactic(auto, unfolding(steps::specs::Rows::passes))]
fn is_past(stage: Stage, len: usize) -> bool
    ensures { result ≡ passes stage len }
{
    match stage {
        Stage::Idle => false,
        Stage::Joining { wanted, held } => { (wanted.saturating_sub(held) as usize) < len }
        Stage::Spoiled => false,
    }
}

// A Data First of a Length, with a block of so many bytes, on an open channel: the rules behind the two on what is open.
fn first_in(stage: Stage, length: u32, len: usize) -> Option<Rule>
    ensures { (t : Table) (list : List ℕ) (n : ℕ) (block : Extent) → stage_of t n ≡ stage → block.len ≡ len
        → result ≡ first_of (drop 2 (step_rules t list (DataFirst n length block))) }
{
    if is_spoiled(stage) {
        return Some(Rule::Spoiled);
    }
    if is_joining(stage) {
        return Some(Rule::Joining);
    }
    if MESSAGE_MAX < length as usize {
        return Some(Rule::OverLimit);
    }
    if (length as usize) < len {
        return Some(Rule::PastLength);
    }
    None
}

// A Data with a block of so many bytes, on an open channel.
fn data_in(stage: Stage, len: usize) -> Option<Rule>
    ensures { (t : Table) (list : List ℕ) (n : ℕ) (block : Extent) → stage_of t n ≡ stage → block.len ≡ len
        → result ≡ first_of (drop 2 (step_rules t list (Data n block))) }
{
    if is_spoiled(stage) {
        return Some(Rule::Spoiled);
    }
    if is_past(stage, len) {
        return Some(Rule::PastLength);
    }
    None
}

// The same where the channel was looked for: the rules behind the one on when. A place of sixteen is no record, as the table's search has
// it. The two have one test in common, and each contract names its own rows: one function for both has more lines.
fn first_found(place: usize, stage: Stage, length: u32, len: usize) -> Option<Rule>
    ensures { (t : Table) (list : List ℕ) (n : ℕ) (block : Extent)
        → place ≡ number_place n t → stage_of t n ≡ stage → block.len ≡ len
        → result ≡ first_of (drop 1 (step_rules t list (DataFirst n length block))) }
{
    if PARTS <= place {
        return Some(Rule::NotOpen);
    }
    first_in(stage, length, len)
}

fn data_found(place: usize, stage: Stage, len: usize) -> Option<Rule>
    ensures { (t : Table) (list : List ℕ) (n : ℕ) (block : Extent)
        → place ≡ number_place n t → stage_of t n ≡ stage → block.len ≡ len
        → result ≡ first_of (drop 1 (step_rules t list (Data n block))) }
{
    if PARTS <= place {
        return Some(Rule::NotOpen);
    }
    data_in(stage, len)
}

// A Data First that was read.
fn first_rule(table: Table, number: u32, length: u32, len: usize) -> Option<Rule>
    ensures { (list : List ℕ) (block : Extent) → block.len ≡ len
        → result ≡ first_of (step_rules table list (DataFirst number length block)) }
{
    if !table.ready {
        return Some(Rule::NotReady);
    }
    let found = table::find_number(table, number);
    let row = found.row;
    let stage = row.stage;
    first_found(found.place, stage, length, len)
}

// A Data that was read.
fn data_rule(table: Table, number: u32, len: usize) -> Option<Rule>
    ensures { (list : List ℕ) (block : Extent) → block.len ≡ len
        → result ≡ first_of (step_rules table list (Data number block)) }
{
    if !table.ready {
        return Some(Rule::NotReady);
    }
    let found = table::find_number(table, number);
    let row = found.row;
    let stage = row.stage;
    data_found(found.place, stage, len)
}

// The first rule in the order that holds for a PDU from the server.
pub fn first(table: Table, list: &[u8], pdu: &[u8]) -> Option<Rule>
    ensures { result ≡ first_of (the_rules table list.now pdu.now) }
{
    match reading::read(pdu, true) {
        Pdu::Refused(why) => reading_rule(pdu, why),
        Pdu::CapsRequest {
            version: _,
            charges: _,
        } => caps_rule(table),
        Pdu::CreateRequest {
            number,
            class: _,
            name: _,
        } => create_rule(table, list, number),
        Pdu::DataFirst {
            number,
            length,
            block,
        } => first_rule(table, number, length, block.len),
        Pdu::Data { number, block } => data_rule(table, number, block.len),
        Pdu::Close { number: _ } => close_rule(table),
        // Never read in a PDU from the server.
        Pdu::CreateResponse {
            number: _,
            status: _,
        } => Some(Rule::NotReady),
        Pdu::CapsResponse { version: _ } => Some(Rule::NotReady),
    }
}

// A rule's name and an LF.
#[tactic(auto, unfolding(crate::specs::Rules::name_text))]
pub fn text(rule: Rule) -> &'static [u8]
    ensures { (result.now ≡ name_text rule) × (length result.now ≤ NAME_MAX) }
{
    match rule {
        Rule::Empty => b"empty\n",
        Rule::Long => b"long\n",
        Rule::Command => b"command\n",
        Rule::CbId => b"cbid\n",
        Rule::LengthWidth => b"length-width\n",
        Rule::Ended => b"ended\n",
        Rule::Pad => b"pad\n",
        Rule::Version => b"version\n",
        Rule::LeftOver => b"left-over\n",
        Rule::ReadyAlready => b"ready-already\n",
        Rule::NotReady => b"not-ready\n",
        Rule::List => b"list\n",
        Rule::OpenAlready => b"open-already\n",
        Rule::NotOpen => b"not-open\n",
        Rule::Spoiled => b"spoiled\n",
        Rule::Joining => b"joining\n",
        Rule::OverLimit => b"over-limit\n",
        Rule::PastLength => b"past-length\n",
    }
}

// Lays a rule's name and an LF from a place on. Answers its length.
pub fn name(out: &mut [u8], at: usize, rule: Rule) -> usize
    ensures value { (result ≡ length (name_text rule)) × (result ≤ NAME_MAX) }
    ensures out_after { out.new ≡ laid out.old at (name_text rule) }
{
    lines::text(out, at, text(rule))
}
