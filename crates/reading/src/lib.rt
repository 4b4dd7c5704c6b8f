// Reading a PDU: bytes in, one of the seven kinds with its values out, or a refusal.
//
// `read` is plain reading. It takes any bytes and refuses what it can't read, in the paper's order: the first rule that
// holds gives the refusal. `read_strict` refuses more, last: a number or Length that a narrower width would hold, and
// ignored bits that are set. Both stand on the same stages, `find` and those before it, in that order, each with a
// definition of its own name in specs/Reading; what strict reading adds to them is in specs/Strict. `carries` tells whose a
// block of data is that reading refuses. `charges_at` reads four charges wherever they stand.
#![tactic(auto)]

ghost use Rattle.std.specs.Prelude.{◌≡◌, false, ◌||◌, ◌+◌, ◌≤◌, length};
ghost use Rattle.paper.specs.Rows.{verdict_number};
ghost use Rattle.numbers.specs.Numbers.{wide_at, measured_at};
ghost use Rattle.reading.specs.Reading.{read_pdu, by_command, numbered, bad_length_width, after_number};
ghost use Rattle.reading.specs.Reading.{create_request, create_response, data_first, closing};
ghost use Rattle.reading.specs.Reading.{capabilities, by_version, charges_at, charged};
ghost use Rattle.reading.specs.declared.Pdu.TheVariants.{Refused};
ghost use Rattle.reading.specs.Garbled.{brings_block, whole_in, carries};
ghost use Rattle.reading.specs.Said.{bytes_at, verdict_on};
ghost use Rattle.reading.specs.Strict.{read_strict, strict_verdict, loose_by, loose_numbered, loose_after, loose, strictly, judged};

use numbers::Measured;
use paper::{
    CAPABILITIES, CREATE, DATA, DATA_COMPRESSED, DATA_FIRST, DATA_FIRST_COMPRESSED, PDU_MAX,
    Refusal,
};

// Where in the PDU a name or data stands. It may be empty.
#[derive(Clone, Copy)]
pub struct Extent {
    pub at: usize,
    pub len: usize,
}

impl Extent {
    // The bytes there, as far as the PDU has any.
    pub fn of(self, pdu: &[u8]) -> &[u8]
        ensures { result.now ≡ bytes_at pdu.now self }
    {
        let at = self.at.min(pdu.len());
        let len = self.len.min(pdu.len() - at);
        &pdu[at..at + len]
    }
}

// The priority charges. The channels of class k use charge k.
#[derive(Clone, Copy)]
pub struct Charges {
    pub class0: u16,
    pub class1: u16,
    pub class2: u16,
    pub class3: u16,
}

// What reading answers: one enum of the kinds, with the refusal as one case more, since its promises say the paper's number and
// values for each case.
#[derive(Clone, Copy)]
pub enum Pdu {
    // From the server. The name is without its zero byte; class is Pri, whatever the level.
    CreateRequest {
        number: u32,
        class: u8,
        name: Extent,
    },
    // From the client.
    CreateResponse {
        number: u32,
        status: i32,
    },
    DataFirst {
        number: u32,
        length: u32,
        block: Extent,
    },
    Data {
        number: u32,
        block: Extent,
    },
    Close {
        number: u32,
    },
    // From the server. Version 1 has no charges and is read with charges of 0.
    CapsRequest {
        version: u16,
        charges: Charges,
    },
    // From the client.
    CapsResponse {
        version: u16,
    },
    Refused(Refusal),
}

// What both readings share: plain reading's answer, and whether strict reading refuses what that accepts.
#[derive(Clone, Copy)]
struct Found {
    answer: Pdu,
    loose: bool,
}

// The number of the n bytes from a place on, and whether a narrower width would do.
fn number_at(pdu: &[u8], at: usize, n: usize) -> Measured
    requires { (at + n ≤ length pdu.now) × (n ≤ 4) }
    ensures { result ≡ measured_at pdu.now at n }
{
    numbers::measure(&pdu[at..at + n])
}

// A refusal, in which nothing is loose.
fn refused(why: Refusal) -> Found
    ensures { (result.answer ≡ Refused why) × (result.loose ≡ false) }
{
    Found {
        answer: Pdu::Refused(why),
        loose: false,
    }
}

// The name goes up to its zero byte, the last of the PDU.
fn create_request(pdu: &[u8], number: u32, class: u8, at: usize) -> Pdu
    requires { at ≤ length pdu.now }
    ensures { result ≡ create_request pdu.now number class at }
{
    let len = lists::first_zero(&pdu[at..]);
    if pdu.len() - at <= len {
        return Pdu::Refused(Refusal::CutShort);
    }
    if len + 1 < pdu.len() - at {
        return Pdu::Refused(Refusal::BadField);
    }
    let name = Extent { at, len };
    Pdu::CreateRequest {
        number,
        class,
        name,
    }
}

fn create_response(pdu: &[u8], number: u32, at: usize) -> Pdu
    requires { (at ≤ 5) × (at ≤ length pdu.now) }
    ensures { result ≡ create_response pdu.now number at }
{
    if pdu.len() < at + 4 {
        return Pdu::Refused(Refusal::CutShort);
    }
    if at + 4 < pdu.len() {
        return Pdu::Refused(Refusal::BadField);
    }
    let status = numbers::status(numbers::four(&pdu[at..at + 4]));
    Pdu::CreateResponse { number, status }
}

fn data_first(pdu: &[u8], number: Measured, width: usize, at: usize) -> Found
    requires { (at ≤ 5) × (width ≤ 4) }
    ensures answer_value { result.answer ≡ data_first pdu.now number.value width at }
    ensures result_value { judged result ≡ strictly (number.wide || wide_at pdu.now at width)
        (data_first pdu.now number.value width at) }
{
    if pdu.len() < at + width {
        return refused(Refusal::CutShort);
    }
    let length = number_at(pdu, at, width);
    let start = at + width;
    let block = Extent {
        at: start,
        len: pdu.len() - start,
    };
    Found {
        answer: Pdu::DataFirst {
            number: number.value,
            length: length.value,
            block,
        },
        loose: number.wide | length.wide,
    }
}

fn closing(pdu: &[u8], number: u32, at: usize) -> Pdu
    ensures { result ≡ closing pdu.now number at }
{
    if at < pdu.len() {
        return Pdu::Refused(Refusal::BadField);
    }
    Pdu::Close { number }
}

// By command and direction. The middle bits are Pri in a Create request, the width of Length in a Data First, and else
// Sp, which plain reading ignores.
fn after_number(
    pdu: &[u8],
    from_server: bool,
    cmd: u8,
    middle: u8,
    number: Measured,
    at: usize,
) -> Found
    requires { (at ≤ 5) × (at ≤ length pdu.now) }
    ensures answer_value { result.answer ≡ after_number from_server pdu.now cmd middle number.value at }
    ensures result_value { judged result ≡ strictly (loose_after from_server pdu.now cmd middle number.wide at)
        (after_number from_server pdu.now cmd middle number.value at) }
{
    let value = number.value;
    // Where the middle bits are Sp.
    let loose = number.wide | (middle != 0);
    if cmd == CREATE {
        if from_server {
            let answer = create_request(pdu, value, middle, at);
            return Found {
                answer,
                loose: number.wide,
            };
        }
        let answer = create_response(pdu, value, at);
        return Found { answer, loose };
    }
    if cmd == DATA_FIRST {
        return data_first(pdu, number, numbers::width(middle), at);
    }
    if cmd == DATA {
        let block = Extent {
            at,
            len: pdu.len() - at,
        };
        let answer = Pdu::Data {
            number: value,
            block,
        };
        return Found { answer, loose };
    }
    let answer = closing(pdu, value, at);
    Found { answer, loose }
}

// A Data First whose Length has the invalid width code.
fn bad_length_width(cmd: u8, middle: u8) -> bool
    ensures { result ≡ bad_length_width cmd middle }
{
    if cmd == DATA_FIRST {
        return middle == 3;
    }
    false
}

// Commands 1 to 4: the widths are judged, then the channel number is read.
fn numbered(pdu: &[u8], from_server: bool, cmd: u8, middle: u8, cb_id: u8) -> Found
    ensures answer_value { result.answer ≡ numbered from_server pdu.now cmd middle cb_id }
    ensures result_value { judged result ≡ strictly (loose_numbered from_server pdu.now cmd middle cb_id)
        (numbered from_server pdu.now cmd middle cb_id) }
{
    if cb_id == 3 {
        return refused(Refusal::BadField);
    }
    if bad_length_width(cmd, middle) {
        return refused(Refusal::BadField);
    }
    let width = numbers::width(cb_id);
    if pdu.len() < 1 + width {
        return refused(Refusal::CutShort);
    }
    after_number(
        pdu,
        from_server,
        cmd,
        middle,
        number_at(pdu, 1, width),
        1 + width,
    )
}

// The four charges from a place on, two bytes each. Where the bytes end before, a charge is the number of those that are there.
pub fn charges_at(bytes: &[u8], at: u16) -> Charges
    ensures { result ≡ charges_at bytes.now at }
{
    let at = at as usize;
    Charges {
        class0: numbers::short_at(bytes, at),
        class1: numbers::short_at(bytes, at + 2),
        class2: numbers::short_at(bytes, at + 4),
        class3: numbers::short_at(bytes, at + 6),
    }
}

// A Capabilities request of a good version: versions 2 and 3 have four charges.
fn charged(pdu: &[u8], version: u16) -> Pdu
    ensures { result ≡ charged pdu.now version }
{
    if version == 1 {
        if 4 < pdu.len() {
            return Pdu::Refused(Refusal::BadField);
        }
        let charges = Charges {
            class0: 0,
            class1: 0,
            class2: 0,
            class3: 0,
        };
        return Pdu::CapsRequest { version, charges };
    }
    if pdu.len() < 12 {
        return Pdu::Refused(Refusal::CutShort);
    }
    if 12 < pdu.len() {
        return Pdu::Refused(Refusal::BadField);
    }
    let charges = charges_at(pdu, 4);
    Pdu::CapsRequest { version, charges }
}

fn by_version(pdu: &[u8], from_server: bool, version: u16) -> Pdu
    ensures { result ≡ by_version from_server pdu.now version }
{
    if version < 1 {
        return Pdu::Refused(Refusal::BadField);
    }
    if 3 < version {
        return Pdu::Refused(Refusal::BadField);
    }
    if from_server {
        return charged(pdu, version);
    }
    if 4 < pdu.len() {
        return Pdu::Refused(Refusal::BadField);
    }
    Pdu::CapsResponse { version }
}

// Command 5: cbId, Pad and Version.
fn capabilities(pdu: &[u8], from_server: bool, cb_id: u8) -> Pdu
    ensures { result ≡ capabilities from_server pdu.now cb_id }
{
    if cb_id != 0 {
        return Pdu::Refused(Refusal::BadField);
    }
    if pdu.len() < 2 {
        return Pdu::Refused(Refusal::CutShort);
    }
    if pdu[1] != 0 {
        return Pdu::Refused(Refusal::BadField);
    }
    if pdu.len() < 4 {
        return Pdu::Refused(Refusal::CutShort);
    }
    by_version(pdu, from_server, numbers::short_at(pdu, 2))
}

fn by_command(pdu: &[u8], from_server: bool, cmd: u8, middle: u8, cb_id: u8) -> Found
    ensures answer_value { result.answer ≡ by_command from_server pdu.now cmd middle cb_id }
    ensures result_value { judged result ≡ strictly (loose_by from_server pdu.now cmd middle cb_id)
        (by_command from_server pdu.now cmd middle cb_id) }
{
    if cmd < CREATE {
        return refused(Refusal::NoCommand);
    }
    if CAPABILITIES < cmd {
        return refused(Refusal::NoCommand);
    }
    if cmd == CAPABILITIES {
        let answer = capabilities(pdu, from_server, cb_id);
        return Found {
            answer,
            loose: middle != 0,
        };
    }
    numbered(pdu, from_server, cmd, middle, cb_id)
}

// What both readings find in a PDU that the server sent, or that the client sent.
fn find(pdu: &[u8], from_server: bool) -> Found
    ensures answer_value { result.answer ≡ read_pdu from_server pdu.now }
    ensures result_value { judged result ≡ read_strict from_server pdu.now }
{
    if pdu.len() == 0 {
        return refused(Refusal::CutShort);
    }
    if PDU_MAX < pdu.len() {
        return refused(Refusal::TooLong);
    }
    let first = pdu[0];
    by_command(pdu, from_server, first / 16, first / 4 % 4, first % 4)
}

// Reads a PDU that the server sent, or that the client sent.
pub fn read(pdu: &[u8], from_server: bool) -> Pdu
    ensures { result ≡ read_pdu from_server pdu.now }
{
    let found = find(pdu, from_server);
    found.answer
}

// Reads a PDU and refuses, last, one that isn't the only byte string of its meaning.
pub fn read_strict(pdu: &[u8], from_server: bool) -> Pdu
    ensures { result ≡ read_strict from_server pdu.now }
{
    let found = find(pdu, from_server);
    let answer = found.answer;
    if let Pdu::Refused(why) = answer {
        return Pdu::Refused(why);
    }
    if found.loose {
        return Pdu::Refused(Refusal::Loose);
    }
    answer
}

// The commands of a block of data, compressed or not.
fn brings_block(cmd: u8) -> bool
    ensures { result ≡ brings_block cmd }
{
    if cmd == DATA_FIRST {
        return true;
    }
    if cmd == DATA {
        return true;
    }
    if cmd == DATA_FIRST_COMPRESSED {
        return true;
    }
    cmd == DATA_COMPRESSED
}

// The number in the width of the code, where the PDU has all its bytes.
fn whole_in(pdu: &[u8], code: u8) -> Option<u32>
    ensures { result ≡ whole_in pdu.now code }
{
    if code == 3 {
        return None;
    }
    let width = numbers::width(code);
    if pdu.len() <= width {
        return None;
    }
    let number = number_at(pdu, 1, width);
    Some(number.value)
}

// The channel number that a block of data carries whole, also where reading refuses the PDU, for whatever reason.
pub fn carries(pdu: &[u8]) -> Option<u32>
    ensures { result ≡ carries pdu.now }
{
    if pdu.len() == 0 {
        return None;
    }
    let first = pdu[0];
    if brings_block(first / 16) {
        return whole_in(pdu, first % 4);
    }
    None
}

// The number of an answer's refusal, or 0 where it is none: what the C face answers and the lines of a run print.
pub fn verdict(answer: Pdu) -> u8
    ensures { result ≡ verdict_number (verdict_on answer) }
{
    let Pdu::Refused(why) = answer else {
        return 0;
    };
    paper::refusal_number(why)
}

// Strict reading for a host in C: 0 for a PDU that it accepts, or the refusal's number. The client sent the PDU where
// `from_server` is 0, and else the server.
#[unsafe(no_mangle)]
pub extern "C" fn dvc_strict(pdu: &[u8], from_server: u32) -> u32
    ensures { result ≡ strict_verdict from_server pdu.now }
{
    verdict(read_strict(pdu, from_server != 0)) as u32
}
