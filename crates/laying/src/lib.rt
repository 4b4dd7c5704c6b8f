// A PDU's bytes, laid at the front of a buffer: what replies and the writers are made of.
//
// Each function lays the PDU that specs/Laying gives for its values, and answers the PDU's length. Bytes of the buffer
// behind it stay. A buffer that is too short gets as much of it as it has room for. None refuses: what may be written,
// and in what buffer, is judged by the callers. A place in the buffer is a plain number: a cursor's contract would name, as these do,
// what is laid and how long that is.
#![tactic(auto)]

ghost use Rattle.std.specs.Prelude.{◌≡◌};
ghost use Rattle.std.proofs.Math.ListN;
ghost use Rattle.lists.specs.Bytes.{laid};
ghost use Rattle.numbers.specs.Numbers.{bytes_of, narrow_bytes};
ghost use Rattle.laying.specs.Laying.{head_of, create_request_bytes, create_response_bytes, data_bytes, close_bytes};
ghost use Rattle.laying.specs.Laying.{data_first_head, data_first_bytes, caps_head, caps_request_bytes, caps_response_bytes};

use paper::{CAPABILITIES, CLOSE, CREATE, DATA, DATA_FIRST};
use reading::Charges;

// A number in its narrowest width, from a place on. Answers the width.
#[tactic(auto, using(crate::proofs::Lengths::numbering), unfolding(numbers::specs::Numbers::narrow_bytes))]
fn narrowed(out: &mut [u8], at: usize, value: u32) -> usize
    ensures value { result ≡ ListN.length (narrow_bytes value) }
    ensures out_after { out.new ≡ laid out.old at (narrow_bytes value) }
{
    let width = numbers::narrow(value);
    numbers::put(out, at, width, value);
    width
}

// A number of two bytes, from a place on.
#[tactic(auto, using(crate::proofs::Lengths::short_bytes))]
fn short(out: &mut [u8], at: usize, value: u16)
    ensures { out.new ≡ laid out.old at (bytes_of 2 value) }
{
    numbers::put(out, at, 2, u32::from(value));
}

// The first byte and the channel number.
#[tactic(auto, using(crate::proofs::Lengths::laying), unfolding(crate::specs::Laying::head_of))]
fn head(out: &mut [u8], cmd: u8, middle: u8, number: u32) -> usize
    ensures value { result ≡ ListN.length (head_of cmd middle number) }
    ensures out_after { out.new ≡ laid out.old 0 (head_of cmd middle number) }
{
    let first = [16 * (cmd % 16) + 4 * (middle % 4) + numbers::code(number)];
    lists::copy(out, &first);
    1 + narrowed(out, 1, number)
}

// A Create request: the name and one zero byte.
#[tactic(auto, using(crate::proofs::Lengths::laying), unfolding(crate::specs::Laying::create_request_bytes))]
pub fn create_request(out: &mut [u8], number: u32, class: u8, name: &[u8]) -> usize
    ensures value { result ≡ ListN.length (create_request_bytes number class name.now) }
    ensures out_after { out.new ≡ laid out.old 0 (create_request_bytes number class name.now) }
{
    let at = head(out, CREATE, class, number);
    lists::copy_at(out, at, name);
    let end = at + name.len();
    lists::copy_at(out, end, b"\0");
    end + 1
}

// A Create response.
#[tactic(auto, using(crate::proofs::Lengths::laying), unfolding(crate::specs::Laying::create_response_bytes))]
pub fn create_response(out: &mut [u8], number: u32, status: i32) -> usize
    ensures value { result ≡ ListN.length (create_response_bytes number status) }
    ensures out_after { out.new ≡ laid out.old 0 (create_response_bytes number status) }
{
    let at = head(out, CREATE, 0, number);
    let bytes = numbers::status_bytes(status);
    lists::copy_at(out, at, &bytes);
    at + 4
}

// The head of a Data First and its Length.
#[tactic(auto, using(crate::proofs::Lengths::laying), unfolding(crate::specs::Laying::data_first_head))]
fn first_head(out: &mut [u8], number: u32, length: u32) -> usize
    ensures value { result ≡ ListN.length (data_first_head number length) }
    ensures out_after { out.new ≡ laid out.old 0 (data_first_head number length) }
{
    let at = head(out, DATA_FIRST, numbers::code(length), number);
    at + narrowed(out, at, length)
}

// A Data First with any Length.
#[tactic(auto, using(crate::proofs::Lengths::laying), unfolding(crate::specs::Laying::data_first_bytes))]
pub fn data_first(out: &mut [u8], number: u32, length: u32, block: &[u8]) -> usize
    ensures value { result ≡ ListN.length (data_first_bytes number length block.now) }
    ensures out_after { out.new ≡ laid out.old 0 (data_first_bytes number length block.now) }
{
    let at = first_head(out, number, length);
    lists::copy_at(out, at, block);
    at + block.len()
}

// A Data.
#[tactic(auto, using(crate::proofs::Lengths::laying), unfolding(crate::specs::Laying::data_bytes))]
pub fn data(out: &mut [u8], number: u32, block: &[u8]) -> usize
    ensures value { result ≡ ListN.length (data_bytes number block.now) }
    ensures out_after { out.new ≡ laid out.old 0 (data_bytes number block.now) }
{
    let at = head(out, DATA, 0, number);
    lists::copy_at(out, at, block);
    at + block.len()
}

// A Close.
#[tactic(auto, using(crate::proofs::Lengths::laying), unfolding(crate::specs::Laying::close_bytes))]
pub fn close(out: &mut [u8], number: u32) -> usize
    ensures value { result ≡ ListN.length (close_bytes number) }
    ensures out_after { out.new ≡ laid out.old 0 (close_bytes number) }
{
    head(out, CLOSE, 0, number)
}

// The first byte, Pad and Version of a Capabilities PDU.
#[tactic(auto, using(crate::proofs::Lengths::laying), unfolding(crate::specs::Laying::caps_head))]
fn caps_head(out: &mut [u8], version: u16)
    ensures { out.new ≡ laid out.old 0 (caps_head version) }
{
    let first = [16 * CAPABILITIES, 0];
    lists::copy(out, &first);
    short(out, 2, version);
}

// A Capabilities request: version 1 has no charges.
#[tactic(auto, using(crate::proofs::Lengths::laying), unfolding(crate::specs::Laying::caps_request_bytes))]
pub fn capabilities_request(out: &mut [u8], version: u16, charges: Charges) -> usize
    ensures value { result ≡ ListN.length (caps_request_bytes version charges) }
    ensures out_after { out.new ≡ laid out.old 0 (caps_request_bytes version charges) }
{
    caps_head(out, version);
    if version == 1 {
        return 4;
    }
    short(out, 4, charges.class0);
    short(out, 6, charges.class1);
    short(out, 8, charges.class2);
    short(out, 10, charges.class3);
    12
}

// A Capabilities response.
#[tactic(auto, using(crate::proofs::Lengths::laying), unfolding(crate::specs::Laying::caps_response_bytes))]
pub fn capabilities_response(out: &mut [u8], version: u16) -> usize
    ensures value { result ≡ ListN.length (caps_response_bytes version) }
    ensures out_after { out.new ≡ laid out.old 0 (caps_response_bytes version) }
{
    caps_head(out, version);
    4
}
