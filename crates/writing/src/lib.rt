// Writing PDUs: a writer for each of the seven kinds.
//
// A writer takes a buffer of at least 1,600 bytes and answers the PDU's length, or refuses, in the paper's order:
// 1, the buffer; 5, the values; 11, the PDU's length. The bytes behind the written ones stay, and a refusal leaves all.
#![tactic(auto)]

ghost use Rattle.std.specs.Prelude.{◌≡◌, false};
ghost use Rattle.std.proofs.Math.ListN;
ghost use Rattle.reading.specs.Reading.{bad_version};
ghost use Rattle.laying.specs.Laying.{buffer_after, create_request_bytes, create_response_bytes, data_first_bytes, data_bytes, close_bytes};
ghost use Rattle.laying.specs.Laying.{caps_request_bytes, caps_response_bytes};
ghost use Rattle.writing.specs.Writing.{judged, written, outcome};
ghost use Rattle.writing.specs.Writing.{bad_request, bad_capabilities, all_zero, request_length};

use paper::{PDU_MAX, Refusal};
use reading::Charges;

// The refusals in their order, from the buffer's length, whether a value is bad, and the PDU's length.
fn judge(room: usize, bad: bool, length: usize) -> Result<usize, Refusal>
    ensures { result ≡ judged room bad length }
{
    if room < PDU_MAX {
        return Err(Refusal::BadCall);
    }
    if bad {
        return Err(Refusal::BadField);
    }
    if PDU_MAX < length {
        return Err(Refusal::OverLimit);
    }
    Ok(length)
}

// A class over 3, or a name with a zero byte.
fn bad_request(class: u8, name: &[u8]) -> bool
    ensures { result ≡ bad_request class name.now }
{
    if 3 < class {
        return true;
    }
    lists::first_zero(name) < name.len()
}

// A version that is not 1 to 3.
fn bad_version(version: u16) -> bool
    ensures { result ≡ bad_version version }
{
    if version < 1 {
        return true;
    }
    3 < version
}

// Field by field: a charge of each class is its own at the C interface.
fn all_zero(charges: Charges) -> bool
    ensures { result ≡ all_zero charges }
{
    if charges.class0 != 0 {
        return false;
    }
    if charges.class1 != 0 {
        return false;
    }
    if charges.class2 != 0 {
        return false;
    }
    charges.class3 == 0
}

// Such a version, or charges other than 0 with version 1.
fn bad_capabilities(version: u16, charges: Charges) -> bool
    ensures { result ≡ bad_capabilities version charges }
{
    if version == 1 {
        return !all_zero(charges);
    }
    bad_version(version)
}

// How long a Capabilities request is: version 1 has no charges.
fn request_length(version: u16) -> usize
    ensures { result ≡ request_length version }
{
    if version == 1 {
        return 4;
    }
    12
}

pub fn write_create_request(
    out: &mut [u8],
    number: u32,
    class: u8,
    name: &[u8],
) -> Result<usize, Refusal>
    ensures value { result ≡ written (bad_request class name.now)
        (create_request_bytes number class name.now) out.old }
    ensures out_after { out.new ≡ buffer_after (outcome result) (create_request_bytes number class name.now) out.old }
{
    let wanted = 1 + numbers::narrow(number) + name.len() + 1;
    let length = judge(out.len(), bad_request(class, name), wanted)?;
    laying::create_request(out, number, class, name);
    Ok(length)
}

pub fn write_create_response(out: &mut [u8], number: u32, status: i32) -> Result<usize, Refusal>
    ensures value { result ≡ written false (create_response_bytes number status) out.old }
    ensures out_after { out.new ≡ buffer_after (outcome result) (create_response_bytes number status) out.old }
{
    let wanted = 1 + numbers::narrow(number) + 4;
    let length = judge(out.len(), false, wanted)?;
    laying::create_response(out, number, status);
    Ok(length)
}

pub fn write_data_first(
    out: &mut [u8],
    number: u32,
    length: u32,
    block: &[u8],
) -> Result<usize, Refusal>
    ensures value { result ≡ written false (data_first_bytes number length block.now) out.old }
    ensures out_after { out.new ≡ buffer_after (outcome result) (data_first_bytes number length block.now) out.old }
{
    let wanted = 1 + numbers::narrow(number) + numbers::narrow(length) + block.len();
    let laid = judge(out.len(), false, wanted)?;
    laying::data_first(out, number, length, block);
    Ok(laid)
}

pub fn write_data(out: &mut [u8], number: u32, block: &[u8]) -> Result<usize, Refusal>
    ensures value { result ≡ written false (data_bytes number block.now) out.old }
    ensures out_after { out.new ≡ buffer_after (outcome result) (data_bytes number block.now) out.old }
{
    let wanted = 1 + numbers::narrow(number) + block.len();
    let length = judge(out.len(), false, wanted)?;
    laying::data(out, number, block);
    Ok(length)
}

pub fn write_close(out: &mut [u8], number: u32) -> Result<usize, Refusal>
    ensures value { result ≡ written false (close_bytes number) out.old }
    ensures out_after { out.new ≡ buffer_after (outcome result) (close_bytes number) out.old }
{
    let length = judge(out.len(), false, 1 + numbers::narrow(number))?;
    laying::close(out, number);
    Ok(length)
}

pub fn write_capabilities_request(
    out: &mut [u8],
    version: u16,
    charges: Charges,
) -> Result<usize, Refusal>
    ensures value { result ≡ written (bad_capabilities version charges) (caps_request_bytes version charges) out.old }
    ensures out_after { out.new ≡ buffer_after (outcome result) (caps_request_bytes version charges) out.old }
{
    let length = judge(
        out.len(),
        bad_capabilities(version, charges),
        request_length(version),
    )?;
    laying::capabilities_request(out, version, charges);
    Ok(length)
}

pub fn write_capabilities_response(out: &mut [u8], version: u16) -> Result<usize, Refusal>
    ensures value { result ≡ written (bad_version version) (caps_response_bytes version) out.old }
    ensures out_after { out.new ≡ buffer_after (outcome result) (caps_response_bytes version) out.old }
{
    let length = judge(out.len(), bad_version(version), 4)?;
    laying::capabilities_response(out, version);
    Ok(length)
}
