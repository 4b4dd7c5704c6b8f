// Numbers in bytes: little-endian, of one, two or four bytes, and the signed status of four.
//
// Every function takes any bytes and any lengths, and none refuses.
#![tactic(auto)]

ghost use Rattle.std.specs.Prelude.{◌≡◌, take};
ghost use Rattle.lists.specs.Bytes.{laid, zeros};
ghost use Rattle.numbers.specs.Numbers.{little, bytes_of, value_of, value_at, width_of, code_for, narrowest, measured_of};
ghost use Rattle.numbers.specs.Status.{signed_of, unsigned_of, status_of, status_bytes};

// A number that was read, and whether a narrower width would do: the number counts either way.
#[derive(Clone, Copy)]
pub struct Measured {
    pub value: u32,
    pub wide: bool,
}

// The bytes of a width code: 1, 2 or 4. The invalid code has none. A code is a number, since callers hand in two bits of a PDU
// as they stand.
#[tactic(auto, unfolding(crate::specs::Numbers::width_of))]
pub fn width(code: u8) -> usize
    ensures { result ≡ width_of code }
{
    match code {
        0 => 1,
        1 => 2,
        2 => 4,
        _ => 0,
    }
}

// The code of the narrowest width that holds the value.
#[tactic(auto, unfolding(crate::specs::Numbers::code_for))]
pub fn code(value: u32) -> u8
    ensures { result ≡ code_for value }
{
    match value {
        0..=255 => 0,
        256..=65535 => 1,
        _ => 2,
    }
}

// The bytes of the narrowest width that holds the value.
#[tactic(auto, unfolding(crate::specs::Numbers::narrowest))]
pub fn narrow(value: u32) -> usize
    ensures { result ≡ narrowest value }
{
    width(code(value))
}

// A four-byte scratch that holds the bytes, with zeros behind fewer than four: what CreationStatus is built from.
#[tactic(auto, unfolding(lists::specs::Bytes::zeros))]
pub fn four(bytes: &[u8]) -> [u8; 4]
    ensures { result ≡ laid (zeros 4) 0 bytes.now }
{
    let mut scratch = [0; 4];
    lists::copy(&mut scratch, bytes);
    scratch
}

// The number that four bytes make.
#[tactic(auto, using(crate::proofs::Widths::le_joined))]
pub fn joined(b: [u8; 4]) -> u32
    ensures { result ≡ little b }
{
    u32::from_le_bytes(b)
}

// The four bytes of a number.
#[tactic(auto, using(crate::proofs::Widths::le_split))]
pub fn split(value: u32) -> [u8; 4]
    ensures { result ≡ bytes_of 4 value }
{
    value.to_le_bytes()
}

// The number that the bytes make. Only the first four count: from the top one down each is put below those taken before it.
// There are four turns whatever the length, so the compiler lays them out one by one.
pub fn number(bytes: &[u8]) -> u32
    ensures { result ≡ value_of bytes.now }
{
    let mut value = 0;
    for at in (0..4).rev() {
        if let Some(&byte) = bytes.get(at) {
            value = value * 256 + u32::from(byte);
        }
    }
    value
}

// The number of the two bytes from a place on. Where the bytes end before, it is that of those that are there.
pub fn short_at(bytes: &[u8], at: usize) -> u16
    ensures { result ≡ value_at bytes.now at 2 }
{
    let start = at.min(bytes.len());
    let end = bytes.len().min(start + 2);
    number(&bytes[start..end]) as u16
}

// The number that the bytes make, and whether fewer bytes would do.
#[tactic(auto, unfolding(crate::specs::Numbers::wide_of))]
pub fn measure(bytes: &[u8]) -> Measured
    ensures { result ≡ measured_of bytes.now }
{
    let value = number(bytes);
    Measured {
        value,
        wide: narrow(value) < bytes.len(),
    }
}

// Writes the low bytes of the value, as many as the width says and at most four, from a place on.
pub fn put(out: &mut [u8], at: usize, width: usize, value: u32)
    ensures { out.new ≡ laid out.old at (take width (bytes_of 4 value)) }
{
    let bytes = split(value);
    let n = width.min(4);
    lists::copy_at(out, at, &bytes[..n]);
}

// The signed number of the same 32 bits.
#[tactic(auto, using(crate::proofs::Signs::signed_cast))]
pub fn signed(value: u32) -> i32
    ensures { result ≡ signed_of value }
{
    value.cast_signed()
}

// The unsigned number of the same 32 bits.
#[tactic(auto, using(crate::proofs::Signs::unsigned_cast))]
pub fn unsigned(status: i32) -> u32
    ensures { result ≡ unsigned_of status }
{
    status.cast_unsigned()
}

// CreationStatus, built from its four bytes.
#[tactic(auto, using(crate::proofs::Widths::le_joined, crate::proofs::Signs::signed_cast), unfolding(crate::specs::Status::status_of))]
pub fn status(bytes: [u8; 4]) -> i32
    ensures { result ≡ status_of bytes }
{
    i32::from_le_bytes(bytes)
}

// CreationStatus, split into its four bytes.
#[tactic(auto, using(crate::proofs::Widths::le_split, crate::proofs::Signs::unsigned_cast), unfolding(crate::specs::Status::status_bytes))]
pub fn status_bytes(status: i32) -> [u8; 4]
    ensures { result ≡ status_bytes status }
{
    status.to_le_bytes()
}
