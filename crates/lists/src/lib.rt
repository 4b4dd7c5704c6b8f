// Byte slices, and the lists that contracts speak of.
//
// specs/ has the definitions that every other crate cites: the first place that passes a test, bytes laid over a list,
// zeros. proofs/ has their laws. The functions copy, clear and look for a byte. Each takes slices of any length.
#![tactic(auto)]

ghost use Rattle.std.specs.Prelude.{◌≡◌, length, drop};
ghost use Rattle.lists.specs.Bytes.{laid, zeros, is_byte, is_zero};
ghost use Rattle.lists.specs.Places.{place};
ghost use Rattle.lists.specs.Lines.{first_line, behind_line};

// Copies the block to the front of the part. Bytes behind it stay, and what doesn't fit is left out.
//
// By index, here and in `to_front`: the library's copies need `memmove` of whoever links an archive for C, which loops don't.
pub fn copy(part: &mut [u8], block: &[u8])
    ensures { part.new ≡ laid part.old 0 block.now }
{
    let n = part.len().min(block.len());
    for i in 0..n {
        part[i] = block[i];
    }
}

// Copies the block into the part from a place on. Bytes before and behind it stay, and what doesn't fit is left out.
#[tactic(auto, using(crate::proofs::Laid::back_end, crate::proofs::Laid::laid_past))]
pub fn copy_at(part: &mut [u8], at: usize, block: &[u8])
    ensures { part.new ≡ laid part.old at block.now }
{
    if part.len() <= at {
        return;
    }
    copy(&mut part[at..], block);
}

// Moves the bytes from a place on to the front. Bytes behind where they come to stay.
pub fn to_front(bytes: &mut [u8], from: usize)
    ensures { bytes.new ≡ laid bytes.old 0 (drop from bytes.old) }
{
    if from == 0 {
        return;
    }
    for i in from..bytes.len() {
        bytes[i - from] = bytes[i];
    }
}

// Every byte of the part becomes zero.
#[tactic(auto, unfolding(crate::specs::Bytes::zeros))]
pub fn clear(part: &mut [u8])
    ensures { part.new ≡ zeros (length part.old) }
{
    part.fill(0);
}

// The place of the first byte that is this one, or the length where there is none: so it cuts the bytes in either case.
pub fn first_of(bytes: &[u8], byte: u8) -> usize
    ensures { result ≡ place (is_byte byte) bytes.now }
{
    bytes.iter().position(|b| *b == byte).unwrap_or(bytes.len())
}

// The place of the first zero byte, or the length where there is none.
pub fn first_zero(bytes: &[u8]) -> usize
    ensures { result ≡ place is_zero bytes.now }
{
    first_of(bytes, 0)
}

// The first line of a text, without its end, and what is behind it.
pub fn first_line(text: &[u8]) -> (&[u8], &[u8])
    ensures line { result.0.now ≡ first_line text.now }
    ensures behind { result.1.now ≡ behind_line text.now }
{
    let end = first_of(text, b'\n');
    let next = text.len().min(end + 1);
    (&text[..end], &text[next..])
}
