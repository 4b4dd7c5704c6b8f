// What reading says of PDUs, and whether that, written again, is the same PDU: a line for each PDU of standard input.
//
// The input is records as the walker's, each a byte and a PDU: `s` for a PDU from the server, any other byte for one
// from the client. A line has Cmd and the row's numbers (a CreationStatus as its 32 bits), or the refusal number; then
// how many bytes the name or the data has, a colon, and those bytes; then `same` where the writer of that kind writes
// the very PDU from what was read, `other` where it writes another, or `refused`. At most 65,536 bytes are read. A last
// record that is cut short, or has no byte, prints `cut` and ends the run.
//
// The stored input, whose text is the file `input`, has the examples of section 4 of [MS-RDPEDYC] and the widths of the
// paper's 'Numbers to hold'.
#![tactic(auto)]

ghost use Rattle.std.specs.Prelude.{◌≡◌, ◌+◌, ◌≤◌, length, take};
ghost use Rattle.lists.specs.Bytes.{laid, zeros};
ghost use Rattle.paper.specs.Sizes.{PDU_MAX};
ghost use Rattle.listeners.specs.Listeners.{same_bytes};
ghost use Rattle.reading.specs.Reading.{read_pdu};
ghost use Rattle.reading.specs.Said.{said};
ghost use Rattle.said.specs.Saying.{numbers_of, place_of, spelled_out, text_of, line_of, first_number};
ghost use Rattle.said.specs.Saying.{again_of, answer_to, left_by, word_for};

use files::Failed;
use paper::{PDU_MAX, Refusal};
use reading::{Extent, Pdu};
use std::io::Read;

// The bytes of the input, and of a line.
const INPUT: usize = 65536;

const OUTPUT: usize = 4096;

// The place of no bytes.
const NONE: Extent = Extent { at: 0, len: 0 };

// The first number of a line: Cmd, or the refusal number.
fn first_number(pdu: Pdu) -> u8
    ensures { result ≡ first_number pdu }
{
    match pdu {
        Pdu::CreateRequest { .. } => paper::CREATE,
        Pdu::CreateResponse { .. } => paper::CREATE,
        Pdu::DataFirst { .. } => paper::DATA_FIRST,
        Pdu::Data { .. } => paper::DATA,
        Pdu::Close { .. } => paper::CLOSE,
        Pdu::CapsRequest { .. } => paper::CAPABILITIES,
        Pdu::CapsResponse { .. } => paper::CAPABILITIES,
        Pdu::Refused(refusal) => paper::refusal_number(refusal),
    }
}

// The place of the name or the data, of no bytes where the PDU has neither.
fn place(pdu: Pdu) -> Extent
    ensures { result ≡ place_of pdu }
{
    match pdu {
        Pdu::CreateRequest { name, .. } => name,
        Pdu::DataFirst { block, .. } => block,
        Pdu::Data { block, .. } => block,
        Pdu::CreateResponse { .. } => NONE,
        Pdu::Close { .. } => NONE,
        Pdu::CapsRequest { .. } => NONE,
        Pdu::CapsResponse { .. } => NONE,
        Pdu::Refused(_) => NONE,
    }
}

// Numbers, each with a space behind it, from the front. Answers where they end.
fn spelled(out: &mut [u8], numbers: &[u32]) -> usize
    requires { length numbers.now ≤ 6 }
    ensures value { (result ≡ length (spelled_out numbers.now)) × (result ≤ 126) }
    ensures out_after { out.new ≡ laid out.old 0 (spelled_out numbers.now) }
{
    let mut end = 0;
    for number in numbers {
        end += lines::field(out, end, *number as u64, b' ');
    }
    end
}

// The row's numbers, from the front: Cmd and what stands behind it, or the refusal number.
fn row(out: &mut [u8], pdu: Pdu) -> usize
    ensures value { (result ≡ length (spelled_out (numbers_of pdu))) × (result ≤ 126) }
    ensures out_after { out.new ≡ laid out.old 0 (spelled_out (numbers_of pdu)) }
{
    let cmd = first_number(pdu) as u32;
    match pdu {
        Pdu::CreateRequest { number, class, .. } => spelled(out, &[cmd, number, class as u32]),
        Pdu::CreateResponse { number, status } => {
            spelled(out, &[cmd, number, numbers::unsigned(status)])
        }
        Pdu::DataFirst { number, length, .. } => spelled(out, &[cmd, number, length]),
        Pdu::Data { number, .. } => spelled(out, &[cmd, number]),
        Pdu::Close { number } => spelled(out, &[cmd, number]),
        Pdu::CapsRequest { version, charges } => spelled(
            out,
            &[
                cmd,
                version as u32,
                charges.class0 as u32,
                charges.class1 as u32,
                charges.class2 as u32,
                charges.class3 as u32,
            ],
        ),
        Pdu::CapsResponse { version } => spelled(out, &[cmd, version as u32]),
        Pdu::Refused(_) => spelled(out, &[cmd]),
    }
}

// The numbers, the name or data behind its length.
fn text(out: &mut [u8], pdu: &[u8], read: Pdu) -> usize
    ensures value { (result ≡ length (text_of (said pdu.now read))) × (result ≤ 147 + length pdu.now) }
    ensures out_after { out.new ≡ laid out.old 0 (text_of (said pdu.now read)) }
{
    let bytes = place(read).of(pdu);
    let spelled = row(out, read);
    let counted = spelled + lines::field(out, spelled, bytes.len() as u64, b':');
    counted + lines::text(out, counted, bytes)
}

// Writes what was read.
fn again(out: &mut [u8], pdu: &[u8], read: Pdu) -> Result<usize, Refusal>
    ensures value { result ≡ answer_to (again_of pdu.now read) out.old }
    ensures out_after { out.new ≡ left_by (again_of pdu.now read) out.old }
{
    match read {
        Pdu::CreateRequest {
            number,
            class,
            name,
        } => writing::write_create_request(out, number, class, name.of(pdu)),
        Pdu::CreateResponse { number, status } => writing::write_create_response(
            out, number, status,
        ),
        Pdu::DataFirst {
            number,
            length,
            block,
        } => writing::write_data_first(out, number, length, block.of(pdu)),
        Pdu::Data { number, block } => writing::write_data(out, number, block.of(pdu)),
        Pdu::Close { number } => writing::write_close(out, number),
        Pdu::CapsRequest { version, charges } => writing::write_capabilities_request(
            out, version, charges,
        ),
        Pdu::CapsResponse { version } => writing::write_capabilities_response(out, version),
        Pdu::Refused(why) => Err(why),
    }
}

// Whether the buffer's first n bytes are the PDU.
fn same(buffer: &[u8], n: usize, pdu: &[u8]) -> bool
    ensures { result ≡ same_bytes (take n buffer.now) pdu.now }
{
    let end = n.min(buffer.len());
    &buffer[..end] == pdu
}

// The line's last word, from a place on, by what a writer answered and left in its buffer. Answers its length.
fn word(
    out: &mut [u8],
    at: usize,
    answer: Result<usize, Refusal>,
    buffer: &[u8],
    pdu: &[u8],
) -> usize
    ensures value { (result ≡ length (word_for answer buffer.now pdu.now)) × (result ≤ 9) }
    ensures out_after { out.new ≡ laid out.old at
        (word_for answer buffer.now pdu.now) }
{
    let Ok(n) = answer else {
        return lines::text(out, at, b" refused\n");
    };
    if same(buffer, n, pdu) {
        return lines::text(out, at, b" same\n");
    }
    lines::text(out, at, b" other\n")
}

// A PDU's line, at the front of the buffer. Answers its length.
fn line(out: &mut [u8], from_server: bool, pdu: &[u8]) -> usize
    ensures value { result ≡ length (line_of from_server pdu.now) }
    ensures out_after { out.new ≡ laid out.old 0 (line_of from_server pdu.now) }
{
    let read = reading::read(pdu, from_server);
    let mut buffer = [0u8; PDU_MAX];
    let answer = again(&mut buffer, pdu, read);
    let end = text(out, pdu, read);
    end + word(out, end, answer, &buffer, pdu)
}

// Prints a line for each record of the input, or `cut` and no more.
fn show(rt: &(impl Print + Eprint), input: &[u8]) -> Result<(), Failed>
    ensures { input.now ≡ input.now }
{
    let mut rest = input;
    // Records have varying sizes.
    while !rest.is_empty() {
        let Some(size) = records::whole(rest) else {
            return files::write(rt, b"cut\n");
        };
        if size == records::LENGTH {
            return files::write(rt, b"cut\n");
        }
        let from_server = rest[records::LENGTH] == b's';
        let mut out = [0u8; OUTPUT];
        let n = line(&mut out, from_server, &rest[records::LENGTH + 1..size]);
        files::write(rt, &out[..n.min(OUTPUT)])?;
        rest = &rest[size..];
    }
    Ok(())
}

// Reads the input, and shows its records.
fn run<R: Read>(rt: &(impl Print + Eprint), reader: &mut R) -> Result<(), Failed> {
    let mut input = [0u8; INPUT];
    let n = files::load(rt, reader, b"standard input", &mut input)?;
    show(rt, &input[..n])
}

fn main(rt: HostRuntime) {
    if 0 < files::arguments(&rt) {
        files::complain(
            &rt,
            b"said: takes no arguments, and reads PDUs from standard input\n",
        );
        return;
    }
    let _ = run(&rt, &mut rt.reader());
}
