// A record of the desk as a call at the shore.
//
// `hosted` takes a record: what the shore's host does, or a PDU from the client. It calls the shore's end, and what is sent
// goes to the front of the buffer. `announces` says what a record announces, by which `hosted` goes. Both take anything; bytes
// that a record doesn't have are as 0.
#![tactic(auto)]

ghost use Rattle.std.specs.Prelude.{◌≡◌};
ghost use Rattle.records.specs.Records.{announced};
ghost use Rattle.shore.specs.Shore.{requested, locally_opened};
ghost use Rattle.hosting.specs.Hosting.{charges_in, class_in, version_in, name_in, storeless, hosted};

use paper::PARTS;
use records::{CLOSE, LENGTH, OPEN, OPEN_HEAD, REQUEST};
use shore::{Given, Sending, Shore};

// What a record announces.
#[tactic(auto, unfolding(records::specs::Records::announced, numbers::specs::Numbers::value_at))]
pub fn announces(bytes: &[u8]) -> u32
    ensures { result ≡ announced bytes.now }
{
    u32::from(numbers::short_at(bytes, 0))
}

// The class of a local open.
#[tactic(auto, unfolding(crate::specs::Hosting::class_in))]
fn class_in(bytes: &[u8]) -> u8
    ensures { result ≡ class_in bytes.now }
{
    bytes.get(LENGTH).copied().unwrap_or(0)
}

// What a call gives that isn't lent the store.
#[tactic(auto, unfolding(crate::specs::Hosting::storeless, paper::specs::Sizes::PARTS))]
fn bare(sending: Sending) -> Given
    ensures { result ≡ storeless sending }
{
    Given {
        shore: sending.shore,
        said: sending.said,
        sent: sending.sent,
        place: PARTS,
    }
}

// The request.
#[tactic(auto, unfolding(crate::specs::Hosting::version_in, crate::specs::Hosting::charges_in))]
fn requests(shore: Shore, bytes: &[u8], buffer: &mut [u8]) -> Given
    ensures value { result ≡ storeless (requested shore (version_in bytes.now) (charges_in bytes.now) buffer.old).result }
    ensures buffer_after { buffer.new ≡ (requested shore (version_in bytes.now) (charges_in bytes.now) buffer.old).out }
{
    let charges = reading::charges_at(bytes, LENGTH as u16 + 2);
    bare(shore::request(shore, numbers::short_at(bytes, LENGTH), charges, buffer))
}

// A local open.
#[tactic(auto, using(lists::proofs::Lent::rest_lent))]
fn opens(shore: Shore, bytes: &[u8], buffer: &mut [u8]) -> Given
    ensures value { result ≡ storeless (locally_opened shore (name_in bytes.now) (class_in bytes.now) buffer.old).result }
    ensures buffer_after { buffer.new ≡ (locally_opened shore (name_in bytes.now) (class_in bytes.now) buffer.old).out }
{
    let from = OPEN_HEAD.min(bytes.len());
    bare(shore::open(shore, &bytes[from..], class_in(bytes), buffer))
}

// The call that a record asks for.
#[tactic(auto, using(std::proofs::lemmas::Bool::Decides::nat_tests, lists::proofs::Lent::rest_lent), unfolding(crate::specs::Hosting::hosted, records::specs::Records::pdu_in))]
pub fn hosted(shore: Shore, store: &mut [u8], bytes: &[u8], buffer: &mut [u8]) -> Given
    ensures value { result ≡ (hosted shore store.old bytes.now buffer.old).result }
    ensures store_after { store.new ≡ (hosted shore store.old bytes.now buffer.old).store }
    ensures buffer_after { buffer.new ≡ (hosted shore store.old bytes.now buffer.old).reply }
{
    let from = LENGTH.min(bytes.len());
    let behind = &bytes[from..];
    // What a record announces is a number of the input's format, and the definitions compare numbers.
    match announces(bytes) {
        REQUEST => requests(shore, bytes, buffer),
        OPEN => opens(shore, bytes, buffer),
        CLOSE => shore::local_close(shore, store, numbers::number(behind), buffer),
        _ => shore::receive(shore, store, behind, buffer),
    }
}
