// The state of a connection, table and store, and what is put back into it.
//
// Both ends of a connection keep it so: a channel is looked up (`table::find`), what becomes of it is decided with no table
// in hand, and that is put back: its record by `table::put`, its part of the store by `keep`. specs/States says what one
// channel sees of the state and how a result is put back; proofs/Frame and Acts, that this moves that channel and no other,
// leaves a sound table sound and writes no byte outside the channel's part. Nothing here knows which end it serves, or what
// is replied.
#![tactic(auto)]

ghost use Rattle.std.specs.Prelude.{◌≡◌};
ghost use Rattle.connection.specs.States.{kept, stands, place_after};

use channel::{Change, Part};
use paper::PARTS;

// What becomes of the part at place k.
pub fn keep(store: &mut [u8], k: usize, part: Part, block: &[u8])
    ensures { store.new ≡ kept store.old k part block.now }
{
    match part {
        Part::Keeps => {}
        Part::Takes { at } => store::put_block(store, k, at, block),
        Part::Clears => store::clear_part(store, k),
    }
}

// Whether a channel has a record after a change, from whether it had one.
fn stands(taken: bool, change: Change) -> bool
    ensures { result ≡ stands taken change }
{
    match change {
        Change::Stays => taken,
        Change::Becomes(_) => true,
        Change::Frees => false,
    }
}

// The place of a channel's record after a change at place k, or sixteen where it has none, as the searches have it.
pub fn place_after(k: usize, taken: bool, change: Change) -> usize
    ensures { result ≡ place_after k taken change }
{
    if stands(taken, change) {
        return k;
    }
    PARTS
}
