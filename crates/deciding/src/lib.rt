// The rules of a connection, with no table and no store in hand: what a matter comes to, from whether the connection is
// ready, its level, the record that was found for the matter's channel, and whether there is room for it.
//
// Who keeps the records finds before, and puts back after: `table` by value, or anything else.
#![tactic(auto)]

ghost use Rattle.std.specs.Prelude.{◌≡◌};
ghost use Rattle.deciding.specs.Deciding.{level_for, refusing, readying, decided_of};

use channel::{Answer, Ask, Change, OUR_VERSION, Part, Record, Reply, Turn};
use paper::Refusal;

// What is to be decided.
#[derive(Clone, Copy)]
pub enum Matter {
    // A PDU that reading refuses, and whether it carries its channel's number whole: then it is garbled.
    Unread { why: Refusal, whole: bool },
    // A Capabilities request of a version.
    Caps(u16),
    // What is asked of a channel.
    Asks(Ask),
}

// What a matter comes to: ready or not, the level, and what is done to its channel.
#[derive(Clone, Copy)]
pub struct Decided {
    pub ready: bool,
    pub level: u8,
    pub turn: Turn,
}

// A refusal that concerns no channel, and changes nothing.
fn refuses(ready: bool, level: u8, why: Refusal) -> Decided
    ensures { result ≡ refusing ready level why }
{
    let concern = None;
    let turn = channel::answers(Answer::Refused { why, concern });
    Decided { ready, level, turn }
}

// The level in use: the smaller of the server's version and ours.
fn level_for(version: u16) -> u8
    ensures { result ≡ level_for version }
{
    version.min(OUR_VERSION) as u8
}

// A Capabilities request makes the connection ready.
fn readies(version: u16) -> Decided
    ensures { result ≡ readying version }
{
    let level = level_for(version);
    let turn = Turn {
        change: Change::Stays,
        part: Part::Keeps,
        answer: Answer::Ready { level },
        reply: Reply::Version,
    };
    Decided {
        ready: true,
        level,
        turn,
    }
}

// What a matter comes to, with a block of n bytes beside it. The number, the record and the room are those of its channel,
// and count only where it has one.
pub fn decide(
    ready: bool,
    level: u8,
    number: u32,
    room: bool,
    row: Record,
    matter: Matter,
    n: usize,
) -> Decided
    ensures { result ≡ decided_of ready level number room row matter n }
{
    match matter {
        Matter::Unread { why, whole } => {
            if ready & whole & row.taken {
                let turn = channel::garbles(row, why);
                return Decided { ready, level, turn };
            }
            refuses(ready, level, why)
        }
        Matter::Caps(version) => {
            if ready {
                return refuses(ready, level, Refusal::WrongTime);
            }
            readies(version)
        }
        Matter::Asks(ask) => {
            if !ready {
                return refuses(ready, level, Refusal::WrongTime);
            }
            let turn = channel::act(level, number, room, row, ask, n);
            Decided { ready, level, turn }
        }
    }
}
