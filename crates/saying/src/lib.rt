// The text of lines of the shore end, and of both ends.
//
// `Told` is what the shore says, with the fields of the client's answer.
// `desk_header` and `desk_line` lay the lines of the shore's walker, `link_header`, `end_word`, `dropped_line` and `bad_line`
// what both ends in one process have beside them. Each lays its bytes at the front of a buffer and answers how many there are. Bytes of the
// buffer behind them stay. A buffer that is too short gets as much as it has room for.
#![tactic(auto)]

ghost use Rattle.std.specs.Prelude.{◌≡◌, ◌+◌, ◌*◌, ◌≤◌, length};
ghost use Rattle.lists.specs.Bytes.{laid};
ghost use Rattle.lines.specs.Decimal.{FIELD_MAX};
ghost use Rattle.lines.specs.Lines.{WORD_MAX, LINE_MAX};
ghost use Rattle.shore.specs.Saying.{word_said, concern_said, number_said};
ghost use Rattle.saying.specs.Saying.{said_field, message_in, desk_header, desk_line_of, END_MAX, link_header};
ghost use Rattle.saying.specs.Saying.{end_field, dropped_line_of, bad_line_of};

use lines::{Handed, Spoken};
use shore::Said;

// An end of the link.
#[derive(Clone, Copy)]
pub enum End {
    Shore,
    Panel,
}

// The most bytes of an end's word: five letters and a space.
pub const END_MAX: usize = 6;

// What the shore says, as a line tells of it.
#[derive(Clone, Copy)]
pub struct Told(pub Said);

impl Spoken for Told {
    ghost word = { λ told. said_field (word_said told.0) };

    ghost concern = { λ told. concern_said told.0 };

    ghost number = { λ told. number_said told.0 };

    ghost message = { λ told. message_in told.0 };

    #[tactic(auto, unfolding(shore::specs::Saying::word_said, crate::specs::Saying::said_field, lines::specs::Lines::word_field))]
    fn word(self) -> &'static [u8] {
        match self.0 {
            Said::Asked { .. } => b"asked ",
            Said::Ready { .. } => b"ready ",
            Said::Awaited { .. } => b"awaited ",
            Said::Opened { .. } => b"opened ",
            Said::Declined { .. } => b"declined ",
            Said::Held { .. } => b"held ",
            Said::Message { .. } => b"message ",
            Said::Closed { .. } => b"closed ",
            Said::Ignored { .. } => b"ignored ",
            Said::Refused { .. } => b"refused ",
        }
    }

    fn concern(self) -> Option<u32> {
        shore::concerns(self.0)
    }

    fn number(self) -> u64 {
        shore::value(self.0)
    }

    #[tactic(auto, unfolding(crate::specs::Saying::message_in))]
    fn message(self) -> Option<Handed> {
        match self.0 {
            Said::Message { number, len } => Some(Handed { number, len }),
            _ => None,
        }
    }
}

// The first line of the shore's walker, which names the fields.
#[tactic(auto, unfolding(crate::specs::Saying::desk_header))]
pub fn desk_header(out: &mut [u8]) -> usize
    ensures value { (result ≡ length desk_header) × (result ≤ LINE_MAX) }
    ensures out_after { out.new ≡ laid out.old 0 desk_header }
{
    lines::text(out, 0, b"event answer channel number sent\n")
}

// The line of a call at the shore: its place, and what is said of it.
#[tactic(auto, unfolding(crate::specs::Saying::desk_line_of, crate::specs::Saying::said_text, lines::specs::Lines::answer_line))]
pub fn desk_line(out: &mut [u8], place: u64, said: Said, sent: usize) -> usize
    ensures value { (result ≡ length (desk_line_of place said sent)) × (result ≤ LINE_MAX) }
    ensures out_after { out.new ≡ laid out.old 0 (desk_line_of place said sent) }
{
    lines::answer_line(out, place, Told(said), sent)
}

// The first line of both ends.
#[tactic(auto, unfolding(crate::specs::Saying::link_header))]
pub fn link_header(out: &mut [u8]) -> usize
    ensures value { (result ≡ length link_header) × (result ≤ LINE_MAX) }
    ensures out_after { out.new ≡ laid out.old 0 link_header }
{
    lines::text(out, 0, b"end event answer channel number sent\n")
}

// The end's word and a space, before the line of a call at that end.
#[tactic(auto, unfolding(crate::specs::Saying::end_field))]
pub fn end_word(out: &mut [u8], end: End) -> usize
    ensures value { (result ≡ length (end_field end)) × (result ≤ END_MAX) }
    ensures out_after { out.new ≡ laid out.old 0 (end_field end) }
{
    match end {
        End::Shore => lines::text(out, 0, b"shore "),
        End::Panel => lines::text(out, 0, b"panel "),
    }
}

// The line of a link that drops: its place and `dropped`.
#[tactic(auto, unfolding(crate::specs::Saying::dropped_line_of))]
pub fn dropped_line(out: &mut [u8], place: u64) -> usize
    ensures value { (result ≡ length (dropped_line_of place)) × (result ≤ LINE_MAX) }
    ensures out_after { out.new ≡ laid out.old 0 (dropped_line_of place) }
{
    lines::placed(out, place, b"dropped\n")
}

// The line of a record that is none: its place and `bad`.
#[tactic(auto, unfolding(crate::specs::Saying::bad_line_of))]
pub fn bad_line(out: &mut [u8], place: u64) -> usize
    ensures value { (result ≡ length (bad_line_of place)) × (result ≤ LINE_MAX) }
    ensures out_after { out.new ≡ laid out.old 0 (bad_line_of place) }
{
    lines::placed(out, place, b"bad\n")
}
