// The text of the programs' lines.
//
// A `Pen` has a buffer and a place in it, and lays text after text there: a number's field, a channel, the fields of an answer, bytes.
// What an answer is to a line, its word, channel, number and message, is the trait `Spoken`, which the client's answer has here.
//
// `header` lays the walker's first line, `line` the line of one PDU from its place, its answer and its reply's length, `answer`
// the same without its place, `answer_line` the same for any answer that is `Spoken`, `cut_line` the line of a last record that is
// cut short, and `placed` that of a place and any such word; `message_line` lays the line of a message handed up;
// `reading_header` and `reading_line` lay the lines of PDUs that are only read, `totals_header` and `totals_line` those of
// the connection's totals. Each lays its bytes at the front of a
// buffer and answers how many there are; `field`, `channel`, `text`, `bytes_field` and `refused`, of which lines are made, lay theirs from
// any place on, and `hex_byte` gives its two. Bytes of the buffer behind them stay. A buffer that is too short gets as much as it has room for.
#![tactic(auto)]

ghost use Rattle.std.specs.Prelude.{◌≡◌, ℕ, ◌+◌, ◌*◌, ◌≤◌, ◌<◌, List, Option, length, take, drop};
ghost use Rattle.paper.specs.Sizes.{MESSAGE_MAX};
ghost use Rattle.lists.specs.Bytes.{laid};
ghost use Rattle.channel.specs.Answers.{word_of, concern_of, number_of};
ghost use Rattle.lines.specs.Decimal.{FIELD_MAX, field};
ghost use Rattle.lines.specs.Hex.{hex_digit, hex_byte, hex_of, bytes_field};
ghost use Rattle.lines.specs.Lines.{WORD_MAX, ANSWER_MAX, LINE_MAX, header_line, word_field, channel_field, fields_text};
ghost use Rattle.lines.specs.Lines.{answer_fields, answer_line, line_of, placed_line, cut_line_of};
ghost use Rattle.lines.specs.Lines.{message_line_of, MESSAGE_LINE_MAX, reading_header, REFUSED_MAX, refused_line, verdict_field, reading_line_of};
ghost use Rattle.lines.specs.Lines.{totals_header, totals_line_of};
ghost use Rattle.lines.specs.Pen.{Lays};
ghost use Rattle.lines.specs.declared.Handed.{Handed};
ghost use Rattle.lines.specs.Spoken.{message_of};

use channel::Answer;
use paper::MESSAGE_MAX;

// A number's field has at most twenty digits and the byte that ends it.
pub const FIELD_MAX: usize = 21;

// A word's field has at most eight letters and a space.
const WORD_MAX: usize = 9;

// The most bytes of an answer's fields: three numbers and a word.
pub const ANSWER_MAX: usize = 3 * FIELD_MAX + WORD_MAX;

// The most bytes that a line has: four numbers and a word.
pub const LINE_MAX: usize = FIELD_MAX + ANSWER_MAX;

// The most bytes of a refusal's line: a word and a number.
pub const REFUSED_MAX: usize = WORD_MAX + FIELD_MAX;

// The most bytes that a message's line has: two numbers, two digits a byte, and its end.
pub const MESSAGE_LINE_MAX: usize = 2 * FIELD_MAX + 2 * MESSAGE_MAX + 1;

// A number's field, from a place on. Answers its length.
pub fn field(out: &mut [u8], at: usize, n: u64, end: u8) -> usize
    ensures value { (result ≡ length (field n end)) × (result ≤ FIELD_MAX) }
    ensures out_after { out.new ≡ laid out.old at (field n end) }
{
    let mut bytes = [end; FIELD_MAX];
    let start = itoa::write_digits(n, &mut bytes, FIELD_MAX - 1);
    text(out, at, &bytes[start..])
}

// Text, from a place on. Answers its length.
pub fn text(out: &mut [u8], at: usize, bytes: &[u8]) -> usize
    ensures value { result ≡ length bytes.now }
    ensures out_after { out.new ≡ laid out.old at bytes.now }
{
    lists::copy_at(out, at, bytes);
    bytes.len()
}

// The channel's number and a space, or `- `, from a place on. Answers its length.
pub fn channel(out: &mut [u8], at: usize, concern: Option<u32>) -> usize
    ensures value { (result ≡ length (channel_field concern)) × (result ≤ FIELD_MAX) }
    ensures out_after { out.new ≡ laid out.old at (channel_field concern) }
{
    match concern {
        None => text(out, at, b"- "),
        Some(n) => field(out, at, n as u64, b' '),
    }
}

// A hexadecimal digit's code, lower case.
fn hex_digit(d: u8) -> u8
    requires { d < 16 }
    ensures { result ≡ hex_digit d }
{
    if d < 10 { b'0' + d } else { b'a' - 10 + d }
}

// A byte's two digits.
pub fn hex_byte(byte: u8) -> [u8; 2]
    ensures { result ≡ hex_byte byte }
{
    [hex_digit(byte / 16), hex_digit(byte % 16)]
}

// A message that an answer hands up: its channel, and how many bytes it has.
#[derive(Clone, Copy)]
pub struct Handed {
    pub number: u32,
    pub len: usize,
}

// An answer that a line tells of: the client's, and the shore's.
pub trait Spoken: Copy {
    // Its word and a space, the channel that it concerns, its number, and the message that it hands up.
    ghost word: { Self → List ℕ };

    ghost concern: { Self → Option ℕ };

    ghost number: { Self → ℕ };

    ghost message: { Self → Option Handed };

    fn word(self) -> &'static [u8]
        ensures value { result.now ≡ word self }
        ensures within { length result.now ≤ WORD_MAX };

    fn concern(self) -> Option<u32>
        ensures { result ≡ concern self };

    fn number(self) -> u64
        ensures { result ≡ number self };

    fn message(self) -> Option<Handed>
        ensures { result ≡ message self };
}

impl Spoken for Answer {
    ghost word = { λ answer. word_field (word_of answer) };

    ghost concern = { concern_of };

    ghost number = { number_of };

    ghost message = { message_of };

    #[tactic(auto, unfolding(channel::specs::Answers::word_of, crate::specs::Lines::word_field))]
    fn word(self) -> &'static [u8] {
        match self {
            Answer::Ready { .. } => b"ready ",
            Answer::Opened { .. } => b"opened ",
            Answer::Declined { .. } => b"declined ",
            Answer::Held { .. } => b"held ",
            Answer::Message { .. } => b"message ",
            Answer::Closed { .. } => b"closed ",
            Answer::Ignored { .. } => b"ignored ",
            Answer::Refused { .. } => b"refused ",
        }
    }

    fn concern(self) -> Option<u32> {
        channel::concerns(self)
    }

    fn number(self) -> u64 {
        channel::value(self)
    }

    #[tactic(auto, unfolding(crate::specs::Spoken::message_of))]
    fn message(self) -> Option<Handed> {
        match self {
            Answer::Message { number, len } => Some(Handed { number, len }),
            _ => None,
        }
    }
}

// A buffer, and the place where its text goes on. Each method lays a text there, and the place is behind it then. It stops at the
// greatest `usize`, past the end of any buffer.
#[derive(Drop)]
pub struct Pen<'a> {
    pub out: &'a mut [u8],
    pub at: usize,
}

impl<'a> Pen<'a> {
    pub fn text(&mut self, bytes: &[u8])
        ensures { Lays self.old self.new bytes.now (length bytes.now) }
    {
        self.at = self.at.saturating_add(text(self.out, self.at, bytes));
    }

    // A number's field.
    pub fn field(&mut self, n: u64, end: u8)
        ensures { Lays self.old self.new (field n end) FIELD_MAX }
    {
        self.at = self.at.saturating_add(field(self.out, self.at, n, end));
    }

    // The channel's number and a space, or `- `.
    pub fn channel(&mut self, concern: Option<u32>)
        ensures { Lays self.old self.new (channel_field concern) FIELD_MAX }
    {
        self.at = self.at.saturating_add(channel(self.out, self.at, concern));
    }

    // The fields of an answer: its word, channel and number, and the length of what is sent with the byte that ends them.
    pub fn answer<T: Spoken>(&mut self, answer: T, sent: usize, end: u8)
        ensures { Lays self.old self.new (fields_text (T.word answer) (T.concern answer) (T.number answer) sent end) ANSWER_MAX }
    {
        self.text(answer.word());
        self.channel(answer.concern());
        self.field(answer.number(), b' ');
        self.field(sent as u64, end);
    }

    // The digits of bytes.
    fn hex(&mut self, bytes: &[u8])
        requires { length bytes.now ≤ MESSAGE_MAX }
        ensures { Lays self.old self.new (hex_of bytes.now) (2 * MESSAGE_MAX) }
    {
        for &byte in bytes {
            self.text(&hex_byte(byte));
        }
    }

    // The bytes of a message, or `-` for none.
    fn message_bytes(&mut self, bytes: &[u8])
        requires { length bytes.now ≤ MESSAGE_MAX }
        ensures { Lays self.old self.new (bytes_field bytes.now) (2 * MESSAGE_MAX) }
    {
        if bytes.len() == 0 {
            self.text(b"-");
            return;
        }
        self.hex(bytes);
    }

    // The bytes of a message or of a PDU, at most 4,096: two digits each, and `-` for none.
    pub fn bytes(&mut self, bytes: &[u8])
        ensures { Lays self.old self.new (bytes_field (take MESSAGE_MAX bytes.now)) (2 * MESSAGE_MAX) }
    {
        let n = MESSAGE_MAX.min(bytes.len());
        self.message_bytes(&bytes[..n]);
    }

    // `refused` and a refusal's number.
    pub fn refused(&mut self, refusal: u8)
        ensures { Lays self.old self.new (refused_line refusal) REFUSED_MAX }
    {
        self.text(b"refused ");
        self.field(refusal as u64, b'\n');
    }

    // What reading said: `ok` where the refusal's number is 0, and else the refusal.
    fn verdict(&mut self, refusal: u8)
        ensures { Lays self.old self.new (verdict_field refusal) REFUSED_MAX }
    {
        if refusal == 0 {
            self.text(b"ok\n");
            return;
        }
        self.refused(refusal);
    }
}

// The first line, which names the fields.
#[tactic(auto, unfolding(crate::specs::Lines::header_line))]
pub fn header(out: &mut [u8]) -> usize
    ensures value { (result ≡ length header_line) × (result ≤ LINE_MAX) }
    ensures out_after { out.new ≡ laid out.old 0 header_line }
{
    text(out, 0, b"pdu answer channel number reply\n")
}

// The fields of an answer, with the byte that ends them.
pub fn answer(out: &mut [u8], answer: Answer, sent: usize, end: u8) -> usize
    ensures value { (result ≡ length (answer_fields answer sent end)) × (result ≤ ANSWER_MAX) }
    ensures out_after { out.new ≡ laid out.old 0 (answer_fields answer sent end) }
{
    let mut pen = Pen { out, at: 0 };
    pen.answer(answer, sent, end);
    pen.at
}

// The line of an answer: its place, and its fields.
pub fn answer_line<T: Spoken>(out: &mut [u8], place: u64, answer: T, sent: usize) -> usize
    ensures value { (result ≡ length (answer_line place (T.word answer) (T.concern answer) (T.number answer) sent)) × (result ≤ LINE_MAX) }
    ensures out_after { out.new ≡ laid out.old 0 (answer_line place (T.word answer) (T.concern answer) (T.number answer) sent) }
{
    let mut pen = Pen { out, at: 0 };
    pen.field(place, b' ');
    pen.answer(answer, sent, b'\n');
    pen.at
}

// The line of a PDU: its place, and the fields of its answer.
#[tactic(auto, unfolding(crate::specs::Lines::line_of, crate::specs::Lines::answer_fields, crate::specs::Lines::answer_line))]
pub fn line(out: &mut [u8], place: u64, answer: Answer, sent: usize) -> usize
    ensures value { (result ≡ length (line_of place answer sent)) × (result ≤ LINE_MAX) }
    ensures out_after { out.new ≡ laid out.old 0 (line_of place answer sent) }
{
    answer_line(out, place, answer, sent)
}

// The line of a place and a word, which has its end with it. It has at most `LINE_MAX` bytes where the word has at most eight letters.
pub fn placed(out: &mut [u8], place: u64, word: &[u8]) -> usize
    ensures value { (result ≡ length (placed_line place word.now)) × (length word.now ≤ WORD_MAX → result ≤ LINE_MAX) }
    ensures out_after { out.new ≡ laid out.old 0 (placed_line place word.now) }
{
    let mut pen = Pen { out, at: 0 };
    pen.field(place, b' ');
    pen.text(word);
    pen.at
}

// The line of a last record that is cut short: its place and `cut`.
#[tactic(auto, unfolding(crate::specs::Lines::cut_line_of))]
pub fn cut_line(out: &mut [u8], place: u64) -> usize
    ensures value { (result ≡ length (cut_line_of place)) × (result ≤ LINE_MAX) }
    ensures out_after { out.new ≡ laid out.old 0 (cut_line_of place) }
{
    placed(out, place, b"cut\n")
}

// The bytes of a message or of a PDU, at most 4,096, from a place on: two digits each, and `-` for none. Answers how many there are.
pub fn bytes_field(out: &mut [u8], at: usize, bytes: &[u8]) -> usize
    ensures value { (result ≡ length (bytes_field (take MESSAGE_MAX bytes.now))) × (result ≤ 2 * MESSAGE_MAX) }
    ensures out_after { out.new ≡ laid out.old at (bytes_field (take MESSAGE_MAX bytes.now)) }
{
    let from = at.min(out.len());
    let mut pen = Pen { out, at: from };
    pen.bytes(bytes);
    pen.at - from
}

// The line of a message handed up: the place of the record that brought it, its channel, and its bytes, at most 4,096.
pub fn message_line(out: &mut [u8], place: u64, number: u32, bytes: &[u8]) -> usize
    ensures value { (result ≡ length (message_line_of place number bytes.now)) × (result ≤ MESSAGE_LINE_MAX) }
    ensures out_after { out.new ≡ laid out.old 0 (message_line_of place number bytes.now) }
{
    let mut pen = Pen { out, at: 0 };
    pen.field(place, b' ');
    pen.field(number as u64, b' ');
    pen.bytes(bytes);
    pen.text(b"\n");
    pen.at
}

// The first line of a run that only reads.
#[tactic(auto, unfolding(crate::specs::Lines::reading_header))]
pub fn reading_header(out: &mut [u8]) -> usize
    ensures value { (result ≡ length reading_header) × (result ≤ LINE_MAX) }
    ensures out_after { out.new ≡ laid out.old 0 reading_header }
{
    text(out, 0, b"pdu reading\n")
}

// `refused` and a refusal's number, from a place on. Answers its length. Any number may be told, so it is no `Refusal`.
pub fn refused(out: &mut [u8], at: usize, refusal: u8) -> usize
    ensures value { (result ≡ length (refused_line refusal)) × (result ≤ REFUSED_MAX) }
    ensures out_after { out.new ≡ laid out.old at (refused_line refusal) }
{
    let from = at.min(out.len());
    let mut pen = Pen { out, at: from };
    pen.refused(refusal);
    pen.at - from
}

// The line of a PDU that was read: its place, and what reading said of it. Any number may be told, so it is no `Option<Refusal>`.
pub fn reading_line(out: &mut [u8], place: u64, refusal: u8) -> usize
    ensures value { (result ≡ length (reading_line_of place refusal)) × (result ≤ LINE_MAX) }
    ensures out_after { out.new ≡ laid out.old 0 (reading_line_of place refusal) }
{
    let mut pen = Pen { out, at: 0 };
    pen.field(place, b' ');
    pen.verdict(refusal);
    pen.at
}

// The first line of the totals.
#[tactic(auto, unfolding(crate::specs::Lines::totals_header))]
pub fn totals_header(out: &mut [u8]) -> usize
    ensures value { (result ≡ length totals_header) × (result ≤ LINE_MAX) }
    ensures out_after { out.new ≡ laid out.old 0 totals_header }
{
    text(out, 0, b"pdu channels awaited\n")
}

// The line of the totals after a PDU: its place, the open channels, and the bytes still to come.
pub fn totals_line(out: &mut [u8], place: u64, channels: u32, awaited: u32) -> usize
    ensures value { (result ≡ length (totals_line_of place channels awaited)) × (result ≤ LINE_MAX) }
    ensures out_after { out.new ≡ laid out.old 0 (totals_line_of place channels awaited) }
{
    let mut pen = Pen { out, at: 0 };
    pen.field(place, b' ');
    pen.field(channels as u64, b' ');
    pen.field(awaited as u64, b'\n');
    pen.at
}
