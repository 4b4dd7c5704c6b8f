// The build paper's own numbers, each named once: sizes, commands and refusals.
//
// Code takes the names from here, and definitions take the names of specs/Sizes, specs/Commands and
// specs/Refusals. Every use in code is proved to agree with the definition that it meets, so the two can't drift apart.
#![tactic(auto)]

ghost use Rattle.std.specs.Prelude.{◌≡◌};
ghost use Rattle.paper.specs.Refusals.{refusal_number};

// The most bytes that a PDU has, and the fewest that the buffer for a written one has.
pub const PDU_MAX: usize = 1600;

// The most bytes that a message has.
pub const MESSAGE_MAX: usize = 4096;

// The most bytes of a message that is cut into one Data. A longer one begins with a Data First.
pub const WHOLE_MAX: usize = 1590;

// The records of the table, each with its own part of the store, which holds a message.
pub const PARTS: usize = 16;

pub const PART: usize = MESSAGE_MAX;

pub const STORE: usize = PARTS * PART;

// The fewest bytes that a reply buffer has.
pub const REPLY_MIN: usize = 9;

// The most sets of charges in a file of them.
pub const SETS_MAX: u32 = 65536;

// The most bytes that a listener list has.
pub const LIST_MAX: usize = 512;

// Where a count of messages stays once there.
pub const COUNT_MAX: u32 = 4294967295;

// Cmd, the high four bits of a PDU's first byte.
pub const CREATE: u8 = 1;

pub const DATA_FIRST: u8 = 2;

pub const DATA: u8 = 3;

pub const CLOSE: u8 = 4;

pub const CAPABILITIES: u8 = 5;

// Not read. They have a number where Data First and Data have it.
pub const DATA_FIRST_COMPRESSED: u8 = 6;

pub const DATA_COMPRESSED: u8 = 7;

// CreationStatus of a channel that is opened, that no listener is there for, and that no record is free for.
pub const OPENED: i32 = 0;

pub const UNLISTED: i32 = -2147023728;

pub const FULL: i32 = -2147024882;

// Why an entry refuses: the paper's table, with its number and its sentence beside each name.
#[derive(Clone, Copy)]
pub enum Refusal {
    // 1: store, reply or PDU buffer is not of its size, or the table passed in is unsound.
    BadCall = 1,
    // 2: the PDU is empty, or ends inside a field or before the name's zero.
    CutShort = 2,
    // 3: the PDU is longer than 1,600.
    TooLong = 3,
    // 4: Cmd is not 1 to 5.
    NoCommand = 4,
    // 5: width code 3; Capabilities with cbId or Pad not 0, or Version not 1 to 3; bytes after the last field or after
    // the name's zero. On writing: a name with a zero byte, such a Version, a class over 3, or charges other than 0
    // with version 1.
    BadField = 5,
    // 6: Create request with a listener list outside its rule.
    BadList = 6,
    // 7: Capabilities request when already ready; any other readable PDU or a local close when not ready. At the shore: a
    // second request, a Capabilities response that is unasked or comes when ready; any other PDU, a local open or a local
    // close when not ready.
    WrongTime = 7,
    // 8: data or local close for a number that isn't open.
    NotOpen = 8,
    // 9: Create request for a number that is open.
    AlreadyOpen = 9,
    // 10: Data First while a message is being joined.
    StillJoining = 10,
    // 11: Data First with Length over 4,096. On cutting: a message over 4,096. On writing: a PDU that would pass 1,600.
    OverLimit = 11,
    // 12: block longer than what is still to come.
    PastLength = 12,
    // 13: data for a spoiled channel.
    IsSpoiled = 13,
    // 14: cutting: the offset is not a start of a block.
    NoStart = 14,
    // 15: local open with sixteen numbers open or awaited.
    AllTaken = 15,
    // 16: Create response for a number that isn't awaited.
    NotAwaited = 16,
    // 17: report of shares: the file's length is not a multiple of eight, or it has more than 65,536 sets.
    NotSets = 17,
    // 18: strict reading: wide number or Length, or ignored bits set.
    Loose = 18,
    // 19: converting a name: a byte or code point without partner, or UTF-8 that isn't well formed.
    NoPartner = 19,
    // 20: converting a name: the result doesn't fit the lent buffer.
    NoRoom = 20,
    // 21: link log: the record doesn't fit in 65,536 blocks.
    LogFull = 21,
    // 22: link log: the file is not whole blocks, or has more than 65,536.
    NotBlocks = 22,
}

// The refusal's number in the paper's table.
#[tactic(auto, unfolding(crate::specs::Refusals::refusal_number))]
pub fn refusal_number(refusal: Refusal) -> u8
    ensures { result ≡ refusal_number refusal }
{
    refusal as u8
}
