// The link log as a host in C calls it.
#![tactic(auto)]

ghost use Rattle.std.specs.Prelude.{◌≡◌};
ghost use Rattle.linklog.specs.Records.{Received, Closed, record_of};
ghost use Rattle.linklog.specs.Taking.{taken_up};
ghost use Rattle.log_face.specs.Words.{log_number, append_number, append_room, turn_number, turn_room, back_number, back_room};

// Appends a received PDU.
#[unsafe(no_mangle)]
pub extern "C" fn dvc_log_append(log: u64, room: &mut [u8], pdu: &[u8]) -> i64
    ensures value { result ≡ append_number log room.old (record_of (Received pdu.now)) }
    ensures room_after { room.new ≡ append_room log room.old (record_of (Received pdu.now)) }
{
    log_face::dvc_log_append(log, room, pdu)
}

// Appends the local close of a number.
#[unsafe(no_mangle)]
pub extern "C" fn dvc_log_close(log: u64, room: &mut [u8], number: u32) -> i64
    ensures value { result ≡ append_number log room.old (record_of (Closed number)) }
    ensures room_after { room.new ≡ append_room log room.old (record_of (Closed number)) }
{
    log_face::dvc_log_close(log, room, number)
}

// Takes a log up again after a stop between two appends, from its last block.
#[unsafe(no_mangle)]
pub extern "C" fn dvc_log_take_up(blocks: u32, block: &[u8]) -> i64
    ensures { result ≡ log_number (taken_up blocks block.now) }
{
    log_face::dvc_log_take_up(blocks, block)
}

// Reads the block of a number, of a log of so many.
#[unsafe(no_mangle)]
pub extern "C" fn dvc_log_read(
    read: u64,
    number: u32,
    blocks: u32,
    block: &[u8],
    room: &mut [u8],
) -> i64
    ensures value { result ≡ turn_number read blocks number block.now room.old }
    ensures room_after { room.new ≡ turn_room read blocks number block.now room.old }
{
    log_face::dvc_log_read(read, number, blocks, block, room)
}

// Takes a log back to the end of the last whole record that was read.
#[unsafe(no_mangle)]
pub extern "C" fn dvc_log_take_back(read: u64, room: &mut [u8]) -> i64
    ensures value { result ≡ back_number read room.old }
    ensures room_after { room.new ≡ back_room read room.old }
{
    log_face::dvc_log_take_back(read, room)
}
