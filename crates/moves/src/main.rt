// The moves: prints the walker's line for each move, a PDU from the server or a local close by the host.
//
// The input is the walker's, but that a record whose first byte is 0, which no command has, is a local close: behind
// that byte stands the channel's number, little-endian, in up to four bytes. The one listener is PUMP.
#![tactic(auto)]

use walking::{Job, Told};

fn main(rt: HostRuntime) {
    stream::program(
        &rt,
        Job::Client(Told::Moves),
        b"PUMP\0",
        b"moves: takes no arguments, and reads PDUs and local closes from standard input\n",
    );
}
