// The walker: prints a line for each PDU that it reads from standard input.
//
// The input is records, each a PDU after its length in two bytes, little-endian. Its one listener is PUMP. What a
// record is, what the manager answers to its PDU and the text of a line are the work of the crates below.
#![tactic(auto)]

use walking::{Job, Told};

fn main(rt: HostRuntime) {
    stream::program(
        &rt,
        Job::Client(Told::Lines),
        b"PUMP\0",
        b"walker: takes no arguments, and reads PDUs from standard input\n",
    );
}
