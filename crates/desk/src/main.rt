// The desk: the shore's walker. Prints a line for each record that it reads from standard input.
//
// A record is a two-byte length, little-endian, and what follows: 65,533 is the host's request, 65,534 its local open,
// 65,535 its local close, and any other length a PDU of so many bytes from the client. What a record is, what the shore
// answers and the text of a line are the work of the crates below.
#![tactic(auto)]

use walking::Job;

fn main(rt: HostRuntime) {
    stream::program(
        &rt,
        Job::Desk,
        b"",
        b"desk: takes no arguments, and reads records from standard input\n",
    );
}
