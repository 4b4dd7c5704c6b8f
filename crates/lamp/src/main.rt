// The status lamp: prints, after each move, how many channels are open and how many bytes are still to come.
//
// The input is that of `moves`: PDUs from the server, and local closes by the host. The one listener is PUMP.
#![tactic(auto)]

use walking::{Job, Told};

fn main(rt: HostRuntime) {
    stream::program(
        &rt,
        Job::Client(Told::Totals),
        b"PUMP\0",
        b"lamp: takes no arguments, and reads PDUs and local closes from standard input\n",
    );
}
