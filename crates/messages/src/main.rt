// The messages: prints a line with the bytes of each message that is handed up.
//
// The input is the walker's, and so is the one listener, PUMP. A line has the place of the record that brought the
// message's last bytes, the channel, and the bytes in hexadecimal digits, or `-` for none.
#![tactic(auto)]

use walking::{Job, Told};

fn main(rt: HostRuntime) {
    stream::program(
        &rt,
        Job::Client(Told::Messages),
        b"PUMP\0",
        b"messages: takes no arguments, and reads PDUs from standard input\n",
    );
}
