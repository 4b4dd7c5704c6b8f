// The link: both ends in one process, joined by two queues. Prints what each end answers, call by call.
//
// A record is a leading byte and what follows: what the shore's host does, as in a record of the desk; a local close at the
// panel; a message of either host, and how many of its PDUs are sent; or that the link drops. The panel's one listener is
// PUMP. What a record is, what comes of it and the text of the lines are the work of the crates below.
#![tactic(auto)]

use walking::Job;

fn main(rt: HostRuntime) {
    stream::program(
        &rt,
        Job::Link,
        b"PUMP\0",
        b"link: takes no arguments, and reads records from standard input\n",
    );
}
