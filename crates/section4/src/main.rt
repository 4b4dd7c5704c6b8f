// The uncompressed examples of section 4 of [MS-RDPEDYC], stepped, and the steps of the paper's 'Numbers to hold'.
//
// Walks through the files of data/ as the walker does, each with its listener list, and prints the file's name before
// its lines. The files' text is in inputs/. The same examples, read and written, are the stored input of `said`; where
// each is checked is a table of docs/PROMISES.md. What can't be opened, read or written is said on standard error, and
// ends the run.
#![tactic(auto)]

// The files, each with its list. 'Lists: empty is good; one zero byte alone gives 6.'
const FILES: [(&[u8], &[u8]); 4] = [
    (b"examples", b"testdvc\0"),
    (b"numbers", b"testdvc\0"),
    (b"create", b""),
    (b"create", b"\0"),
];

fn main(rt: HostRuntime) {
    for (name, list) in FILES {
        if stream::walk_file(&rt, name, list).is_err() {
            return;
        }
    }
}
