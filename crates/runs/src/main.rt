// Further runs of the walker: walks through each file that an argument names, and prints the file's name before its
// lines.
//
// The files of data/ are in the walker's format, and its one listener is PUMP here too. A good list can't give refusal
// 6. A file that can't be opened or read is said on standard error, and ends the run.
#![tactic(auto)]

use files::ARGUMENT;

fn main(rt: HostRuntime) {
    let count = files::arguments(&rt);
    if count < 1 {
        files::complain(&rt, b"runs: name the files to walk through\n");
        return;
    }
    for i in 0..count {
        let mut name = [0u8; ARGUMENT];
        let Ok(n) = files::file_name(&rt, i + 1, b"runs: a file's name", &mut name) else {
            return;
        };
        if stream::walk_file(&rt, &name[..n], b"PUMP\0").is_err() {
            return;
        }
    }
}
