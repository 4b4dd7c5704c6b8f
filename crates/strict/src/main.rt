// The strict reader: says of each PDU that it reads from standard input whether strict reading accepts it.
//
// The input is the walker's, and the one argument says who sent the PDUs, `server` or `client`. A line has the PDU's
// place and `ok`, or its place, `refused` and the refusal's number.
#![tactic(auto)]

ghost use Rattle.std.specs.Prelude.{◌≡◌};
ghost use Rattle.strict.specs.Senders.{named_by};

use files::ARGUMENT;
use walking::Job;

// The words for who sent the PDUs.
const SERVER: &[u8] = b"server";

const CLIENT: &[u8] = b"client";

// Whether the server sent the PDUs, by the word that names who did, or nothing where it names nobody.
fn named(word: &[u8]) -> Option<bool>
    ensures { result ≡ named_by word.now }
{
    if word == SERVER {
        return Some(true);
    }
    if word == CLIENT {
        return Some(false);
    }
    None
}

fn main(rt: HostRuntime) {
    let mut word = [0u8; ARGUMENT];
    // One that is missing or too long comes as nothing, which names nobody.
    let n = files::argument(&rt, 1, &mut word).unwrap_or(0);
    match named(&word[..n]) {
        Some(from_server) if files::arguments(&rt) == 1 => {
            let job = Job::Strict { from_server };
            let _ = stream::run(&rt, job, &mut rt.reader(), b"standard input", b"");
        }
        _ => files::complain(
            &rt,
            b"strict: call it as `strict server` or `strict client`, by who sent the PDUs on standard input\n",
        ),
    }
}
