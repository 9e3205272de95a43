// The program `names`: reads commands from standard input, and writes their answers to standard output.
#![tactic(auto)]

use session::Session;
use std::io;
use stream::{Failure, Written};

fn main(rt: HostRuntime) -> io::Result<()> {
    let mut pool = [0; 4849];
    let mut map = [0; 511];
    let session = Session::start(&mut pool, &mut map);
    match stream::play(rt.stdin(), Written(rt.stdout()), session) {
        Ok(()) => Ok(()),
        Err(Failure::NotRead(e)) => eprintln!(rt; "names: standard input: {e}"),
        Err(Failure::NotTaken(e)) => eprintln!(rt; "names: standard output: {e}"),
    }
}
