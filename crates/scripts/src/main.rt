// Runs the scripts that standard input names, each with the file of its answers, and says whether `names` answers so.
#![tactic(auto)]

ghost use Rattle.std.specs.Prelude.{◌≤◌, length, IfOk};

use session::Session;
use std::fs::File;
use std::io;
use std::io::Read;
use std::rt::Files;
use std::str::from_utf8;
use stream::{Expected, Failure};

// Runs a script on a new pool, and holds its answers against those expected.
fn run<F: Read + Drop>(rt: &impl Print, script: &str, source: F, expected: F) -> io::Result<()> {
    let mut pool = [0; 4849];
    let mut map = [0; 511];
    let session = Session::start(&mut pool, &mut map);
    let what = match stream::play(source, Expected(expected), session) {
        Ok(()) => "answers as expected",
        Err(Failure::NotRead(_)) => "is not read",
        Err(Failure::NotTaken(_)) => "does not answer as expected",
    };
    println!(rt; "{script} {what}")
}

fn run_named(rt: &(impl Files + Print + Eprint), script: &[u8], answers: &[u8]) -> io::Result<()> {
    let (Ok(script), Ok(answers)) = (from_utf8(script), from_utf8(answers)) else {
        return eprintln!(rt; "the name of a file that is not text");
    };
    let source = match File::open(rt, script) {
        Ok(source) => source,
        Err(e) => return eprintln!(rt; "{script}: {e}"),
    };
    let expected = match File::open(rt, answers) {
        Ok(expected) => expected,
        Err(e) => return eprintln!(rt; "{answers}: {e}"),
    };
    run(rt, script, source, expected)
}

// The lines of the list: a script, and the file of its answers.
fn run_all(rt: &(impl Files + Print + Eprint), list: &[u8]) -> io::Result<()> {
    let mut lines = list.split(|byte| *byte == b'\n');
    while let (Some(script), Some(answers)) = (lines.next(), lines.next()) {
        run_named(rt, script, answers)?;
    }
    Ok(())
}

// Reads until the buffer is full or the input ends; fails where a read fails, also where it was interrupted. How many bytes were read.
fn read_full(source: &mut impl Read, buf: &mut [u8]) -> io::Result<usize>
    ensures { IfOk result (λ n. n ≤ length buf.new) }
{
    let len = buf.len();
    let mut free = buf;
    while !free.is_empty() {
        let n = source.read(free)?;
        if n == 0 {
            break;
        }
        free = &mut free[n..];
    }
    Ok(len - free.len())
}

fn main(rt: HostRuntime) -> io::Result<()> {
    let mut list = [0; 4096];
    let n = read_full(&mut rt.stdin(), &mut list)?;
    run_all(&rt, &list[..n])
}
