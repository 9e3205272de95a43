// A session from a reader to a writer: reads, lends what it read to the session, and hands on what the session printed.
#![tactic(auto)]

ghost use Rattle.std.specs.Prelude.{◌≡◌, Ok, OnOk};
ghost use Rattle.std.specs.Io.KnownBytes.{Appends, Consumes, IsAtEnd};

use answers::Page;
use session::Session;
use std::io;
use std::io::{ErrorKind, Read, Write};

// Bytes that are read at a time, and bytes of a page: more than a turn prints.
const PAGE: usize = 65536;

// Where the answers go.
pub trait Sink {
    // Hands a text on; fails where it is not taken.
    fn hand_on(&mut self, text: &[u8]) -> io::Result<()>;

    // Fails where more was to come.
    fn at_end(&mut self) -> io::Result<()>;
}

// Answers are written to a writer.
#[derive(Drop)]
pub struct Written<W>(pub W);

impl<W: Write> Sink for Written<W> {
    fn hand_on(&mut self, text: &[u8]) -> io::Result<()>
        ensures { OnOk result (Appends (W.contents self.old.0) (W.contents self.new.0) text.now) }
    {
        self.0.write_all(text)
    }

    fn at_end(&mut self) -> io::Result<()>
        ensures result { result ≡ Ok tt }
        ensures writer { self.new ≡ self.old }
    {
        Ok(())
    }
}

// Answers are held against what is read from a reader.
#[derive(Drop)]
pub struct Expected<R>(pub R);

impl<R: Read> Sink for Expected<R> {
    fn hand_on(&mut self, text: &[u8]) -> io::Result<()>
        ensures { OnOk result (Consumes (R.remaining self.old.0) (R.remaining self.new.0) text.now) }
    {
        let mut space = [0; PAGE];
        let space = space.get_mut(..text.len()).ok_or_else(not_as_expected)?;
        self.0.read_exact(space)?;
        if text != &*space {
            return Err(not_as_expected());
        }
        Ok(())
    }

    fn at_end(&mut self) -> io::Result<()>
        ensures { OnOk result (IsAtEnd (R.remaining self.new.0)) }
    {
        match self.0.read(&mut [0])? {
            0 => Ok(()),
            _ => Err(not_as_expected()),
        }
    }
}

// What comes of a text that is not the expected one.
fn not_as_expected() -> io::Error {
    io::Error::new(ErrorKind::InvalidData, "not as expected")
}

// Why a run stopped before its end: a read failed, or a text was not taken.
#[derive(Debug, Drop)]
pub enum Failure {
    NotRead(io::Error),
    NotTaken(io::Error),
}

// Takes all the bytes of a piece of the input, a page at a time.
#[tactic(auto, using(session::proofs::Prints::run_few, session::proofs::Prints::run_moves))]
fn pass<S: Sink>(
    sink: &mut S,
    session: &mut Session,
    input: &[u8],
    bytes: &mut [u8; PAGE],
) -> io::Result<()> {
    let mut page = Page::new(bytes);
    let mut rest = input;
    while !rest.is_empty() {
        let used = session.run(rest, &mut page);
        sink.hand_on(page.filled())?;
        page.clear();
        rest = &rest[used..];
    }
    Ok(())
}

// Takes the end of the input; fails where not all that was printed is taken.
fn close<S: Sink>(sink: &mut S, session: &mut Session, bytes: &mut [u8; PAGE]) -> io::Result<()> {
    let mut page = Page::new(bytes);
    session.finish(&mut page);
    sink.hand_on(page.filled())?;
    sink.at_end()
}

// Runs a session on all that can be read from `source`. A loop that is proved to end counts its turns, to a number that no run reaches.
pub fn play<R: Read + Drop, S: Sink + Drop>(
    mut source: R,
    mut sink: S,
    mut session: Session,
) -> Result<(), Failure> {
    let mut input = [0; PAGE];
    let mut bytes = [0; PAGE];
    for _ in 0..u64::MAX {
        let n = source.read(&mut input).map_err(Failure::NotRead)?;
        if n == 0 {
            break;
        }
        pass(&mut sink, &mut session, &input[..n], &mut bytes).map_err(Failure::NotTaken)?;
    }
    close(&mut sink, &mut session, &mut bytes).map_err(Failure::NotTaken)
}
