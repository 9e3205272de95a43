// A session of `names`: how it starts, and what the bytes of its input do.
#![tactic(auto)]

ghost use Rattle.std.specs.Prelude.{◌≡◌};
ghost use Rattle.script.specs.Input.{begun};
ghost use Rattle.writing.specs.Calls.{formatted};
ghost use Rattle.answers.specs.Answers.{on};
ghost use Rattle.turns.specs.Turns.{memory};
ghost use Rattle.session.specs.Bytes.{session, held, Same, stream, on_byte, on_end, going, run_of};
ghost use Rattle.session.specs.Outputs.{started_in};

mod bytes;

use answers::Page;
pub use bytes::{Progress, finish, run};
pub use script::LINE;
use script::Reader;

// Words of a session's pool.
pub const WORDS: usize = 4849;

// Bytes of its map.
pub const BYTES: usize = 511;

// Bytes that a turn prints, at most: 256 entries of 40 bytes, and their count, which is 23.
const MOST: usize = 10263;

// The pool and the map, whatever they hold, are formatted with N = 256, which is not refused.
#[tactic(auto, unfolding(writing::specs::Calls::format_of, pool::specs::Sizes::size_of))]
pub fn start(pool: &mut [u64; WORDS], map: &mut [u8; BYTES])
    ensures { formatted 0 pool.new map.new ≡ started_in pool.old map.old }
{
    let _ = writing::format(pool, map, 256);
}

// The reader of the input, and the pool and the map that it was lent, on which its turns act. Its caller knows what these hold once it is over, since each function that takes a session ensures that it still holds the same ones.
#[derive(Drop)]
pub struct Session<'a> {
    pub reader: Reader,
    pub pool: &'a mut [u64],
    pub map: &'a mut [u8],
}

impl<'a> Session<'a> {
    // Before the first byte, on a pool and a map that are formatted.
    pub fn start(pool: &'a mut [u64; WORDS], map: &'a mut [u8; BYTES]) -> Session<'a>
        ensures reader { (held result).reader ≡ begun }
        ensures memory { formatted 0 (held result).memory.pool (held result).memory.map ≡ started_in pool.old map.old }
    {
        start(pool, map);
        Session::on(Reader::new(), pool, map)
    }

    // A session that goes on from a reader, over any pool and map.
    pub fn on(reader: Reader, pool: &'a mut [u64], map: &'a mut [u8]) -> Session<'a>
        ensures pool { result.pool.ghost_name ≡ pool.entry.ghost_name }
        ensures map { result.map.ghost_name ≡ map.entry.ghost_name }
        ensures held { held result ≡ session reader (memory pool.old map.old) }
    {
        Session { reader, pool, map }
    }

    // Takes one byte of the input, and carries out what it asks for.
    fn take(&mut self, byte: u8, page: &mut Page)
        ensures same { Same self.old self.new }
        ensures page { page.new.bytes.ghost_name ≡ page.old.bytes.ghost_name }
        ensures stream { stream (held self.new) (on page.new) ≡ on_byte byte (stream (held self.old) (on page.old)) }
    {
        let turn = self.reader.take(byte);
        turns::perform(turn, self.pool, self.map, page);
    }

    // Takes bytes of the input as long as the page has room for what any turn prints. How many it took.
    #[tactic(auto, using(crate::proofs::Runs::run_on, crate::proofs::Runs::run_full, crate::proofs::Runs::run_ended))]
    pub fn run(&mut self, input: &[u8], page: &mut Page) -> usize
        ensures same { Same self.old self.new }
        ensures page { page.new.bytes.ghost_name ≡ page.old.bytes.ghost_name }
        ensures going { going result (stream (held self.new) (on page.new)) ≡ run_of input.now (stream (held self.old) (on page.old)) }
    {
        for (used, byte) in input.iter().enumerate() {
            if page.room() < MOST {
                return used;
            }
            self.take(*byte, page);
        }
        input.len()
    }

    // Takes the end of the input: the last line may lack its newline.
    pub fn finish(&mut self, page: &mut Page)
        ensures same { Same self.old self.new }
        ensures page { page.new.bytes.ghost_name ≡ page.old.bytes.ghost_name }
        ensures stream { stream (held self.new) (on page.new) ≡ on_end (stream (held self.old) (on page.old)) }
    {
        let turn = self.reader.end();
        turns::perform(turn, self.pool, self.map, page);
    }
}
