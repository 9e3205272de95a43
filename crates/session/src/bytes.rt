// Bytes of the input for a session that its caller keeps in parts: a reader, a pool, a map, and bytes for a page.
ghost use Rattle.std.specs.Prelude.{◌≡◌, ◌≤◌, [], length};
ghost use Rattle.answers.specs.Answers.{page, filled_to};
ghost use Rattle.turns.specs.Turns.{memory, acted, turned};
ghost use Rattle.session.specs.Bytes.{session, last_turn, stream, going, run_of};

use crate::Session;
use answers::Page;
use script::Reader;

// How far a run came: the bytes of the input that it took, up to where it filled the page, and the reader then.
#[derive(Clone, Copy)]
pub struct Progress {
    pub used: usize,
    pub end: usize,
    pub reader: Reader,
}

// Takes bytes of the input as long as the page, which is empty at the start, has room for what any turn prints.
pub fn run(
    reader: Reader,
    input: &[u8],
    pool: &mut [u64],
    map: &mut [u8],
    out: &mut [u8],
) -> Progress
    ensures within { result.end ≤ length out.new }
    ensures going { going result.used (stream (session result.reader (memory pool.new map.new)) (filled_to result.end out.new)) ≡ run_of input.now (stream (session reader (memory pool.old map.old)) (page [] out.old)) }
{
    let mut session = Session::on(reader, pool, map);
    let mut page = Page::new(out);
    let used = session.run(input, &mut page);
    // Copied from behind a reference: a reader taken out of the session would leave it in parts, of which nothing is told when they end.
    let reader = &session.reader;
    Progress {
        used,
        end: page.end,
        reader: *reader,
    }
}

// Takes the end of the input: the last line may lack its newline. Up to where the page, which is empty at the start, is filled.
pub fn finish(reader: Reader, pool: &mut [u64], map: &mut [u8], out: &mut [u8]) -> usize
    ensures within { result ≤ length out.new }
    ensures acted { acted pool.new map.new (filled_to result out.new) ≡ turned (last_turn (session reader (memory pool.old map.old))) (memory pool.old map.old) (page [] out.old) }
{
    let mut session = Session::on(reader, pool, map);
    let mut page = Page::new(out);
    session.finish(&mut page);
    page.end
}
