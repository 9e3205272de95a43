// Ways down the tree: the walk along a key, the lowest leaf below a reference, a node's children.
#![tactic(auto)]

ghost use Rattle.std.specs.Prelude.{◌≡◌, ◌+◌, ◌<◌, ◌≤◌};
ghost use Rattle.refusals.specs.declared.Refusal.TheVariants.{Damage};
ghost use Rattle.pool.specs.Refs.{Within};
ghost use Rattle.walk.specs.Faults.{reason_number, out_of_range, bad_header};
ghost use Rattle.walk.specs.Walks.{head_of, Between, root, below, end_of, walk_to, walk_of, children_of, place_of, lowest_child, other_child, lowest_of};

use digits::Header;
use pool::{Pool, Ref};
use refusals::Refusal;

// The branch place that a header word says, if a walk that meets it at depth w accepts it. Depth and length are added wide: in 8 bits 250 + 10
// would be 4. A length over 15 makes b over 15 too.
pub fn accept(w: usize, word: u64) -> Option<usize>
    ensures { (result ≡ head_of w word) × Between w result }
{
    let Header { depth, length } = Header::unpack(word);
    if depth < w {
        return None;
    }
    let b = depth + length;
    if 15 < b {
        return None;
    }
    Some(b)
}

// Why a word is damage.
#[derive(Clone, Copy, PartialEq, Eq)]
pub enum Reason {
    // A reference out of range.
    Range = 1,
    // A header with too small a depth.
    Depth = 2,
    // A header with too large a branch place.
    Branch = 3,
    // All else.
    Form = 4,
}

// A reason by its number.
impl From<Reason> for u64 {
    ghost from_gives = { λ reason k. k ≡ reason_number reason };

    fn from(reason: Reason) -> u64
        ensures { result ≡ reason_number reason }
    {
        reason as u64
    }
}

// Where damage was met and why: a word of the pool, and a reason.
#[derive(Clone, Copy, PartialEq, Eq)]
pub struct Fault {
    pub word: usize,
    pub reason: Reason,
}

impl Fault {
    // The reference in a word is out of range.
    fn out_of_range(word: usize) -> Fault
        ensures { result ≡ out_of_range word }
    {
        Fault {
            word,
            reason: Reason::Range,
        }
    }

    // Why node j is refused at walk depth w: its header, which `accept` did not take.
    pub fn bad_header(n: usize, j: usize, w: usize, header: u64) -> Fault
        requires { (n ≤ 1024) × (j < 1024) }
        ensures { result ≡ bad_header n j w header }
    {
        let reason = if Header::unpack(header).depth < w {
            Reason::Depth
        } else {
            Reason::Branch
        };
        Fault {
            word: pool::node_word(n, j),
            reason,
        }
    }
}

// A call that meets damage, wherever and of whatever kind, is refused for it.
impl From<Fault> for Refusal {
    ghost from_gives = { λ _ r. r ≡ Damage };

    fn from(_fault: Fault) -> Refusal
        ensures { result ≡ Damage }
    {
        Refusal::Damage
    }
}

// Where a walk stands.
#[derive(Clone, Copy)]
pub struct Spot {
    // The word of the reference that it stands at, and the walk depth there.
    pub at: usize,
    pub depth: usize,
    // How many nodes it passed; of the last, its number, the word of the reference to it, and the walk depth there.
    pub nodes: usize,
    pub node: usize,
    pub over: usize,
    pub above: usize,
}

impl Spot {
    fn root() -> Spot
        ensures { result ≡ root }
    {
        Spot {
            at: 1,
            depth: 0,
            nodes: 0,
            node: 0,
            over: 0,
            above: 0,
        }
    }

    // Past node j, which branches at b, to its child c.
    fn past(self, n: usize, j: usize, b: usize, c: usize) -> Spot
        requires { (n ≤ 1024) × (j < 1024) × (b < 16) × (c < 16) × (self.nodes ≤ 16) }
        ensures { result ≡ below n j b c self }
    {
        Spot {
            at: pool::node_word(n, j) + 1 + c,
            depth: b + 1,
            nodes: self.nodes + 1,
            node: j,
            over: self.at,
            above: self.depth,
        }
    }
}

// How a walk ends: at leaf i, at an empty reference, before node j that branches at b, or at damage after so many nodes, with its word and reason.
#[derive(Clone, Copy)]
pub enum End {
    AtLeaf(Spot, usize),
    AtEmpty(Spot),
    Stopped(Spot, usize, usize),
    Damaged(usize, Fault),
}

// The end of a walk that has come to no node.
fn ended(s: Spot, r: Ref) -> End
    ensures { result ≡ end_of s r }
{
    match r {
        Ref::Empty => End::AtEmpty(s),
        Ref::Leaf(i) => End::AtLeaf(s, i),
        Ref::Node(_) | Ref::Bad => End::Damaged(s.nodes, Fault::out_of_range(s.at)),
    }
}

// The walk along a key, but it stops before the first node that branches at or past `stop`.
pub fn walk_to(pool: &Pool, key: u64, stop: usize) -> End
    ensures { result ≡ walk_to pool.now.words.now pool.now.n key stop }
{
    let n = pool.n;
    let mut s = Spot::root();
    loop {
        let at = s.at;
        let r = pool::reference(n, pool.words[at]);
        let Ref::Node(j) = r else {
            return ended(s, r);
        };
        let header = pool.header(j);
        let Some(b) = accept(s.depth, header) else {
            return End::Damaged(s.nodes, Fault::bad_header(n, j, s.depth, header));
        };
        if stop <= b {
            return End::Stopped(s, j, b);
        }
        s = s.past(n, j, b, digits::digit(key, b));
    }
}

// The walk along a key: no node branches at 16.
pub fn walk(pool: &Pool, key: u64) -> End
    ensures { result ≡ walk_of pool.now.words.now pool.now.n key }
{
    walk_to(pool, key, Header::DIGITS)
}

// How many children node j has.
pub fn children(pool: &Pool, j: usize) -> usize
    requires { j + 1 < pool.now.n }
    ensures { result ≡ children_of pool.now.words.now pool.now.n j }
{
    let mut count = 0;
    for r in pool.children(j) {
        count += usize::from(*r != 0); // no branch: so it is compiled to wide compares, which a filter's count is not
    }
    count
}

// The lowest child of node j.
pub fn lowest_child(pool: &Pool, j: usize) -> Option<usize>
    requires { j + 1 < pool.now.n }
    ensures { result ≡ place_of (lowest_child pool.now.words.now pool.now.n j) }
{
    pool.children(j).iter().position(|r| *r != 0)
}

// The lowest child of node j but the one at the word `at`.
pub fn other_child(pool: &Pool, j: usize, at: usize) -> Option<usize>
    requires { j + 1 < pool.now.n }
    ensures { result ≡ place_of (other_child pool.now.words.now pool.now.n j at) }
{
    let first = pool::node_word(pool.n, j) + 1;
    pool.children(j)
        .iter()
        .enumerate()
        .position(|(c, r)| first + c != at && *r != 0)
}

// The key of the lowest leaf below the reference r, which stands in a word, for naming alone, and is met at walk depth w; or damage on the way to it.
pub fn lowest_leaf(pool: &Pool, w: usize, word: usize, r: u64) -> Result<u64, Fault>
    requires { w ≤ 16 }
    ensures { result ≡ lowest_of pool.now.words.now pool.now.n w word r }
{
    let n = pool.n;
    let mut depth = w;
    let mut at = word;
    let mut x = r;
    loop {
        let j = match pool::reference(n, x) {
            Ref::Node(j) => j,
            Ref::Leaf(i) => return Ok(pool.leaf_key(i)),
            Ref::Empty | Ref::Bad => return Err(Fault::out_of_range(at)),
        };
        let header = pool.header(j);
        let Some(b) = accept(depth, header) else {
            return Err(Fault::bad_header(n, j, depth, header));
        };
        let Some(c) = lowest_child(pool, j) else {
            return Err(Fault {
                word: pool::node_word(n, j),
                reason: Reason::Form,
            });
        };
        depth = b + 1;
        at = pool::node_word(n, j) + 1 + c;
        x = pool.child(j, c);
    }
}
