// Lookup, and the quick lookup.
#![tactic(auto)]

ghost use Rattle.std.specs.Prelude.{◌≡◌, ℕ};
ghost use Rattle.digits.specs.Choice.{pick};
ghost use Rattle.pool.specs.Refs.{Within};
ghost use Rattle.finding.specs.Lookups.{told, found_end, lookup_of, quick_of, LookupGives, QuickGives};

use digits::Header;
use pool::{Pool, Ref};
use refusals::Refusal;

// What a lookup finds: the value, or why there is none, and how many nodes its walk met with an accepted header.
#[derive(Clone, Copy)]
pub struct Found {
    pub value: Result<u64, Refusal>,
    pub nodes: usize,
}

// What a walk finds that has come to no further node.
fn found_end(pool: &Pool, key: u64, r: Ref) -> Result<u64, Refusal>
    requires { Within pool.now.n r }
    ensures { (m : ℕ) → told record { value = result; nodes = m } ≡ found_end pool.now.words.now key m r }
{
    match r {
        Ref::Leaf(i) if pool.leaf_key(i) == key => Ok(pool.leaf_value(i)),
        Ref::Leaf(_) | Ref::Empty => Err(Refusal::Absent),
        Ref::Node(_) | Ref::Bad => Err(Refusal::Damage),
    }
}

// What the walk along a key finds, and where it is quick the walk that compares stored digits on the way: the first that differs is a miss. Its nodes
// are counted from 0. The walk is made here and not by `walk`, which keeps more than a lookup needs. Which of the two it is is known when it is
// compiled, so that a plain lookup tests nothing more; and no `?` stands in the loop, for behind one the compiler does not know that b is below 16.
fn find<const QUICK: bool>(words: &[u64], key: u64, nodes: &mut usize) -> Result<u64, Refusal>
    requires { nodes.old ≡ 0 }
    ensures { told record { value = result; nodes = nodes.new } ≡ pick QUICK (quick_of words.now key) (lookup_of words.now key) }
{
    let pool = Pool::of(words).ok_or(Refusal::Size)?;
    let mut x = pool.root();
    let mut w: usize = 0;
    while pool::MOST < x {
        let r = pool::reference(pool.n, x);
        let Ref::Node(j) = r else {
            return found_end(&pool, key, r);
        };
        let at = pool::node_word(pool.n, j);
        let word = pool.words[at];
        let Some(b) = walk::accept(w, word) else {
            return Err(Refusal::Damage);
        };
        *nodes += 1;
        if QUICK && Header::differs(word, key) {
            return Err(Refusal::Absent);
        }
        x = pool.words[at + 1 + digits::digit(key, b)];
        w = b + 1;
    }
    let end = pool::reference(pool.n, x);
    found_end(&pool, key, end)
}

// The file number of a key.
pub fn lookup(pool: &[u64], key: u64) -> Found
    ensures { LookupGives pool.now key (told result) }
{
    let mut nodes = 0;
    let value = find::<false>(pool, key, &mut nodes);
    Found { value, nodes }
}

// The same, but stored digits are compared on the way: the first that differs is a miss.
pub fn lookup_quick(pool: &[u64], key: u64) -> Found
    ensures { QuickGives pool.now key (told result) }
{
    let mut nodes = 0;
    let value = find::<true>(pool, key, &mut nodes);
    Found { value, nodes }
}
