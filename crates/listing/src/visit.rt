// A listing on its way: a visit of a reference, and of a node's sixteen references, lowest first.

ghost use Rattle.std.specs.Prelude.{◌≡◌, ◌+◌, ◌-◌, ◌<◌, ◌≤◌, length};

use digits::Header;
use pool::{Pool, Ref};

// Why a visit is over before its end.
#[derive(Clone, Copy)]
pub enum Stop {
    // A further entry was found.
    Further,
    // Damage was met.
    Damage,
}

// A listing on its way: the key from which on it hands out entries, the buffers that take them, how many it handed out, and how many leaves it met.
#[derive(Drop)]
pub struct Listing<'a> {
    pub from: u64,
    pub keys: &'a mut [u64],
    pub values: &'a mut [u64],
    pub count: usize,
    pub met: usize,
    pub ghost alike: { length keys.now ≡ length values.now },
}

impl<'a> Listing<'a> {
    ghost use Rattle.listing.specs.Listings.{Same, visited, leaf_of, node_of, visit_from};

    // A leaf is met.
    #[tactic(auto, unfolding(crate::specs::Listings::leaf_of))]
    fn leaf(&mut self, n: usize, key: u64, value: u64) -> Result<(), Stop>
        ensures same { Same self.old self.new }
        ensures met { visited self.new result ≡ leaf_of n self.old.from key value (visited self.old (Ok tt)) }
    {
        if n <= self.met {
            return Err(Stop::Damage);
        }
        self.met += 1;
        if key < self.from {
            return Ok(());
        }
        let count = self.count;
        if self.keys.len() <= count {
            return Err(Stop::Further);
        }
        self.keys[count] = key;
        self.values[count] = value;
        self.count = count + 1;
        Ok(())
    }

    // The reference r is visited, with so many digits left: it is met at walk depth 16 - left. Compiled it is a part of its callers, so that a leaf
    // costs no call.
    #[inline(always)]
    #[cycle(visit)]
    pub fn visit_ref(&mut self, pool: &Pool, left: usize, r: u64) -> Result<(), Stop>
        requires { left ≤ 16 }
        ensures same { Same self.old self.new }
        ensures met { visited self.new result ≡ visit_from 17 pool.now.words.now pool.now.n self.old.from (16 - left) r (visited self.old (Ok tt)) }
    {
        match pool::reference(pool.n, r) {
            Ref::Empty => Ok(()),
            Ref::Leaf(i) => self.leaf(pool.n, pool.leaf_key(i), pool.leaf_value(i)),
            Ref::Node(j) => self.visit_node(pool, left, j),
            Ref::Bad => Err(Stop::Damage),
        }
    }

    // Node j is visited, with so many digits left: its children have fewer. Nothing is read after the stop.
    #[cycle(visit)]
    fn visit_node(&mut self, pool: &Pool, left: usize, j: usize) -> Result<(), Stop>
        requires { (left ≤ 16) × (j + 1 < pool.now.n) }
        ensures same { Same self.old self.new }
        ensures met { visited self.new result ≡ node_of (visit_from 17 pool.now.words.now pool.now.n self.old.from) pool.now.words.now pool.now.n (16 - left) j (visited self.old (Ok tt)) }
    {
        let Some(b) = walk::accept(Header::DIGITS - left, pool.header(j)) else {
            return Err(Stop::Damage);
        };
        // The lowest is enough: to count all sixteen takes longer than to visit them.
        if walk::lowest_child(pool, j).is_none() {
            return Err(Stop::Damage);
        }
        for r in pool.children(j) {
            if *r != 0 {
                self.visit_ref(pool, Header::DIGITS - 1 - b, *r)?;
            }
        }
        Ok(())
    }
}
