// A pool's sizes, references and places. All later code takes them from these functions.
#![tactic(auto)]

ghost use Rattle.std.specs.Prelude.{◌≡◌, ◌+◌, ◌<◌, ◌≤◌, None, Some, MatchOption, length};
ghost use Rattle.pool.specs.Sizes.{size_of, capacity_of, bytes_of, Sized, Measured, Mapped};
ghost use Rattle.pool.specs.Places.{word_at, leaf_word, node_word, key_at, value_at, header_at, child_at, children_at, leaf_ref, node_ref};
ghost use Rattle.pool.specs.Refs.{ref_of, Within};

use digits::Header;

// Leaves of a pool, at most.
pub const MOST: u64 = 1024;

// The leaves that a run of so many words holds, if it is the size of a pool of n leaves. N is judged before 19N - 15 is formed.
pub fn size_of(words: usize, n: u64) -> Option<usize>
    ensures { result ≡ size_of words n }
{
    if n < 1 {
        return None;
    }
    if MOST < n {
        return None;
    }
    let leaves = n as usize;
    if words == 19 * leaves - 15 {
        Some(leaves)
    } else {
        None
    }
}

// The capacity of a pool, if its length and word 0 agree.
pub fn capacity(pool: &[u64]) -> Option<usize>
    ensures { (result ≡ capacity_of pool.now) × Measured pool.now result }
{
    if pool.is_empty() {
        return None;
    }
    size_of(pool.len(), pool[0])
}

// What a reference means.
#[derive(Clone, Copy)]
pub enum Ref {
    Empty,
    Leaf(usize),
    Node(usize),
    Bad,
}

// What the reference r means in a pool of n leaves.
pub fn reference(n: usize, r: u64) -> Ref
    requires { n ≤ 1024 }
    ensures { (result ≡ ref_of n r) × Within n result }
{
    match r {
        0 => Ref::Empty,
        1..=1024 => {
            let i = (r - 1) as usize;
            if i < n { Ref::Leaf(i) } else { Ref::Bad }
        }
        // 1025 to 2047: a number within the pool is within that.
        _ => {
            let j = (r - 1025) as usize;
            if j + 1 < n { Ref::Node(j) } else { Ref::Bad }
        }
    }
}

// The reference to leaf i.
pub fn leaf_ref(i: usize) -> u64
    requires { i < 1024 }
    ensures { result ≡ leaf_ref i }
{
    i as u64 + 1
}

// The reference to node j.
pub fn node_ref(j: usize) -> u64
    requires { j < 1024 }
    ensures { result ≡ node_ref j }
{
    j as u64 + 1025
}

// The word of leaf i's key; its value is the next.
pub fn leaf_word(i: usize) -> usize
    requires { i < 1024 }
    ensures { result ≡ leaf_word i }
{
    2 + 2 * i
}

// The word of node j's header in a pool of n leaves; its children follow.
pub fn node_word(n: usize, j: usize) -> usize
    requires { (n ≤ 1024) × (j < 1024) }
    ensures { result ≡ node_word n j }
{
    2 + 2 * n + (Header::CHILDREN + 1) * j
}

// A run of words that holds a pool of n leaves, to be read.
#[derive(Clone, Copy)]
pub struct Pool<'a> {
    pub words: &'a [u64],
    pub n: usize,
    pub ghost sized: { Sized words.now n },
}

impl<'a> Pool<'a> {
    // The pool in a run of words, if its length and word 0 agree.
    pub fn of(words: &'a [u64]) -> Option<Self>
        ensures { MatchOption result (capacity_of words.now ≡ None) (λ p. (capacity_of words.now ≡ Some p.n) × (p.words.now ≡ words.now)) }
    {
        let n = capacity(words)?;
        Some(Pool { words, n })
    }

    // The reference to the root.
    pub fn root(&self) -> u64
        ensures { result ≡ word_at self.now.words.now 1 }
    {
        self.words[1]
    }

    // The key of leaf i.
    pub fn leaf_key(&self, i: usize) -> u64
        requires { i < self.now.n }
        ensures { result ≡ key_at self.now.words.now i }
    {
        self.words[leaf_word(i)]
    }

    // The value of leaf i.
    pub fn leaf_value(&self, i: usize) -> u64
        requires { i < self.now.n }
        ensures { result ≡ value_at self.now.words.now i }
    {
        self.words[leaf_word(i) + 1]
    }

    // The header of node j.
    pub fn header(&self, j: usize) -> u64
        requires { j + 1 < self.now.n }
        ensures { result ≡ header_at self.now.words.now self.now.n j }
    {
        self.words[node_word(self.n, j)]
    }

    // Child c of node j.
    pub fn child(&self, j: usize, c: usize) -> u64
        requires { (j + 1 < self.now.n) × (c < 16) }
        ensures { result ≡ child_at self.now.words.now self.now.n j c }
    {
        self.words[node_word(self.n, j) + 1 + c]
    }

    // The sixteen children of node j.
    pub fn children(&self, j: usize) -> &'a [u64]
        requires { j + 1 < self.now.n }
        ensures { result.now ≡ children_at self.now.words.now self.now.n j }
    {
        let first = node_word(self.n, j) + 1;
        &self.words[first..first + Header::CHILDREN]
    }
}

// A map of a pool of n leaves, to be read: a byte for each leaf, then one for each node.
#[derive(Clone, Copy)]
pub struct Map<'a> {
    pub bytes: &'a [u8],
    pub n: usize,
    pub ghost mapped: { Mapped bytes.now n },
}

impl<'a> Map<'a> {
    // The map in a run of bytes, if it is as long as a pool of n leaves asks.
    pub fn of(bytes: &'a [u8], n: usize) -> Option<Self>
        requires { (1 ≤ n) × (n ≤ 1024) }
        ensures { MatchOption result (¬ (length bytes.now ≡ bytes_of n)) (λ m. (m.bytes.now ≡ bytes.now) × (m.n ≡ n)) }
    {
        if bytes.len() == 2 * n - 1 {
            Some(Map { bytes, n })
        } else {
            None
        }
    }
}
