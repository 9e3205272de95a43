// No code: which stores a put and a delete come to, and that they put and delete. Here are the types that the definitions speak of.
#![tactic(auto)]

// What is split: the word of the reference, the walk depth there, what it refers to, a key below that, and the first digit in which the new key
// differs from it.
#[derive(Clone, Copy)]
pub struct Cleft {
    pub at: usize,
    pub depth: usize,
    pub old: u64,
    pub near: u64,
    pub diff: usize,
}

// What is split off: a leaf, or node j, which branches at b.
#[derive(Clone, Copy)]
pub enum Target {
    ALeaf,
    ANode(usize, usize),
}

// The free leaf and the free node that a split takes, by their bytes in the map.
#[derive(Clone, Copy)]
pub struct Slots {
    pub leaf: usize,
    pub node: usize,
}
