// What a delete comes to, in any pool.
#![tactic(auto)]

ghost use Rattle.std.specs.Prelude.{◌≡◌, ◌+◌, ◌<◌, ◌≤◌, Some};
ghost use Rattle.refusals.specs.Refusals.{number_of};
ghost use Rattle.pool.specs.Sizes.{capacity_of};
ghost use Rattle.removing.specs.Removals.{removed_by, decided_by};
ghost use Rattle.rules.specs.Deletes.{with_node, emptied, bypassed, lift_in, merge_with, unlink_of, miss_of, delete_plan};

use digits::Header;
use plan::Effect;
use pool::{Pool, Ref};
use refusals::Refusal;
use walk::{End, Spot};

// The switch of a removal: the reference in the word `at` takes another child, or 0.
#[derive(Clone, Copy)]
pub struct Switch {
    pub at: usize,
    pub child: u64,
}

// The header that follows the switch, and its word.
#[derive(Clone, Copy)]
pub struct Follows {
    pub word: usize,
    pub header: u64,
}

// What a removal comes to: a switch, which a header may follow, and what they do to the map.
#[derive(Clone, Copy)]
pub struct Removal {
    pub switch: Switch,
    pub follows: Option<Follows>,
    pub effect: Effect,
}

// What an effect frees, and the node whose byte in the map is `node`.
fn with_node(freed: Effect, node: usize) -> Effect
    ensures { result ≡ with_node freed node }
{
    match freed {
        Effect::Nothing => Effect::Nothing,
        Effect::TakesLeaf(leaf) => Effect::TakesLeaf(leaf),
        Effect::TakesBoth(leaf, other) => Effect::TakesBoth(leaf, other),
        Effect::FreesLeaf(leaf) => Effect::FreesBoth(leaf, node),
        Effect::FreesBoth(leaf, other) => Effect::FreesBoth(leaf, other),
    }
}

// One store: the reference `at` becomes 0.
fn empty(at: usize, freed: Effect) -> Removal
    ensures { removed_by result ≡ emptied at freed }
{
    Removal {
        switch: Switch { at, child: 0 },
        follows: None,
        effect: freed,
    }
}

// One store: the reference to the node takes the other child, the leaf r.
fn bypass(n: usize, s: Spot, freed: Effect, r: u64) -> Removal
    requires { (n ≤ 1024) × (s.node < 1024) }
    ensures { removed_by result ≡ bypassed n s freed r }
{
    Removal {
        switch: Switch {
            at: s.over,
            child: r,
        },
        follows: None,
        effect: with_node(freed, n + s.node),
    }
}

// Two stores: the reference to the node takes the other child, node j, to which r in the word `at` refers; its header follows.
fn lift(
    pool: &Pool,
    s: Spot,
    freed: Effect,
    at: usize,
    r: u64,
    j: usize,
) -> Result<Removal, Refusal>
    requires { (s.node < 1024) × (s.depth ≤ 16) × (s.above ≤ s.depth) × (j + 1 < pool.now.n) }
    ensures { decided_by result ≡ lift_in pool.now.words.now pool.now.n s freed at r j }
{
    let b = walk::accept(s.depth, pool.header(j)).ok_or(Refusal::Damage)?;
    let near = walk::lowest_leaf(pool, s.depth, at, r)?;
    // The switch first: from here the key is gone, and the child's header is stale, which every walk accepts.
    let switch = Switch {
        at: s.over,
        child: r,
    };
    let follows = Follows {
        word: pool::node_word(pool.n, j),
        header: Header::pack(s.above, b - s.above, near),
    };
    Ok(Removal {
        switch,
        follows: Some(follows),
        effect: with_node(freed, pool.n + s.node),
    })
}

// The node has one other child, r, in the word `at`.
fn merge(pool: &Pool, s: Spot, freed: Effect, at: usize, r: u64) -> Result<Removal, Refusal>
    requires { (s.node < 1024) × (s.depth ≤ 16) × (s.above ≤ s.depth) }
    ensures { decided_by result ≡ merge_with pool.now.words.now pool.now.n s freed at r }
{
    match pool::reference(pool.n, r) {
        Ref::Leaf(_) => Ok(bypass(pool.n, s, freed, r)),
        Ref::Node(j) => lift(pool, s, freed, at, r, j),
        Ref::Empty | Ref::Bad => Err(Refusal::Damage),
    }
}

// What is freed hangs below a node.
fn unlink(pool: &Pool, s: Spot, freed: Effect) -> Result<Removal, Refusal>
    requires { (s.node + 1 < pool.now.n) × (s.depth ≤ 16) × (s.above ≤ s.depth) }
    ensures { decided_by result ≡ unlink_of pool.now.words.now pool.now.n s freed }
{
    let node = s.node;
    let count = walk::children(pool, node);
    if count < 2 {
        return Err(Refusal::Damage);
    }
    if 2 < count {
        return Ok(empty(s.at, freed));
    }
    let c = walk::other_child(pool, node, s.at).ok_or(Refusal::Damage)?;
    let at = pool::node_word(pool.n, node) + 1 + c;
    merge(pool, s, freed, at, pool.child(node, c))
}

// Why a walk that ended at no leaf finds no key.
fn miss(end: End) -> Refusal
    ensures { number_of result ≡ miss_of end }
{
    match end {
        End::AtEmpty(_) => Refusal::Absent,
        End::AtLeaf(_, _) | End::Stopped(_, _, _) | End::Damaged(_, _) => Refusal::Damage,
    }
}

// What a delete comes to in a pool.
pub fn find_removal(pool: &Pool, key: u64) -> Result<Removal, Refusal>
    requires { capacity_of pool.now.words.now ≡ Some pool.now.n }
    ensures { decided_by result ≡ delete_plan pool.now.words.now key }
{
    let end = walk::walk(pool, key);
    let End::AtLeaf(s, i) = end else {
        return Err(miss(end));
    };
    if pool.leaf_key(i) != key {
        return Err(Refusal::Absent);
    }
    if s.nodes == 0 {
        return Ok(empty(s.at, Effect::FreesLeaf(i)));
    }
    unlink(pool, s, Effect::FreesLeaf(i))
}
