// Where a put goes, in any pool.
#![tactic(auto)]

ghost use Rattle.std.specs.Prelude.{◌≡◌, ◌<◌, ◌≤◌, length};
ghost use Rattle.walk.specs.Walks.{walk_of};
ghost use Rattle.rules.specs.Puts.{cleft_at, beside_of, leaf_put, empty_put, put_at, put_file};
ghost use Rattle.placing.specs.Leads.{Leads, Suits};

use digits::Header;
use pool::Pool;
use refusals::Refusal;
use rules::{Cleft, Target};
use walk::{End, Spot};

// The cleft at a spot of the walk.
fn cleft(pool: &Pool, s: Spot, near: u64, diff: usize) -> Cleft
    requires { s.at < length pool.now.words.now }
    ensures { result ≡ cleft_at pool.now.words.now near diff s }
{
    let at = s.at;
    Cleft {
        at,
        depth: s.depth,
        old: pool.words[at],
        near,
        diff,
    }
}

// Where a put goes: leaf i, which holds the key; an empty reference; or a reference that is split.
#[derive(Clone, Copy)]
pub enum Place {
    Held(usize),
    Gap(usize),
    Apart(Cleft, Target),
}

// The place beside another key, `near`: at the first node of the walk that branches at or past the first digit in which they differ. Where the
// walk ended at an empty child, `last` is the number of nodes that it passed and `gap` the word of that child, else last is 0.
fn beside(pool: &Pool, key: u64, last: usize, gap: usize, near: u64) -> Result<Place, Refusal>
    ensures { Leads pool.now.n key result (λ map v. beside_of pool.now.words.now map pool.now.n key v last gap near) }
{
    let f = digits::first_diff(key, near);
    if f == Header::DIGITS {
        return Err(Refusal::Damage);
    }
    let end = walk::walk_to(pool, key, f);
    if let End::AtLeaf(s, _) = end {
        return Ok(Place::Apart(cleft(pool, s, near, f), Target::ALeaf));
    }
    let End::Stopped(s, j, b) = end else {
        return Err(Refusal::Damage);
    };
    if b != f {
        return Ok(Place::Apart(cleft(pool, s, near, f), Target::ANode(j, b)));
    }
    if s.nodes + 1 != last {
        return Err(Refusal::Damage);
    }
    Ok(Place::Gap(gap))
}

// The walk ended at leaf i.
#[inline(always)]
fn beside_leaf(pool: &Pool, key: u64, s: Spot, i: usize) -> Result<Place, Refusal>
    requires { (walk_of pool.now.words.now pool.now.n key ≡ End.AtLeaf s i) × (i < pool.now.n) × (s.at < length pool.now.words.now) }
    ensures { Leads pool.now.n key result (λ map v. leaf_put pool.now.words.now map pool.now.n key v i) }
{
    let near = pool.leaf_key(i);
    if near == key {
        return Ok(Place::Held(i));
    }
    let f = digits::first_diff(key, near);
    if f == Header::DIGITS {
        return Err(Refusal::Damage);
    }
    // Every node of the walk branches before f: no second walk need find the leaf again.
    if s.depth <= f {
        return Ok(Place::Apart(cleft(pool, s, near, f), Target::ALeaf));
    }
    beside(pool, key, 0, 0, near)
}

// The walk ended at an empty reference.
#[inline(always)]
fn beside_empty(pool: &Pool, key: u64, s: Spot) -> Result<Place, Refusal>
    requires { (walk_of pool.now.words.now pool.now.n key ≡ End.AtEmpty s) × (s.over < length pool.now.words.now) × (s.above ≤ 16) × (s.depth ≤ 16) }
    ensures { Leads pool.now.n key result (λ map v. empty_put pool.now.words.now map pool.now.n key v s) }
{
    if s.nodes == 0 {
        return Ok(Place::Gap(s.at));
    }
    let over = s.over;
    let near = walk::lowest_leaf(pool, s.above, over, pool.words[over])?;
    // The last node branches where the keys part: no second walk need find it.
    if digits::first_diff(key, near) + 1 == s.depth {
        return Ok(Place::Gap(s.at));
    }
    beside(pool, key, s.nodes, s.at, near)
}

// Where a key goes. Every question of damage is settled here, before room is looked for.
#[inline(always)]
fn place_key(pool: &Pool, key: u64) -> Result<Place, Refusal>
    ensures { Leads pool.now.n key result (λ map v. put_at pool.now.words.now map pool.now.n key v (walk_of pool.now.words.now pool.now.n key)) }
{
    let end = walk::walk(pool, key);
    if let End::AtLeaf(s, i) = end {
        return beside_leaf(pool, key, s, i);
    }
    let End::AtEmpty(s) = end else {
        return Err(Refusal::Damage);
    };
    beside_empty(pool, key, s)
}

// Where a put goes. File number 0 is retired: such a put is refused, whatever the pool holds.
#[inline(always)]
pub fn find_place(pool: &Pool, key: u64, value: u64) -> Result<Place, Refusal>
    ensures { Suits pool.now.n key value result (λ map. put_file pool.now.words.now map pool.now.n key value) }
{
    if value == 0 {
        return Err(Refusal::Retired);
    }
    place_key(pool, key)
}
