// The whole calls once it is known what they come to: lay out the stores, make them in their order, finish.
ghost use Rattle.std.specs.Prelude.{◌≡◌, ◌<◌};
ghost use Rattle.pool.specs.Sizes.{Mapped};
ghost use Rattle.plan.specs.Plans.{decided};
ghost use Rattle.rules.specs.Puts.{Splits, replaced, grow_of, split_of};
ghost use Rattle.placing.specs.Leads.{plan_at, Able};
ghost use Rattle.removing.specs.Removals.{removed_by};
ghost use Rattle.laying.specs.Nodes.{Cloven};
ghost use Rattle.writing.specs.Calls.{done, done_in, left, whole_of};
ghost use Rattle.writing.specs.Fitting.{Fitting};

use placing::Place;
use plan::{Effect, Plan, Stores};
use pool::Map;
use refusals::Refusal;
use removing::Removal;
use room::{find_room, free_leaf};
use rules::{Cleft, Target};

// Makes stores in their order, and finishes; how many were made.
fn carry_out<const N: usize>(
    pool: &mut [u64],
    map: &mut [u8],
    stores: &Stores<N>,
    effect: Effect,
) -> usize
    requires { Fitting pool.old (decided stores.now effect) }
    ensures { left (done 0 result) pool.new map.new ≡ whole_of (decided stores.now effect) pool.old map.old }
{
    let made = stores.make(pool);
    let _ = finishing::take_effect(map, effect); // no put and no delete names a byte that the map lacks
    made
}

// A put of a key that leaf i holds.
fn put_held(pool: &mut [u64], map: &mut [u8], i: usize, value: u64) -> usize
    requires { (i < 1024) × Fitting pool.old (replaced i value) }
    ensures { left (done 0 result) pool.new map.new ≡ whole_of (replaced i value) pool.old map.old }
{
    let mut stores = Stores::<1>::new();
    laying::replacing(&mut stores, i, value);
    carry_out(pool, map, &stores, Effect::Nothing)
}

// A new leaf at the empty reference `at`.
fn put_grow(
    pool: &mut [u64],
    map: &mut [u8],
    n: usize,
    key: u64,
    value: u64,
    at: usize,
) -> Result<usize, Refusal>
    requires { Mapped map.old n × Fitting pool.old (grow_of map.old n key value at) }
    ensures { left (done_in result) pool.new map.new ≡ whole_of (grow_of map.old n key value at) pool.old map.old }
{
    let leaf = free_leaf(&Map { bytes: map, n }).ok_or(Refusal::Full)?;
    let mut stores = Stores::<3>::new();
    laying::growing(&mut stores, leaf, key, value, at);
    Ok(carry_out(pool, map, &stores, Effect::TakesLeaf(leaf)))
}

// The split of a reference.
#[tactic(auto, using(rules::proofs::Splits::slots_inside))]
fn put_split(
    pool: &mut [u64],
    map: &mut [u8],
    n: usize,
    s: Cleft,
    key: u64,
    value: u64,
    target: Target,
) -> Result<usize, Refusal>
    requires { Mapped map.old n × Cloven s × Splits n s target × Fitting pool.old (split_of map.old n s key value target) }
    ensures { left (done_in result) pool.new map.new ≡ whole_of (split_of map.old n s key value target) pool.old map.old }
{
    let slots = find_room(&Map { bytes: map, n }).ok_or(Refusal::Full)?;
    let mut stores = Stores::<{ Plan::MOST }>::new();
    laying::splitting(&mut stores, n, s, key, value, target, slots);
    Ok(carry_out(
        pool,
        map,
        &stores,
        Effect::TakesBoth(slots.leaf, slots.node),
    ))
}

// A put at a place.
pub fn put_at(
    pool: &mut [u64],
    map: &mut [u8],
    n: usize,
    key: u64,
    value: u64,
    place: Place,
) -> Result<usize, Refusal>
    requires { Mapped map.old n × Able n place × Fitting pool.old (plan_at map.old n key value place) }
    ensures { left (done_in result) pool.new map.new ≡ whole_of (plan_at map.old n key value place) pool.old map.old }
{
    match place {
        Place::Held(i) => Ok(put_held(pool, map, i, value)),
        Place::Gap(at) => put_grow(pool, map, n, key, value, at),
        Place::Apart(s, target) => put_split(pool, map, n, s, key, value, target),
    }
}

// A removal's stores, and the map.
pub fn remove(pool: &mut [u64], map: &mut [u8], removal: Removal) -> usize
    requires { Fitting pool.old (removed_by removal) }
    ensures { left (done 0 result) pool.new map.new ≡ whole_of (removed_by removal) pool.old map.old }
{
    let mut stores = Stores::<2>::new();
    laying::switching(&mut stores, removal.switch, removal.follows);
    carry_out(pool, map, &stores, removal.effect)
}
