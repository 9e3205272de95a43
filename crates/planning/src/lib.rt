// The plans of a put and a delete: what each stores, in order.
#![tactic(auto)]

ghost use Rattle.std.specs.Prelude.{◌≡◌, [], ℕ, OnErr};
ghost use Rattle.std.specs.Fn.{FnReturns, FnOnceTakesAtMut, FnOnceReturnsAtMut};
ghost use Rattle.plan.specs.Plans.{all_but_last, the_switch, outcome, laid_for, planned_for, Decided};
ghost use Rattle.rules.specs.Puts.{put_plan, PlanPutGives};
ghost use Rattle.rules.specs.Deletes.{delete_plan, PlanDeleteGives};
ghost use Rattle.placing.specs.Leads.{plan_at, Able};
ghost use Rattle.planning.specs.Gathered.{gathered, IsDecided, IsGroup};

use placing::{Place, find_place};
use plan::{Effect, Generation, Plan, Stores};
use pool::{Map, Pool};
use refusals::Refusal;
use removing::find_removal;
use room::{find_room, free_leaf};

// What a put stores at a place.
#[tactic(auto, using(rules::proofs::Splits::slots_inside))]
fn lay_at(
    stores: &mut Stores<{ Plan::MOST }>,
    map: &Map,
    key: u64,
    value: u64,
    place: Place,
) -> Result<Effect, Refusal>
    requires { (stores.old ≡ []) × Able map.now.n place }
    ensures plans { gathered result stores.new ≡ plan_at map.now.bytes.now map.now.n key value place }
    ensures nothing { OnErr result (stores.new ≡ []) }
{
    match place {
        Place::Held(i) => {
            laying::replacing(stores, i, value);
            Ok(Effect::Nothing)
        }
        Place::Gap(at) => {
            let leaf = free_leaf(map).ok_or(Refusal::Full)?;
            laying::growing(stores, leaf, key, value, at);
            Ok(Effect::TakesLeaf(leaf))
        }
        Place::Apart(s, target) => {
            let slots = find_room(map).ok_or(Refusal::Full)?;
            laying::splitting(stores, map.n, s, key, value, target, slots);
            Ok(Effect::TakesBoth(slots.leaf, slots.node))
        }
    }
}

// What a put stores, in order.
#[tactic(auto, unfolding(rules::specs::Puts::put_plan))]
fn lay_put(
    stores: &mut Stores<{ Plan::MOST }>,
    pool: &[u64],
    map: &[u8],
    key: u64,
    value: u64,
) -> Result<Effect, Refusal>
    requires { stores.old ≡ [] }
    ensures plans { gathered result stores.new ≡ put_plan pool.now map.now key value }
    ensures nothing { OnErr result (stores.new ≡ []) }
{
    let pool = Pool::of(pool).ok_or(Refusal::Size)?;
    let map = Map::of(map, pool.n).ok_or(Refusal::Size)?;
    let place = find_place(&pool, key, value)?;
    lay_at(stores, &map, key, value, place)
}

// What a delete stores, in order.
#[tactic(auto, unfolding(rules::specs::Deletes::delete_plan))]
fn lay_delete(
    stores: &mut Stores<{ Plan::MOST }>,
    pool: &[u64],
    key: u64,
) -> Result<Effect, Refusal>
    requires { stores.old ≡ [] }
    ensures plans { gathered result stores.new ≡ delete_plan pool.now key }
    ensures nothing { OnErr result (stores.new ≡ []) }
{
    let pool = Pool::of(pool).ok_or(Refusal::Size)?;
    let removal = find_removal(&pool, key)?;
    laying::switching(stores, removal.switch, removal.follows);
    Ok(removal.effect)
}

// The plan of what a function lays out, in groups by how many stores there are. The generation is judged before all else.
fn plan_for<G, L>(generation: u64, group: G, lay: L) -> Result<Plan, Refusal>
where
    G: Fn(usize) -> usize,
    L: FnOnce(&mut Stores<{ Plan::MOST }>) -> Result<Effect, Refusal>,
    requires grouped { G.IsAlwaysCallable group }
    requires laid { FnOnceTakesAtMut L.FnOnce lay [] }
    ensures { (d : Decided) (by : ℕ → ℕ) → by 0 ≡ 0 → IsGroup (λ c k. FnReturns G.Fn group (c, tt) k) by
        → IsDecided (λ r σ. FnOnceReturnsAtMut L.FnOnce lay [] r σ) d → outcome result ≡ planned_for generation by d }
{
    Generation::try_from(generation)?;
    let mut stores = Stores::new();
    let effect = lay(&mut stores)?;
    let first = group(stores.len());
    Ok(stores.plan(first, effect).fenced(generation))
}

// What a put stores, in order, for a caller that hands the stores on from where they are laid out; and the generation, by which they are fenced.
pub fn lay_put_for(
    stores: &mut Stores<{ Plan::MOST }>,
    pool: &[u64],
    map: &[u8],
    key: u64,
    value: u64,
    generation: u64,
) -> Result<(Generation, Effect), Refusal>
    requires { stores.old ≡ [] }
    ensures plans { PlanPutGives pool.now map.now key value generation (outcome (laid_for all_but_last result stores.new)) }
    ensures nothing { OnErr result (stores.new ≡ []) }
{
    let generation = Generation::try_from(generation)?;
    Ok((generation, lay_put(stores, pool, map, key, value)?))
}

// What a delete stores, in order, likewise.
pub fn lay_delete_for(
    stores: &mut Stores<{ Plan::MOST }>,
    pool: &[u64],
    key: u64,
    generation: u64,
) -> Result<(Generation, Effect), Refusal>
    requires { stores.old ≡ [] }
    ensures plans { PlanDeleteGives pool.now key generation (outcome (laid_for the_switch result stores.new)) }
    ensures nothing { OnErr result (stores.new ≡ []) }
{
    let generation = Generation::try_from(generation)?;
    Ok((generation, lay_delete(stores, pool, key)?))
}

// What a put stores, in order, and its fences on a generation.
pub fn plan_put(
    pool: &[u64],
    map: &[u8],
    key: u64,
    value: u64,
    generation: u64,
) -> Result<Plan, Refusal>
    ensures { PlanPutGives pool.now map.now key value generation (outcome result) }
{
    plan_for(generation, Plan::all_but_last, |stores| {
        lay_put(stores, pool, map, key, value)
    })
}

// What a delete stores, in order, and its fences on a generation.
pub fn plan_delete(pool: &[u64], key: u64, generation: u64) -> Result<Plan, Refusal>
    ensures { PlanDeleteGives pool.now key generation (outcome result) }
{
    plan_for(generation, Plan::the_switch, |stores| {
        lay_delete(stores, pool, key)
    })
}
