// Opening: the planning call, which answers the first store, and the whole call, which makes them all.
ghost use Rattle.std.specs.Prelude.{◌≡◌, map as mapped, ◌+◌, ◌-◌, ◌<◌, ◌≤◌, length, replicate};
ghost use Rattle.pool.specs.Sizes.{Sized, bytes_of};
ghost use Rattle.plan.specs.Plans.{one_group, plan_of, planned_of, outcome};
ghost use Rattle.survey.specs.Surveys.{survey_of};
ghost use Rattle.opening.specs.Openings.{stale_depth, mend_of, fresh_stores, mend_first, open_judged, open_plan, PlanOpenGives, mends, mend_node, mended, reached, keys_of, told, left, restored, left_judged, OpenGives};

use digits::Header;
use plan::{Effect, Generation, Plan, Stores};
use pool::{Map, Pool};
use refusals::Refusal;

// What an opening answers: the keys held, and the headers rewritten.
#[derive(Clone, Copy, Debug, Default, PartialEq, Eq)]
pub struct Opened {
    pub keys: usize,
    pub headers: usize,
}

// The walk depth at which node j was met, as its mark says, if it is stale: its header's depth is above that.
fn stale_depth(pool: &Pool, map: &Map, j: usize) -> Option<usize>
    requires { (map.now.n ≡ pool.now.n) × (j + 1 < pool.now.n) }
    ensures { result ≡ stale_depth pool.now.words.now pool.now.n map.now.bytes.now j }
{
    let w = usize::from(map.bytes[map.n + j]).checked_sub(1)?;
    (w < Header::unpack(pool.header(j)).depth).then_some(w)
}

// The header that mends node j, met at walk depth w: the same branch place, digits from w of the keys below.
fn fresh_header(pool: &Pool, w: usize, j: usize) -> Option<u64>
    requires { j + 1 < pool.now.n }
    ensures { fresh_stores pool.now.n j result ≡ mend_of pool.now.words.now pool.now.n w j }
{
    let b = walk::accept(w, pool.header(j))?;
    // The whole pool was judged before: no word is named here.
    let near = walk::lowest_leaf(pool, w, 0, pool::node_ref(j)).ok()?;
    Some(Header::pack(w, b - w, near))
}

// The store that mends node j, met at walk depth w, as a plan.
fn mend_plan(pool: &Pool, w: usize, j: usize) -> Plan
    requires { j + 1 < pool.now.n }
    ensures { result ≡ plan_of one_group (mend_of pool.now.words.now pool.now.n w j) Effect.Nothing }
{
    match fresh_header(pool, w, j) {
        Some(word) => Plan::one(pool::node_word(pool.n, j), word, Effect::Nothing),
        None => Plan::none(Effect::Nothing),
    }
}

// The store of the lowest-numbered stale node, as a plan, or a plan of none.
fn mend_first(pool: &Pool, map: &Map) -> Plan
    requires { map.now.n ≡ pool.now.n }
    ensures { result ≡ plan_of one_group (mend_first pool.now.words.now pool.now.n map.now.bytes.now) Effect.Nothing }
{
    for j in 0..pool.n - 1 {
        if let Some(w) = stale_depth(pool, map, j) {
            return mend_plan(pool, w, j);
        }
    }
    Plan::none(Effect::Nothing)
}

// The first store that open makes on a pool, surveyed into a map that is all 0.
fn plan_with(pool: &Pool, map: &mut [u8]) -> Result<Plan, Refusal>
    requires { map.old ≡ replicate (bytes_of pool.now.n) 0 }
    ensures { outcome result ≡ planned_of one_group (open_judged pool.now.words.now pool.now.n (survey_of pool.now.words.now pool.now.n)) }
{
    if !survey::survey(pool, map) {
        return Err(Refusal::Damage);
    }
    let marks = Map {
        bytes: map,
        n: pool.n,
    };
    Ok(mend_first(pool, &marks))
}

// The first store that open makes, or none.
#[tactic(auto, unfolding(crate::specs::Openings::open_plan))]
fn plan_any(pool: &[u64]) -> Result<Plan, Refusal>
    ensures { outcome result ≡ planned_of one_group (open_plan pool.now) }
{
    let pool = Pool::of(pool).ok_or(Refusal::Size)?;
    let mut scratch = [0u8; 2047];
    let bytes = 2 * pool.n - 1;
    plan_with(&pool, &mut scratch[..bytes])
}

// The same for a generation, which is judged before all else.
pub fn plan_open(pool: &[u64], generation: u64) -> Result<Plan, Refusal>
    ensures { PlanOpenGives pool.now generation (outcome result) }
{
    Generation::try_from(generation)?;
    Ok(plan_any(pool)?.fenced(generation))
}

// Mends node j if it is stale; how many headers were rewritten.
fn mend_node(pool: &mut [u64], map: &Map, j: usize) -> usize
    requires { Sized pool.old map.now.n × (j + 1 < map.now.n) }
    ensures { mends pool.new result ≡ mend_node map.now.n map.now.bytes.now j (mends pool.old 0) }
{
    let before = Pool {
        words: &*pool,
        n: map.n,
    };
    let Some(w) = stale_depth(&before, map, j) else {
        return 0;
    };
    let Some(word) = fresh_header(&before, w, j) else {
        return 0;
    };
    let mut stores = Stores::<1>::new();
    stores.push(pool::node_word(map.n, j), word);
    stores.make(pool)
}

// Mends every stale header, lower-numbered nodes first, one store each.
#[tactic(auto, unfolding(digits::specs::Loops::upto))]
fn mend(pool: &mut [u64], map: &Map) -> usize
    requires { Sized pool.old map.now.n }
    ensures { mends pool.new result ≡ mended map.now.n map.now.bytes.now (map.now.n - 1) pool.old }
{
    let mut headers: usize = 0;
    for j in 0..map.n - 1 {
        headers += mend_node(pool, map, j);
    }
    headers
}

// Each mark becomes a byte of the map: 1 if the slot is reached.
fn flatten(map: &mut [u8])
    ensures { map.new ≡ mapped reached map.old }
{
    for mark in map.iter_mut() {
        *mark = u8::from(*mark != 0);
    }
}

// How many leaves are reached.
fn keys(map: &Map) -> usize
    ensures { result ≡ keys_of map.now.n map.now.bytes.now }
{
    let mut count = 0;
    for mark in &map.bytes[..map.n] {
        count += usize::from(*mark != 0); // no branch: so it is compiled to wide compares, which a filter's count is not
    }
    count
}

// A sound pool's stale headers are mended, and the marks in its map become 1.
fn restore(pool: &mut [u64], n: usize, map: &mut [u8]) -> Opened
    requires { Sized pool.old n × (length map.old ≡ bytes_of n) }
    ensures { left (told (Ok result)) pool.new map.new ≡ restored n map.old pool.old }
{
    let marks = Map { bytes: &*map, n };
    let headers = mend(pool, &marks);
    let keys = keys(&marks);
    flatten(map);
    Opened { keys, headers }
}

// Judges a pool of n leaves, and restores it and its map where it is sound.
fn open_sized(pool: &mut [u64], n: usize, map: &mut [u8]) -> Result<Opened, Refusal>
    requires { Sized pool.old n × (length map.old ≡ bytes_of n) }
    ensures { left (told result) pool.new map.new ≡ left_judged pool.old map.old n (survey_of pool.old n) }
{
    map.fill(0);
    if !survey::survey(&Pool { words: pool, n }, map) {
        map.fill(0);
        return Err(Refusal::Damage);
    }
    Ok(restore(pool, n, map))
}

// Judges the whole pool, mends its stale headers and rebuilds its map.
#[tactic(auto, unfolding(crate::specs::Openings::open_of))]
pub fn open(pool: &mut [u64], map: &mut [u8]) -> Result<Opened, Refusal>
    ensures { OpenGives pool.old map.old (left (told result) pool.new map.new) }
{
    let n = pool::capacity(pool).ok_or(Refusal::Size)?;
    if map.len() != 2 * n - 1 {
        return Err(Refusal::Size);
    }
    open_sized(pool, n, map)
}
