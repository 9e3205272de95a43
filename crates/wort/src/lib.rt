// The C interface, as include/wort.h declares it: each function hands on to the library.
#![tactic(auto)]

ghost use Rattle.std.specs.Prelude.{◌≡◌};
ghost use Rattle.plan.specs.Plans.{after, StepGives};
ghost use Rattle.finding.specs.Lookups.{answer, told as told_found, LookupGives, QuickGives};
ghost use Rattle.listing.specs.Listings.{told, shown, ListGives};
ghost use Rattle.rules.specs.Puts.{PlanPutGives};
ghost use Rattle.rules.specs.Deletes.{PlanDeleteGives};
ghost use Rattle.writing.specs.Calls.{done, left, PutGives, DeleteGives, formatted, FormatGives};
ghost use Rattle.opening.specs.Openings.{PlanOpenGives, opened, left as left_open, OpenGives};
ghost use Rattle.handing.specs.Plans.{plan_in, FinishInGives, planned, HandedOut};

use finding::Found;
use handing::{hand_answer, hand_on, taken_in};
use plan::{Plan, Stores};
use refusals::Refusal;

#[unsafe(no_mangle)]
pub extern "C" fn wort_format(pool: &mut [u64], map: &mut [u8], n: u64) -> u64
    ensures { FormatGives pool.old map.old n (formatted result pool.new map.new) }
{
    refusals::number(&writing::format(pool, map, n))
}

#[unsafe(no_mangle)]
pub extern "C" fn wort_open(
    pool: &mut [u64],
    map: &mut [u8],
    keys: &mut u64,
    headers: &mut u64,
) -> u64
    ensures { OpenGives pool.old map.old (left_open (opened result keys.new headers.new) pool.new map.new) }
{
    let answer = opening::open(pool, map);
    let counts = answer.unwrap_or_default();
    *keys = counts.keys as u64;
    *headers = counts.headers as u64;
    refusals::number(&answer)
}

#[unsafe(no_mangle)]
pub extern "C" fn wort_lookup(pool: &[u64], key: u64, value: &mut u64, nodes: &mut u64) -> u64
    ensures { LookupGives pool.now key (answer result value.new nodes.new) }
{
    let f = finding::lookup(pool, key);
    tell(value, nodes, f)
}

#[unsafe(no_mangle)]
pub extern "C" fn wort_lookup_quick(pool: &[u64], key: u64, value: &mut u64, nodes: &mut u64) -> u64
    ensures { QuickGives pool.now key (answer result value.new nodes.new) }
{
    let f = finding::lookup_quick(pool, key);
    tell(value, nodes, f)
}

// Hands out what a lookup found.
fn tell(value: &mut u64, nodes: &mut u64, found: Found) -> u64
    ensures { answer result value.new nodes.new ≡ told_found found }
{
    *value = found.value.unwrap_or(0);
    *nodes = found.nodes as u64;
    refusals::number(&found.value)
}

#[unsafe(no_mangle)]
pub extern "C" fn wort_list(
    pool: &[u64],
    from: u64,
    keys: &mut [u64],
    values: &mut [u64],
    count: &mut u64,
    more: &mut u64,
) -> u64
    ensures { ListGives pool.now from keys.old values.old (shown keys.new values.new (told result count.new more.new)) }
{
    let listed = listing::list(pool, from, keys, values);
    let answer = listed.unwrap_or_default();
    *count = answer.count as u64;
    *more = u64::from(answer.more);
    refusals::number(&listed)
}

#[unsafe(no_mangle)]
pub extern "C" fn wort_put(
    pool: &mut [u64],
    map: &mut [u8],
    key: u64,
    value: u64,
    stores: &mut u64,
) -> u64
    ensures { PutGives pool.old map.old key value (left (done result stores.new) pool.new map.new) }
{
    let made = writing::put(pool, map, key, value);
    *stores = made.unwrap_or(0) as u64;
    refusals::number(&made)
}

#[unsafe(no_mangle)]
pub extern "C" fn wort_delete(pool: &mut [u64], map: &mut [u8], key: u64, stores: &mut u64) -> u64
    ensures { DeleteGives pool.old map.old key (left (done result stores.new) pool.new map.new) }
{
    let made = writing::delete(pool, map, key);
    *stores = made.unwrap_or(0) as u64;
    refusals::number(&made)
}

#[unsafe(no_mangle)]
pub extern "C" fn wort_plan_put(
    pool: &[u64],
    map: &[u8],
    key: u64,
    value: u64,
    generation: u64,
    plan: &mut [u64; 53],
) -> u64
    ensures { HandedOut (PlanPutGives pool.now map.now key value generation) (planned result plan.new) }
{
    let mut stores = Stores::new();
    let laid = planning::lay_put_for(&mut stores, pool, map, key, value, generation);
    hand_on(plan, Plan::all_but_last(stores.len()), &stores, laid)
}

#[unsafe(no_mangle)]
pub extern "C" fn wort_plan_delete(
    pool: &[u64],
    key: u64,
    generation: u64,
    plan: &mut [u64; 53],
) -> u64
    ensures { HandedOut (PlanDeleteGives pool.now key generation) (planned result plan.new) }
{
    let mut stores = Stores::new();
    let laid = planning::lay_delete_for(&mut stores, pool, key, generation);
    hand_on(plan, Plan::the_switch(stores.len()), &stores, laid)
}

#[unsafe(no_mangle)]
pub extern "C" fn wort_plan_open(pool: &[u64], generation: u64, plan: &mut [u64; 53]) -> u64
    ensures { HandedOut (PlanOpenGives pool.now generation) (planned result plan.new) }
{
    hand_answer(plan, opening::plan_open(pool, generation))
}

#[unsafe(no_mangle)]
pub extern "C" fn wort_step(pool: &mut [u64], plan: &[u64; 53], at: u64) -> u64
    ensures { StepGives (plan_in plan.now) at pool.old (after result pool.new) }
{
    refusals::number(&plan::step(pool, taken_in(plan), at as usize))
}

#[unsafe(no_mangle)]
pub extern "C" fn wort_finish(map: &mut [u8], plan: &[u64; 53]) -> u64
    ensures { FinishInGives plan.now map.old (after result map.new) }
{
    if 4 < plan[3] {
        return u64::from(Refusal::Outside);
    }
    refusals::number(&finishing::finish(map, taken_in(plan)))
}
