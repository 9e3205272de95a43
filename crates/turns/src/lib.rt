// What a turn does to the pool and the map, and what goes onto the page.
#![tactic(auto)]

ghost use Rattle.std.specs.Prelude.{◌≡◌, replicate};
ghost use Rattle.plan.specs.Plans.{outcome};
ghost use Rattle.listing.specs.Listings.{list_of};
ghost use Rattle.answers.specs.Answers.{on};
ghost use Rattle.turns.specs.Turns.{acted, memory, list_answers, printed, cut_turn, turned};

use answers::{Answer, Page};
use plan::{Effect, Generation, Plan};
use refusals::Refusal;
use script::Turn;

// Entries of a listing, at most.
const ENTRIES: usize = 256;

// The generation that a cut plans for.
const EADR: u64 = Generation::Eadr as u64;

// A listing of the whole pool.
#[tactic(auto, using(crate::proofs::Pages::listing_printed))]
fn list(pool: &[u64], page: &mut Page)
    ensures same { page.new.bytes.ghost_name ≡ page.old.bytes.ghost_name }
    ensures page { on page.new ≡ printed (list_answers (list_of pool.now 0 (replicate 256 0) (replicate 256 0))) (on page.old) }
{
    let mut keys = [0; ENTRIES];
    let mut values = [0; ENTRIES];
    let listed = listing::list(pool, 0, &mut keys, &mut values).unwrap_or_default();
    page.write_listing(&keys, &values, listed.count);
}

// The first stores of a plan, at most so many, and none where it was refused; then the map is lost, and the pool opened.
#[tactic(auto, using(crate::proofs::Given::number_given, crate::proofs::Given::plan_given))]
fn cut(
    pool: &mut [u64],
    map: &mut [u8],
    page: &mut Page,
    planned: Result<Plan, Refusal>,
    stores: usize,
)
    ensures same { page.new.bytes.ghost_name ≡ page.old.bytes.ghost_name }
    ensures acted { acted pool.new map.new (on page.new) ≡ cut_turn (outcome planned) stores (memory pool.old map.old) (on page.old) }
{
    let plan = planned.unwrap_or(Plan::none(Effect::Nothing));
    let made = plan::run(pool, plan, stores);
    let opened = opening::open(pool, map).unwrap_or_default();
    page.write_answer(Answer::Cut {
        planned: planned.map(|_| ()),
        stores: made,
        keys: opened.keys,
        headers: opened.headers,
    });
}

// Carries a turn out. Its answer goes onto a page.
#[tactic(auto, using(crate::proofs::Given::stores_given, crate::proofs::Given::value_given), unfolding(crate::specs::Turns::leaves, crate::specs::Turns::answers_of))]
pub fn perform(turn: Turn, pool: &mut [u64], map: &mut [u8], page: &mut Page)
    ensures same { page.new.bytes.ghost_name ≡ page.old.bytes.ghost_name }
    ensures acted { acted pool.new map.new (on page.new) ≡ turned turn (memory pool.old map.old) (on page.old) }
{
    match turn {
        Turn::Put(key, value) => {
            let stores = writing::put(pool, map, key, value);
            page.write_answer(Answer::Put(stores));
        }
        Turn::Delete(key) => {
            let stores = writing::delete(pool, map, key);
            page.write_answer(Answer::Delete(stores));
        }
        Turn::Get(key) => {
            let found = finding::lookup(pool, key);
            page.write_answer(Answer::Get {
                value: found.value,
                nodes: found.nodes,
            });
        }
        Turn::Listing => list(pool, page),
        Turn::CutPut(stores, key, value) => {
            let planned = planning::plan_put(pool, map, key, value, EADR);
            cut(pool, map, page, planned, stores);
        }
        Turn::CutDelete(stores, key) => {
            let planned = planning::plan_delete(pool, key, EADR);
            cut(pool, map, page, planned, stores);
        }
        Turn::Nothing => {}
        Turn::Wrong(line) => page.write_answer(Answer::Wrong(line)),
    }
}
