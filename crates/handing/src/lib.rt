// A plan as a run of words, as include/wort.h has it: handed out, and taken in again.
#![tactic(auto)]

ghost use Rattle.std.specs.Prelude.{◌≡◌, [], ◌∷◌, ◌++◌, length, take, Err};
ghost use Rattle.std.proofs.lemmas.List.Edits.{sets};
ghost use Rattle.plan.specs.Plans.{outcome, laid_for};
ghost use Rattle.handing.specs.Plans.{effect_words, spared, words_of, effect_of, plan_in, planned, planned_in};

use plan::{Effect, Generation, Plan, Stores};
use refusals::Refusal;

// Where a plan's words stand: seven of the head, then so many places for word numbers and as many for values.
const COUNT: usize = 0;

const FIRST: usize = 1;

const FENCES: usize = 2;

const EFFECT: usize = 3;

const LEAF: usize = 4;

const NODE: usize = 5;

const UNUSED: usize = 6;

const HEAD: usize = 7;

const PLACES: usize = 23;

const VALUES: usize = HEAD + PLACES;

// Writes an effect's four words.
fn lay_words(plan: &mut [u64; 53], kind: u64, leaf: usize, node: usize)
    ensures { plan.new ≡ sets plan.old 3 (kind ∷ leaf ∷ node ∷ 0 ∷ []) }
{
    plan[EFFECT] = kind;
    plan[LEAF] = leaf as u64;
    plan[NODE] = node as u64;
    plan[UNUSED] = 0;
}

// Writes an effect.
fn lay_effect(plan: &mut [u64; 53], effect: Effect)
    ensures { plan.new ≡ sets plan.old 3 (effect_words effect) }
{
    match effect {
        Effect::Nothing => lay_words(plan, 0, 0, 0),
        Effect::TakesLeaf(leaf) => lay_words(plan, 1, leaf, 0),
        Effect::TakesBoth(leaf, node) => lay_words(plan, 2, leaf, node),
        Effect::FreesLeaf(leaf) => lay_words(plan, 3, leaf, 0),
        Effect::FreesBoth(leaf, node) => lay_words(plan, 4, leaf, node),
    }
}

// Writes the word numbers and the values, after the head; a place for which there is none becomes 0.
fn lay_stores(plan: &mut [u64; 53], words: &[usize; Plan::MOST], values: &[u64; Plan::MOST])
    ensures { plan.new ≡ take 7 plan.old ++ spared words.now ++ spared values.now }
{
    for i in 0..PLACES {
        plan[HEAD + i] = words.get(i).copied().unwrap_or(0) as u64;
        plan[VALUES + i] = values.get(i).copied().unwrap_or(0);
    }
}

// Writes a plan, of these parts.
pub fn lay_plan(
    plan: &mut [u64; 53],
    count: usize,
    first: usize,
    fences: usize,
    effect: Effect,
    words: &[usize; Plan::MOST],
    values: &[u64; Plan::MOST],
)
    ensures { plan.new ≡
        words_of (record { words = words.now; values = values.now; count = count; first = first; fences = fences; effect = effect }) }
{
    plan[COUNT] = count as u64;
    plan[FIRST] = first as u64;
    plan[FENCES] = fences as u64;
    lay_effect(plan, effect);
    lay_stores(plan, words, values);
}

// Hands out a number, and a plan.
pub fn hand_out(out: &mut [u64; 53], number: u64, plan: &Plan) -> u64
    ensures { planned result out.new ≡ planned number (words_of plan.now) }
{
    lay_plan(
        out,
        plan.count,
        plan.first,
        plan.fences,
        plan.effect,
        &plan.words,
        &plan.values,
    );
    number
}

// Hands out a refusal: its number, and a plan that does nothing.
fn refuse(out: &mut [u64; 53], refusal: Refusal) -> u64
    ensures { planned result out.new ≡ planned_in (outcome (Err refusal)) }
{
    out.fill(0);
    u64::from(refusal)
}

// Hands out what a planning call answers: with a refusal, a plan that does nothing.
pub fn hand_answer(out: &mut [u64; 53], answer: Result<Plan, Refusal>) -> u64
    ensures { planned result out.new ≡ planned_in (outcome answer) }
{
    match &answer {
        Ok(plan) => hand_out(out, 0, plan),
        Err(refusal) => refuse(out, *refusal),
    }
}

// Hands on stores from where they are laid out for a generation, so many of which are the first group; with a refusal, a plan that does nothing.
pub fn hand_on(
    out: &mut [u64; 53],
    first: usize,
    stores: &Stores<{ Plan::MOST }>,
    laid: Result<(Generation, Effect), Refusal>,
) -> u64
    ensures { planned result out.new ≡ planned_in (outcome (laid_for (λ _. first) laid stores.now)) }
{
    match laid {
        Ok((generation, effect)) => {
            let count = stores.len();
            let fences = Plan::fences(u64::from(generation), first, count);
            lay_plan(
                out,
                count,
                first,
                fences,
                effect,
                stores.words(),
                stores.values(),
            );
            0
        }
        Err(refusal) => refuse(out, refusal),
    }
}

// The effect that three words say; a kind that there is not is nothing.
fn effect_in(kind: u64, leaf: usize, node: usize) -> Effect
    ensures { result ≡ effect_of kind leaf node }
{
    match kind {
        1 => Effect::TakesLeaf(leaf),
        2 => Effect::TakesBoth(leaf, node),
        3 => Effect::FreesLeaf(leaf),
        4 => Effect::FreesBoth(leaf, node),
        _ => Effect::Nothing,
    }
}

// The plan that a run of 53 words says.
pub fn taken_in(plan: &[u64]) -> Plan
    requires { length plan.now ≡ 53 }
    ensures { result ≡ plan_in plan.now }
{
    let mut words = [0; Plan::MOST];
    let mut values = [0; Plan::MOST];
    for i in 0..Plan::MOST {
        words[i] = plan[HEAD + i] as usize;
        values[i] = plan[VALUES + i];
    }
    Plan {
        words,
        values,
        count: plan[COUNT] as usize,
        first: plan[FIRST] as usize,
        fences: plan[FENCES] as usize,
        effect: effect_in(plan[EFFECT], plan[LEAF] as usize, plan[NODE] as usize),
    }
}
