// Finishing: what a plan does to the map.
#![tactic(auto)]

ghost use Rattle.std.specs.Prelude.{◌≡◌};
ghost use Rattle.refusals.specs.Refusals.{number_in};
ghost use Rattle.plan.specs.Plans.{after, store_of};
ghost use Rattle.finishing.specs.Finishes.{stores_of, finish_of, FinishGives};

use plan::{Effect, Plan};
use refusals::Refusal;

// One byte.
fn mark(map: &mut [u8], at: usize, byte: u8) -> Result<(), Refusal>
    ensures { after (number_in result) map.new ≡ store_of at byte map.old }
{
    if map.len() <= at {
        return Err(Refusal::Outside);
    }
    map[at] = byte;
    Ok(())
}

// Two bytes, both judged before either is written.
fn mark_both(map: &mut [u8], leaf: usize, node: usize, byte: u8) -> Result<(), Refusal>
    ensures { after (number_in result) map.new ≡ stores_of leaf node byte map.old }
{
    if map.len() <= leaf || map.len() <= node {
        return Err(Refusal::Outside);
    }
    map[leaf] = byte;
    map[node] = byte;
    Ok(())
}

// An effect changes only the map bytes that it names.
pub fn take_effect(map: &mut [u8], effect: Effect) -> Result<(), Refusal>
    ensures { after (number_in result) map.new ≡ finish_of effect map.old }
{
    match effect {
        Effect::Nothing => Ok(()),
        Effect::TakesLeaf(leaf) => mark(map, leaf, 1),
        Effect::TakesBoth(leaf, node) => mark_both(map, leaf, node, 1),
        Effect::FreesLeaf(leaf) => mark(map, leaf, 0),
        Effect::FreesBoth(leaf, node) => mark_both(map, leaf, node, 0),
    }
}

// Finishing changes only the named map bytes.
pub fn finish(map: &mut [u8], plan: Plan) -> Result<(), Refusal>
    ensures { FinishGives plan map.old (after (number_in result) map.new) }
{
    take_effect(map, plan.effect)
}
