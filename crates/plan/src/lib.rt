// Plans: at most 21 stores in order, each made by one step, and what they do to the map; and the one loop that makes stores.
#![tactic(auto)]

ghost use Rattle.std.specs.Prelude.{◌≡◌, [], ◌∷◌};
ghost use Rattle.refusals.specs.Refusals.{number_in};
ghost use Rattle.plan.specs.Plans.{all_but_last, the_switch, one_group, generation_number, generation_of, fences_of, fenced_plan, plan_of, after, store_of, StepGives, ran, stores_in, makes_of, RunGives};

use refusals::Refusal;

mod laid;

pub use laid::Stores;

// What a plan does to the map. Slots are named by their byte number in the map.
#[derive(Clone, Copy, Debug, PartialEq, Eq)]
pub enum Effect {
    Nothing,
    TakesLeaf(usize),
    TakesBoth(usize, usize),
    FreesLeaf(usize),
    FreesBoth(usize, usize),
}

// The platform generations: older machines let stores arrive in any order between two fences, newer ones in list order.
#[derive(Clone, Copy, Debug, PartialEq, Eq)]
pub enum Generation {
    Adr = 1,
    Eadr = 2,
}

// A generation by its number, as C gives it; there is no other.
impl TryFrom<u64> for Generation {
    type Error = Refusal;

    ghost try_from_gives = { λ number g. g ≡ generation_of number };

    fn try_from(number: u64) -> Result<Generation, Refusal>
        ensures { result ≡ generation_of number }
    {
        match number {
            1 => Ok(Generation::Adr),
            2 => Ok(Generation::Eadr),
            _ => Err(Refusal::Size),
        }
    }
}

// Its number.
impl From<Generation> for u64 {
    ghost from_gives = { λ g k. k ≡ generation_number g };

    fn from(generation: Generation) -> u64
        ensures { result ≡ generation_number generation }
    {
        generation as u64
    }
}

// At most 21 stores, each a word number and a value; unused places are 0. They are in groups, `first` of them in the first and the others, if
// there are any, in the second; `fences` is how many fences the caller makes, one after each group or none. A step reads neither.
#[derive(Clone, Copy)]
pub struct Plan {
    pub words: [usize; Plan::MOST],
    pub values: [u64; Plan::MOST],
    pub count: usize,
    pub first: usize,
    pub fences: usize,
    pub effect: Effect,
}

impl Plan {
    // Stores of a plan, at most.
    pub const MOST: usize = 21;

    // The stores of a put's first group, of so many: everything but the last.
    pub fn all_but_last(count: usize) -> usize
        ensures { result ≡ all_but_last count }
    {
        if 1 < count { count - 1 } else { count }
    }

    // The stores of a delete's first group, of so many: the switch.
    pub fn the_switch(count: usize) -> usize
        ensures { result ≡ the_switch count }
    {
        if 1 < count { 1 } else { count }
    }

    // The fences of a plan of so many stores, of which so many are the first group: one after each group on ADR, none on any other number.
    pub fn fences(generation: u64, first: usize, count: usize) -> usize
        ensures { result ≡ fences_of generation first count }
    {
        if generation != u64::from(Generation::Adr) {
            return 0;
        }
        match count {
            0 => 0,
            _ if first < count => 2,
            _ => 1,
        }
    }

    // A plan of no stores, and so of no group, with this effect.
    pub fn none(effect: Effect) -> Plan
        ensures { result ≡ plan_of one_group [] effect }
    {
        Plan {
            words: [0; Plan::MOST],
            values: [0; Plan::MOST],
            count: 0,
            first: 0,
            fences: 0,
            effect,
        }
    }

    // A plan of one store, which is a group.
    pub fn one(word: usize, value: u64, effect: Effect) -> Plan
        ensures { result ≡ plan_of one_group (record { word = word; value = value } ∷ []) effect }
    {
        let mut plan = Plan::none(effect);
        plan.words[0] = word;
        plan.values[0] = value;
        plan.count = 1;
        plan.first = 1;
        plan
    }

    // The same, with the fences of a generation.
    pub fn fenced(self, generation: u64) -> Plan
        ensures { result ≡ fenced_plan generation self }
    {
        Plan {
            fences: Plan::fences(generation, self.first, self.count),
            ..self
        }
    }
}

// The single store, to any word of the pool. Nothing else but format writes a pool's word.
fn store(pool: &mut [u64], word: usize, value: u64) -> Result<(), Refusal>
    ensures { after (number_in result) pool.new ≡ store_of word value pool.old }
{
    if pool.len() <= word {
        return Err(Refusal::Outside);
    }
    pool[word] = value;
    Ok(())
}

// One step makes one store.
#[tactic(auto, unfolding(crate::specs::Plans::step_of))]
pub fn step(pool: &mut [u64], plan: Plan, at: usize) -> Result<(), Refusal>
    ensures { StepGives plan at pool.old (after (number_in result) pool.new) }
{
    let (words, values) = (plan.words, plan.values); // apart: so a plan that is made for one step is not copied
    if Plan::MOST < plan.count || plan.count <= at {
        return Err(Refusal::Outside);
    }
    store(pool, words[at], values[at])
}

// The first stores of these two lists, at most so many, one after the other until one is refused; how many were made. No other loop stores to a pool.
pub fn make(pool: &mut [u64], words: &[usize], values: &[u64], most: usize) -> usize
    ensures { ran result pool.new ≡ makes_of most (stores_in words.now values.now) pool.old }
{
    let mut made = 0;
    for (word, value) in words.iter().zip(values).take(most) {
        if store(pool, *word, *value).is_err() {
            break;
        }
        made += 1;
    }
    made
}

// The first steps of a plan, at most so many, until one is refused; how many were made.
#[tactic(auto, using(crate::proofs::Laws::run_over, crate::proofs::Laws::run_makes))]
pub fn run(pool: &mut [u64], plan: Plan, most: usize) -> usize
    ensures { RunGives most plan pool.old (ran result pool.new) }
{
    if Plan::MOST < plan.count {
        return 0;
    }
    make(pool, &plan.words, &plan.values, most.min(plan.count))
}
