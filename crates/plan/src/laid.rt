// Stores laid out one after the other, before they are made or handed out as a plan.
ghost use Rattle.std.specs.Prelude.{◌≡◌, [], ◌∷◌, ◌++◌, ◌<◌, length};
ghost use Rattle.plan.specs.Plans.{plan_of, ran, makes_of};
ghost use Rattle.plan.specs.Laid.{words_laid, values_laid, valued};

use crate::{Effect, Plan};
use std::marker::Model;

// At most N stores, in order, with room for the next.
#[derive(Drop)]
pub struct Stores<const N: usize> {
    words: [usize; N],
    values: [u64; N],
    count: usize,
}

// Clauses see the stores that are laid out. The places behind them are 0, as a plan's are.
impl<const N: usize> Model for Stores<N> {
    ghost use Rattle.std.specs.Prelude.{List};
    ghost use Rattle.tree.specs.Stores.{Store};
    ghost use Rattle.plan.specs.Laid.{stores_laid, IsLaid};

    ghost Value = { List Store };

    ghost view = { λ s. stores_laid s.count s.words s.values };

    ghost invariant = { λ s. IsLaid N s.count s.words s.values };
}

impl<const N: usize> Stores<N> {
    pub fn new() -> Self
        ensures { result ≡ [] }
    {
        Stores {
            words: [0; N],
            values: [0; N],
            count: 0,
        }
    }

    pub fn len(&self) -> usize
        ensures { result ≡ length self.now }
    {
        self.count
    }

    // One store more, after those that are laid out.
    pub fn push(&mut self, word: usize, value: u64)
        requires { length self.old < N }
        ensures { self.new ≡ self.old ++ record { word = word; value = value } ∷ [] }
    {
        let at = self.count;
        self.words[at] = word;
        self.values[at] = value;
        self.count = at + 1;
    }

    // The store in a place takes another value.
    pub fn set_value(&mut self, place: usize, value: u64)
        requires { place < length self.old }
        ensures { self.new ≡ valued self.old place value }
    {
        let _count = self.count; // more than `place`, and no more than N
        self.values[place] = value;
    }

    // The word numbers, in order; then places that are 0.
    pub fn words(&self) -> &[usize; N]
        ensures { result.now ≡ words_laid N self.now }
    {
        &self.words
    }

    // The values for them, in order; then places that are 0.
    pub fn values(&self) -> &[u64; N]
        ensures { result.now ≡ values_laid N self.now }
    {
        &self.values
    }

    // Makes them, one after the other until one is refused; how many were made.
    pub fn make(&self, pool: &mut [u64]) -> usize
        ensures { ran result pool.new ≡ makes_of (length self.now) self.now pool.old }
    {
        crate::make(pool, &self.words, &self.values, self.count)
    }
}

impl Stores<{ Plan::MOST }> {
    // The plan of these stores, so many of which are the first group, with no fence.
    pub fn plan(&self, first: usize, effect: Effect) -> Plan
        ensures { result ≡ plan_of (λ _. first) self.now effect }
    {
        Plan {
            words: self.words,
            values: self.values,
            count: self.count,
            first,
            fences: 0,
            effect,
        }
    }
}
