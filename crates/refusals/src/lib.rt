// Why a call is refused, and the number that the C interface gives for it.
#![tactic(auto)]

ghost use Rattle.std.specs.Prelude.{◌≡◌};
ghost use Rattle.refusals.specs.Refusals.{number_of, number_in};

// The reasons, by their numbers. No call is refused for two reasons: each judges them in an order of its own.
#[derive(Clone, Copy, Debug, PartialEq, Eq)]
pub enum Refusal {
    // The length of the pool or of its map is wrong, or there is no such platform generation.
    Size = 1,
    // Damage is met.
    Damage = 2,
    // The key is absent.
    Absent = 3,
    // There is no free slot.
    Full = 4,
    // The plan has no such store, the pool no such word, or the map no such byte.
    Outside = 5,
    // The listing's buffers are of length 0, or of unequal length.
    Buffers = 6,
    // File number 0 is retired.
    Retired = 7,
}

impl From<Refusal> for u64 {
    ghost from_gives = { λ r k. k ≡ number_of r };

    fn from(refusal: Refusal) -> u64
        ensures { result ≡ number_of refusal }
    {
        refusal as u64
    }
}

// The number of an answer: 0 where the call was not refused.
pub fn number<T>(answer: &Result<T, Refusal>) -> u64
    ensures { result ≡ number_in answer.now }
{
    match answer {
        Ok(_) => 0,
        Err(refusal) => u64::from(*refusal),
    }
}
