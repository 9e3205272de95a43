// Listing: the entries from a key on, into two lent buffers.
#![tactic(auto)]

ghost use Rattle.listing.specs.Listings.{numbers, shown, ListGives};

mod visit;

use digits::Header;
use pool::Pool;
use refusals::Refusal;
use visit::{Listing, Stop};

// What a listing answers: the entries handed out, and whether there is a further one.
#[derive(Default, Clone, Copy, PartialEq, Eq)]
pub struct Listed {
    pub count: usize,
    pub more: bool,
}

// The entries with a key at or above `from`, in the order of their keys, until the buffers are full.
pub fn list(
    pool: &[u64],
    from: u64,
    keys: &mut [u64],
    values: &mut [u64],
) -> Result<Listed, Refusal>
    ensures { ListGives pool.now from keys.old values.old (shown keys.new values.new (numbers result)) }
{
    let pool = Pool::of(pool).ok_or(Refusal::Size)?;
    if keys.is_empty() || keys.len() != values.len() {
        return Err(Refusal::Buffers);
    }
    let mut listing = Listing {
        from,
        keys,
        values,
        count: 0,
        met: 0,
    };
    let more = match listing.visit_ref(&pool, Header::DIGITS, pool.root()) {
        Ok(()) => false,
        Err(Stop::Further) => true,
        Err(Stop::Damage) => {
            keys.fill(0);
            values.fill(0);
            return Err(Refusal::Damage);
        }
    };
    Ok(Listed {
        count: listing.count,
        more,
    })
}
