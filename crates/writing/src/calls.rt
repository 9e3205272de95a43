// The whole calls: find what the call comes to, make its stores in their order, finish.
ghost use Rattle.std.specs.Prelude.{◌≡◌, Some, IfSome, MatchResult, length};
ghost use Rattle.pool.specs.Sizes.{capacity_of, bytes_of, Mapped};
ghost use Rattle.refusals.specs.Refusals.{number_in};
ghost use Rattle.writing.specs.Calls.{done_in, left, PutGives, DeleteGives, formatted, FormatGives};

use crate::making::{put_at, remove};
use placing::find_place;
use pool::{Map, Pool};
use refusals::Refusal;
use removing::find_removal;

// The pool that a put or a delete reads, if the lengths of the pool and its map are right: judged before all else.
fn judged<'a>(pool: &'a [u64], map: &[u8]) -> Result<Pool<'a>, Refusal>
    ensures { MatchResult result
        (λ p. (capacity_of pool.now ≡ Some p.n) × (p.words.now ≡ pool.now) × Mapped map.now p.n)
        (λ r. (r ≡ Refusal.Size) × IfSome (capacity_of pool.now) (λ n. ¬ (length map.now ≡ bytes_of n))) }
{
    let pool = Pool::of(pool).ok_or(Refusal::Size)?;
    Map::of(map, pool.n).ok_or(Refusal::Size)?;
    Ok(pool)
}

// Gives a key its value; how many stores were made.
#[tactic(auto, unfolding(crate::specs::Calls::put_of, rules::specs::Puts::put_plan))]
pub fn put(pool: &mut [u64], map: &mut [u8], key: u64, value: u64) -> Result<usize, Refusal>
    ensures { PutGives pool.old map.old key value (left (done_in result) pool.new map.new) }
{
    let read = judged(pool, map)?;
    let n = read.n;
    let place = find_place(&read, key, value)?;
    put_at(pool, map, n, key, value, place)
}

// Takes a key out; how many stores were made.
#[tactic(auto, unfolding(crate::specs::Calls::delete_of, rules::specs::Deletes::delete_plan))]
pub fn delete(pool: &mut [u64], map: &mut [u8], key: u64) -> Result<usize, Refusal>
    ensures { DeleteGives pool.old map.old key (left (done_in result) pool.new map.new) }
{
    let read = judged(pool, map)?;
    let removal = find_removal(&read, key)?;
    Ok(remove(pool, map, removal))
}

// Makes an empty pool of n leaves: word 1, then word 0, then the map.
#[tactic(auto, unfolding(crate::specs::Calls::format_of), using(pool::proofs::Sizes::size_fits, crate::proofs::Wholes::size_same))]
pub fn format(pool: &mut [u64], map: &mut [u8], n: u64) -> Result<(), Refusal>
    ensures { FormatGives pool.old map.old n (formatted (number_in result) pool.new map.new) }
{
    let leaves = pool::size_of(pool.len(), n).ok_or(Refusal::Size)?;
    Map::of(map, leaves).ok_or(Refusal::Size)?;
    pool[1] = 0;
    pool[0] = n;
    map.fill(0);
    Ok(())
}
