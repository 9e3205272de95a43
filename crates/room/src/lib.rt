// The lowest free slots of a map.
#![tactic(auto)]

ghost use Rattle.std.specs.Prelude.{◌≡◌, ◌≤◌, length};
ghost use Rattle.rules.specs.Puts.{free_of, leaf_of, room_of};

use memchr::memchr;
use pool::Map;
use rules::Slots;

// The lowest free byte of map[from..to]. A put spends much of its time here, so the search is one that looks at many bytes at once.
pub fn lowest_free(map: &[u8], from: usize, to: usize) -> Option<usize>
    requires { (from ≤ to) × (to ≤ length map.now) }
    ensures { result ≡ free_of map.now from to }
{
    memchr(0, &map[from..to]).map(|k| from + k)
}

// The lowest free leaf.
pub fn free_leaf(map: &Map) -> Option<usize>
    ensures { result ≡ leaf_of map.now.bytes.now map.now.n }
{
    lowest_free(map.bytes, 0, map.n)
}

// The free leaf and the free node that a split takes.
pub fn find_room(map: &Map) -> Option<Slots>
    ensures { result ≡ room_of map.now.bytes.now map.now.n }
{
    let leaf = free_leaf(map)?;
    let node = lowest_free(map.bytes, map.n, map.bytes.len())?;
    Some(Slots { leaf, node })
}
