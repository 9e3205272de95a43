// What each operation stores, in order, laid out behind the stores that are there. The plan of an operation and its whole call are made of the same
// stores.
#![tactic(auto)]

ghost use Rattle.std.specs.Prelude.{◌≡◌, [], ◌∷◌, ◌++◌, ◌+◌, ◌-◌, ◌<◌, ◌≤◌, length};
ghost use Rattle.tree.specs.Stores.{block};
ghost use Rattle.layout.specs.Operations.{store, leaf_stores, put_stores, replacing, growing};
ghost use Rattle.rules.specs.Puts.{Splits, target_header, cleaving};
ghost use Rattle.removing.specs.Removals.{switched};
ghost use Rattle.laying.specs.Nodes.{Cloven, node_values};

use digits::Header;
use plan::Stores;
use removing::{Follows, Switch};
use rules::{Cleft, Slots, Target};

// The value of leaf i, whose key is found.
pub fn replacing<const N: usize>(stores: &mut Stores<N>, i: usize, value: u64)
    requires { (length stores.old < N) × (i < 1024) }
    ensures { stores.new ≡ stores.old ++ put_stores (replacing i value) }
{
    stores.push(pool::leaf_word(i) + 1, value);
}

// A new leaf at the empty reference `at`: leaf key, leaf value, that reference.
#[tactic(auto, unfolding(tree::specs::Stores::block))]
pub fn growing<const N: usize>(stores: &mut Stores<N>, leaf: usize, key: u64, value: u64, at: usize)
    requires { (length stores.old + 3 ≤ N) × (leaf < 1024) }
    ensures { stores.new ≡ stores.old ++ put_stores (growing leaf key value at) }
{
    lay_leaf(stores, leaf, key, value); // the leaf first, and whole
    stores.push(at, pool::leaf_ref(leaf)); // the reference to it last
}

// A leaf: its key, its value.
#[tactic(auto, unfolding(tree::specs::Stores::block))]
fn lay_leaf<const N: usize>(stores: &mut Stores<N>, leaf: usize, key: u64, value: u64)
    requires { (length stores.old + 2 ≤ N) × (leaf < 1024) }
    ensures { stores.new ≡ stores.old ++ leaf_stores leaf key value }
{
    let word = pool::leaf_word(leaf);
    stores.push(word, key);
    stores.push(word + 1, value);
}

// The header and the children of a split's new node, which begins at a word: no child but what is split and the new leaf, which wins where both have
// one digit.
fn lay_node<const N: usize>(stores: &mut Stores<N>, word: usize, s: Cleft, key: u64, leaf: usize)
    requires { (length stores.old + 17 ≤ N) × (word < 32768) × (leaf < 1024) × Cloven s }
    ensures { stores.new ≡ stores.old ++ block word (node_values s leaf key) }
{
    stores.push(word, Header::pack(s.depth, s.diff - s.depth, key));
    let first = stores.len();
    for c in 0..Header::CHILDREN {
        stores.push(word + 1 + c, 0);
    }
    stores.set_value(first + digits::digit(s.near, s.diff), s.old);
    stores.set_value(first + digits::digit(key, s.diff), pool::leaf_ref(leaf));
}

// The header of what is split off, if that is a node.
fn lay_target<const N: usize>(stores: &mut Stores<N>, n: usize, s: Cleft, target: Target)
    requires { (length stores.old < N) × (n ≤ 1024) × Splits n s target }
    ensures { stores.new ≡ stores.old ++ target_header n s target }
{
    if let Target::ANode(j, b) = target {
        let header = Header::pack(s.diff + 1, b - s.diff - 1, s.near);
        stores.push(pool::node_word(n, j), header);
    }
}

// What makes the split: the header of what is split off, if that is a node, and the reference in the word `at`, which takes the new node.
fn lay_links<const N: usize>(stores: &mut Stores<N>, n: usize, s: Cleft, target: Target, link: u64)
    requires { (length stores.old + 2 ≤ N) × (n ≤ 1024) × Splits n s target }
    ensures { stores.new ≡ stores.old ++ target_header n s target ++ store s.at link ∷ [] }
{
    lay_target(stores, n, s, target); // until the reference is made this header is stale
    stores.push(s.at, link); // the reference last
}

// The split of a reference, into a free leaf and a free node: 20 stores for a leaf target, 21 for a node.
pub fn splitting<const N: usize>(
    stores: &mut Stores<N>,
    n: usize,
    s: Cleft,
    key: u64,
    value: u64,
    target: Target,
    slots: Slots,
)
    requires { (length stores.old + 21 ≤ N) × (n ≤ 1024) × (slots.leaf < n) × (n ≤ slots.node) × (slots.node < n + n)
        × Cloven s × Splits n s target }
    ensures { stores.new ≡ stores.old ++ put_stores (cleaving n s slots.leaf (slots.node - n) key value target) }
{
    let node = slots.node - n;
    let link = pool::node_ref(node);
    lay_leaf(stores, slots.leaf, key, value); // what is new first, where no walk comes yet
    lay_node(stores, pool::node_word(n, node), s, key, slots.leaf);
    lay_links(stores, n, s, target, link);
}

// A switch: a reference takes another child, or 0. If the child is a node, its header follows.
pub fn switching<const N: usize>(stores: &mut Stores<N>, switch: Switch, follows: Option<Follows>)
    requires { length stores.old + length (switched switch follows) ≤ N }
    ensures { stores.new ≡ stores.old ++ switched switch follows }
{
    stores.push(switch.at, switch.child); // the reference first: from here the key is gone
    if let Some(header) = follows {
        stores.push(header.word, header.header); // until this store the header is stale, which every walk accepts
    }
}
