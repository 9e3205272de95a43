// The survey of a whole pool: whether all that is reached from the root is sound, and what is reached. It leaves at the first damage.
#![tactic(auto)]

ghost use Rattle.std.specs.Prelude.{◌≡◌, true, ◌+◌, ◌<◌, ◌≤◌, length, replicate};
ghost use Rattle.pool.specs.Sizes.{bytes_of};
ghost use Rattle.pool.specs.Places.{header_at};
ghost use Rattle.walk.specs.Walks.{head_of};
ghost use Rattle.survey.specs.Surveys.{census, leaf_met, join_of, Accepted, head_judged, node_met, survey_from, survey_of, answer_of, span_of, gather_of, Gives, Found};

use digits::Header;
use pool::{Pool, Ref};

// What the children of a node so far come to: a key below the first of them, and the last key met.
#[derive(Clone, Copy)]
struct Span {
    first: u64,
    last: u64,
}

// Leaf i is met, which has this key. It is damage if it was met before.
#[tactic(auto, unfolding(crate::specs::Surveys::leaf_met))]
fn meet_leaf(map: &mut [u8], i: usize, key: u64) -> Option<u64>
    requires { i < length map.old }
    ensures { Gives (leaf_met i key) map.old map.new result }
{
    if map[i] != 0 {
        return None;
    }
    map[i] = 1;
    Some(key)
}

// Child c of a node that branches at b has been surveyed, and `last` is the last key below it. It is damage if that key does not stand there.
#[tactic(auto, unfolding(crate::specs::Surveys::join_of))]
fn join(b: usize, c: usize, before: Option<Span>, last: u64) -> Option<Span>
    ensures { result ≡ span_of (join_of b c (gather_of before) (census last true)) }
{
    if digits::digit(last, b) != c {
        return None;
    }
    let Some(Span { first, .. }) = before else {
        return Some(Span { first: last, last });
    };
    (b <= digits::first_diff(first, last)).then_some(Span { first, last })
}

// A node has this header, and its children come to the span. It is damage if the header is not the one that a key below the first child has.
#[tactic(auto, unfolding(crate::specs::Surveys::head_judged))]
fn judge_header(word: u64, span: Span) -> Option<u64>
    requires { Accepted word }
    ensures { result ≡ answer_of (head_judged word (gather_of (Some span))) }
{
    let Header { depth, length } = Header::unpack(word);
    (Header::pack(depth, length, span.first) == word).then_some(span.last)
}

// The reference r, which is not empty, is met at walk depth w: the last key below it, or damage.
#[inline(always)]
#[cycle(survey_node_survey_ref)]
fn survey_ref(pool: &Pool, w: usize, r: u64, map: &mut [u8]) -> Option<u64>
    requires { (length map.old ≡ bytes_of pool.now.n) × (w ≤ 16) × (r ≡ 0 → ⊥) }
    ensures { Gives (survey_from 17 pool.now.words.now pool.now.n w r) map.old map.new result }
{
    match pool::reference(pool.n, r) {
        Ref::Leaf(i) => meet_leaf(map, i, pool.leaf_key(i)),
        Ref::Node(j) => survey_node(pool, w, j, map),
        Ref::Empty | Ref::Bad => None,
    }
}

// Node j is met at walk depth w: the last key below it, or damage. Its children are counted as they are met.
#[cycle(survey_node_survey_ref)]
fn survey_node(pool: &Pool, w: usize, j: usize, map: &mut [u8]) -> Option<u64>
    requires { (length map.old ≡ bytes_of pool.now.n) × (w ≤ 16) × (j + 1 < pool.now.n) }
    ensures { let words = pool.now.words.now in let n = pool.now.n in Gives (node_met (survey_from 17 words n) words n w j (head_of w (header_at words n j))) map.old map.new result }
{
    let word = pool.header(j);
    let b = walk::accept(w, word)?;
    let slot = pool.n + j;
    if map[slot] != 0 {
        return None;
    }
    map[slot] = (w + 1) as u8;
    let mut span = None;
    let mut children: usize = 0;
    for (c, r) in pool.children(j).iter().enumerate() {
        if *r != 0 {
            let last = survey_ref(pool, b + 1, *r, map)?;
            span = Some(join(b, c, span, last)?);
            children += 1;
        }
    }
    if children < 2 {
        return None;
    }
    judge_header(word, span?)
}

// The survey of a pool from its root, into a map that is all 0.
pub fn survey(pool: &Pool, map: &mut [u8]) -> bool
    requires { map.old ≡ replicate (bytes_of pool.now.n) 0 }
    ensures { Found map.new result (survey_of pool.now.words.now pool.now.n) }
{
    let root = pool.root();
    root == 0 || survey_ref(pool, 0, root, map).is_some()
}
