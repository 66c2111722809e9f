// Healing upward after an item went, as the crate's path.rs has it: the cut, the balance with the right sibling, the empty node, and the leaf at the bottom.
// What each asks of the path and the words (`AskHeal`) stands in no type, as `Route` in crit: it holds between two stores alone.
#![tactic(auto)]

ghost use Rattle.std.specs.Prelude.{◌-◌, ◌<◌};
ghost use Rattle.forest.specs.Sizes.{leaf_cap};
ghost use Rattle.crit.specs.Asks.{Leaves};
ghost use Rattle.node.specs.declared.Removed.{Removed};
ghost use Rattle.heal.specs.Steps.{leaf_ops, inner_ops, leaf_front, fronted, taken};
ghost use Rattle.heal.specs.Cycle;
ghost use Rattle.heal.specs.Cycle.{inner_kind, leaf_kind, stayed, emptied, under, AskEmpty, AskHeal, AskJoin, AskFront, AskCut, Joined, Cuts, Mends, Settles, AskPair};
ghost use Rattle.heal.specs.Kinds.{HealLaws};
ghost use Rattle.heal.specs.KindLaws.{leaf_heals, inner_heals};

use forest::Cursor;
use node::{Balanced, InnerNode, Kind, LeafNode, Removed};

// A kind of node, as healing sees it.
trait Heals: Kind {
    // The operations on such a node's words, its capacity and its minimum.
    ghost kind: { Cycle.Kind };

    // They are those of the node, and do to items what they should.
    ghost heals: { HealLaws kind Self.CAPACITY Self.TAG Self.HIDDEN Self.words Self.items Self.Is };
}

impl Heals for LeafNode {
    ghost kind = { leaf_kind };

    ghost heals = { leaf_heals };
}

impl Heals for InnerNode {
    ghost kind = { inner_kind };

    ghost heals = { inner_heals };
}

// The node at a level loses the item that the path goes through.
fn cut<K: Heals>(ws: &mut [u32], t: usize, c: Cursor, level: usize) -> Removed
    requires { AskCut K.kind ws.old t c level }
    ensures { Cuts K.kind ws.old ws.new t c level result }
{
    let n = c.nodes[level];
    let p = c.places[level] as usize;
    let w = pool::load(ws, t, n);
    let cut = node::remove::<K>(w, p);
    pool::store(ws, t, n, cut.words);
    cut.status
}

// With no right sibling a node stays small; off the end if its last item went.
fn no_right<K: Heals>(ws: &[u32], t: usize, c: Cursor, level: usize) -> Cursor
    requires { AskHeal K.kind ws.now t c Removed.Underflow level }
    ensures { Leaves (λ s. stayed K.kind s level) ws.now ws.now t c result }
{
    let w = pool::load(ws, t, c.nodes[level]);
    let left = w[0] - K::TAG;
    if c.places[level] < left {
        return c;
    }
    crit::off_end(c)
}

// A node gives all its items to its right sibling, or they share; was it all? That is a question: nothing comes beside its answer.
fn join<K: Heals>(ws: &mut [u32], t: usize, c: Cursor, level: usize, key: u32, node: u32) -> bool
    requires { AskJoin K.kind ws.old t c level key node }
    ensures { Joined K.kind ws.old ws.new t c level result }
{
    let n = c.nodes[level];
    let w = pool::load(ws, t, n);
    let v = pool::load(ws, t, node);
    match node::balance::<K>(w, v, key) {
        Balanced::Merged(all) => {
            pool::store(ws, t, node, all);
            crit::hand_crit_key(ws, t, c, level);
            true
        }
        Balanced::Shared(halves) => {
            pool::store(ws, t, n, halves.left);
            pool::store(ws, t, node, halves.right);
            crit::update_right_crit_key(ws, t, c, level, halves.key);
            false
        }
    }
}

// The node at a level has underflowed: it balances with its right sibling; None if it is empty then.
fn underflowed_node<K: Heals>(ws: &mut [u32], t: usize, c: Cursor, level: usize) -> Option<Cursor>
    requires { AskHeal K.kind ws.old t c Removed.Underflow level }
    ensures { Settles (λ vs d. Leaves (under K.kind level) ws.old vs t c d) ws.new t c level result }
{
    let Some((key, node)) = crit::right_sibling(ws, t, c, level) else {
        return Some(no_right::<K>(ws, t, c, level));
    };
    if join::<K>(ws, t, c, level, key, node) {
        return None;
    }
    Some(c)
}

// After an item of the node at a level went: checks its health and rebalances as needed; None if it is empty then.
fn heal_level<K: Heals>(
    ws: &mut [u32],
    t: usize,
    c: Cursor,
    status: Removed,
    level: usize,
) -> Option<Cursor>
    requires { AskHeal K.kind ws.old t c status level }
    ensures { Settles (λ vs d. Mends K.kind ws.old vs t c d status level) ws.new t c level result }
{
    match status {
        Removed::Healthy => Some(c),
        Removed::Rightmost => Some(crit::next_node(ws, t, c, level)),
        Removed::Underflow => underflowed_node::<K>(ws, t, c, level),
        Removed::Empty => None,
    }
}

// The node at a level is empty: it is freed, and its parent loses it.
// The crate's cycle of three is this one recursion: in a cycle of calls the check refuses a call "at other types or impls than the caller's own", as that of heal_level for the parent would be.
fn empty_node(ws: &mut [u32], t: usize, c: Cursor, level: usize) -> Cursor
    requires { AskEmpty ws.old t c level }
    ensures { Leaves (emptied level) ws.old ws.new t c result }
{
    let n = c.nodes[level];
    pool::free_node(ws, t, n);
    let Some(l) = level.checked_sub(1) else {
        return crit::off_end(c);
    };
    let near = crit::right_sibling(ws, t, c, level);
    let status = cut::<InnerNode>(ws, t, c, l);
    let d = match heal_level::<InnerNode>(ws, t, c, status, l) {
        Some(d) => d,
        None => empty_node(ws, t, c, l),
    };
    crit::through_right(d, level, near)
}

// If the front pair of the leaf went and another is the first, the key before the leaf becomes that one's.
fn update_front(ws: &mut [u32], t: usize, c: Cursor, level: usize)
    requires { AskFront ws.old t c level }
    ensures { Leaves (λ s. fronted leaf_ops leaf_cap inner_ops leaf_front s level) ws.old ws.new t c c }
{
    let w = pool::load(ws, t, c.nodes[level]);
    if 32 < w[0] && c.places[level] == 0 {
        crit::update_crit_key(ws, t, c, level, w[1]);
    }
}

// Removes the pair that the cursor is on, from a tree that has another, and moves to the next pair.
pub fn remove_pair(ws: &mut [u32], t: usize, c: Cursor, level: usize) -> Cursor
    requires { AskPair ws.old t c level }
    ensures { Leaves (taken level) ws.old ws.new t c result }
{
    let status = cut::<LeafNode>(ws, t, c, level);
    update_front(ws, t, c, level);
    match heal_level::<LeafNode>(ws, t, c, status, level) {
        Some(d) => d,
        None => empty_node(ws, t, c, level),
    }
}
