// Putting an entry in, as the crate's path.rs has it: the need counted from the path, and then insertion with nodes cut upward.
#![tactic(auto)]

ghost use Rattle.std.specs.Prelude.{◌≡◌, ℕ, ◌+◌, ◌-◌, ◌≤◌, ◌<◌, length};
ghost use Rattle.forest.specs.Trees.{need_up};
ghost use Rattle.pool.specs.Stores.{top_node};
ghost use Rattle.path.specs.Cores.{Ready};
ghost use Rattle.grow.specs.Puts.{LeafPlace, Tries, Replaces, Adds, Puts, Empty};
ghost use Rattle.grow.specs.Grows.{planted_words, cut_words, Takes, AskCut};
ghost use Rattle.grow.specs.Grows.{Scene, Under, Unders, Climb, Climbs, climbed, Land, Lands, leaf_need, Landed, Fits, landed_words};

use forest::{Cursor, Hit, Refusal, Reply};
use node::{InnerNode, LeafNode};
use path::Tree;

// Takes a node, gives it the words of `node`, and makes it the root of a tree.
fn plant(ws: &mut [u32], t: usize, tree: u32, node: [u32; 16])
    requires takes { Takes ws.old t }
    requires tree_in_bounds { tree + 1 < length ws.old }
    ensures { ws.new ≡ planted_words ws.old t tree node }
{
    let root = pool::alloc_node(ws, t);
    pool::store(ws, t, root, node);
    pool::set_root(ws, tree, root);
}

// Cuts node n: `left` stays, `right` goes to a node that is taken and handed back.
fn cut(ws: &mut [u32], t: usize, n: u32, left: [u32; 16], right: [u32; 16]) -> u32
    requires { AskCut ws.old t n }
    ensures node { result ≡ top_node ws.old t }
    ensures words { ws.new ≡ cut_words ws.old t n left right }
{
    let rhs = pool::alloc_node(ws, t);
    pool::store(ws, t, n, left);
    pool::store(ws, t, rhs, right);
    rhs
}

// How many nodes the levels above `level` take if the node there is cut.
fn need_above(ws: &[u32], t: usize, c: Cursor, level: usize) -> u32
    requires { Unders ws.now t c.tree c.nodes c.places level }
    ensures few { result ≤ level + 1 }
    ensures need { (s : Scene) → Under s ws.now t c.tree c.nodes c.places level → result ≡ need_up s.at s.rows }
{
    if level == 0 {
        return 1;
    }
    let n = c.nodes[level - 1];
    let w = pool::load(ws, t, n);
    if w[0] < 23 {
        return 0;
    }
    1 + need_above(ws, t, c, level - 1)
}

// How many nodes a new entry takes where the path stands, in a full leaf. That it has a level is a bound that three functions ask, as an index does.
fn need(ws: &[u32], t: usize, c: Cursor) -> u32
    requires { (1 ≤ c.size) × Lands ws.now t c.tree c.nodes c.places (c.size - 1) }
    ensures { (s : Scene) (p : ℕ) → Land s p ws.now t c.tree c.nodes c.places (c.size - 1) → result ≡ leaf_need s }
{
    let level = c.size as usize - 1;
    1 + need_above(ws, t, c, level)
}

// `key` and `node` come right of the child that the path goes to from `level - 1`: a full node there is cut, and the level above gets the new one.
fn split_and_insert(ws: &mut [u32], t: usize, c: Cursor, level: usize, key: u32, node: u32)
    requires { Climbs ws.old t c.tree c.nodes c.places level }
    ensures { (s : Scene) → Climb s ws.old t c.tree c.nodes c.places level → ws.new ≡ climbed s c.tree (key, node) }
{
    let tree = c.tree;
    if level == 0 {
        plant(ws, t, tree, node::inner(pool::root(ws, tree), key, node));
        return;
    }
    let n = c.nodes[level - 1];
    let at = c.places[level - 1] as usize;
    let w = pool::load(ws, t, n);
    if w[0] < 23 {
        pool::store(ws, t, n, node::inner_insert(w, at, key, node));
        return;
    }
    let split = node::split::<InnerNode>(w, at + 1, key, node);
    let rhs = cut(ws, t, n, split.left, split.right);
    split_and_insert(ws, t, c, level - 1, split.key, rhs);
}

// The entry comes to place `at` of leaf n, in place, if there is room: the crate's name and its answer, and nothing comes beside it.
fn try_leaf_insert(ws: &mut [u32], t: usize, n: u32, at: usize, key: u32, value: u32) -> bool
    requires { LeafPlace ws.old t n at }
    ensures { Tries t n at (key, value) ws.old ws.new result }
{
    let b = t + 16 * (n as usize) - 14;
    let w = ws[b];
    if 39 <= w {
        return false;
    }
    let size = (w - 32) as usize;
    forest::slice_insert(&mut ws[b + 1..b + 2 + size], at, key);
    forest::slice_insert(&mut ws[b + 8..b + 9 + size], at, value);
    ws[b] = w + 1;
    true
}

// The entry comes where the path stands, in a full leaf, which is cut; there are nodes enough.
fn insert(ws: &mut [u32], t: usize, c: Cursor, key: u32, value: u32)
    requires { (1 ≤ c.size) × Fits ws.old t c.tree c.nodes c.places (c.size - 1) }
    ensures { (s : Scene) (p : ℕ) → Landed s p ws.old t c.tree c.nodes c.places (c.size - 1) → ws.new ≡ landed_words s p c.tree (key, value) }
{
    let level = c.size as usize - 1;
    let n = c.nodes[level];
    let at = c.places[level] as usize;
    let split = node::split::<LeafNode>(pool::load(ws, t, n), at, key, value);
    let rhs = cut(ws, t, n, split.left, split.right);
    split_and_insert(ws, t, c, level, split.key, rhs);
}

// Where `key` stands at place `at` of leaf n its value is replaced, and the earlier one is told.
fn replace(ws: &mut [u32], t: usize, n: u32, at: usize, key: u32, value: u32) -> Option<u32>
    requires { LeafPlace ws.old t n at }
    ensures { Replaces t n at key value ws.old ws.new result }
{
    let b = t + 16 * (n as usize) - 14;
    if ws[b] as usize <= at + 32 {
        return None;
    }
    if ws[b + 1 + at] != key {
        return None;
    }
    let earlier = ws[b + 8 + at];
    ws[b + 8 + at] = value;
    Some(earlier)
}

// An absent key comes where the path stands, in a full leaf, if there are nodes enough: they are counted before the first store.
fn add(ws: &mut [u32], t: usize, c: Cursor, key: u32, value: u32) -> Reply
    requires { (1 ≤ c.size) × Lands ws.old t c.tree c.nodes c.places (c.size - 1) }
    ensures { (s : Scene) (p : ℕ) → Land s p ws.old t c.tree c.nodes c.places (c.size - 1) → Adds s p c.tree (key, value) ws.old ws.new result }
{
    if pool::free_count(ws, t) < need(ws, t, c) {
        return Err(Refusal::NoRoom);
    }
    insert(ws, t, c, key, value);
    Ok(None)
}

// The first entry of an empty tree.
fn put_first(ws: &mut [u32], t: usize, tree: u32, key: u32, value: u32) -> Reply
    requires { Empty ws.old t tree }
    ensures { Puts tree key value ws.old ws.new result }
{
    if pool::free_count(ws, t) == 0 {
        return Err(Refusal::NoRoom);
    }
    plant(ws, t, tree, node::leaf(key, value));
    Ok(None)
}

// Puts `key` with `value` into a tree of a sound pool; a cursor is made only where the leaf is full.
pub fn put(ws: &mut [u32], t: usize, tree: u32, key: u32, value: u32) -> Reply
    requires { Ready ws.old t tree }
    ensures { Puts tree key value ws.old ws.new result }
{
    if pool::root(ws, tree) == 0 {
        return put_first(ws, t, tree, key, value);
    }
    let foot = Tree {
        words: ws,
        trees: t,
        number: tree,
    }
    .find_leaf(key);
    if let Some(earlier) = replace(ws, t, foot.node, foot.place, key, value) {
        return Ok(Some(Hit::Value(earlier)));
    }
    if try_leaf_insert(ws, t, foot.node, foot.place, key, value) {
        return Ok(None);
    }
    let c = Tree {
        words: ws,
        trees: t,
        number: tree,
    }
    .find(key);
    add(ws, t, c, key, value)
}
