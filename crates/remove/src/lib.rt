// Taking a pair out of a tree, as the crate's path.rs has it: the only pair or one of more, roots with one child, the path that is left.
#![tactic(auto)]

ghost use Rattle.std.specs.Prelude.{◌≡◌, ◌+◌, ◌≤◌, ◌<◌, length, take, drop};
ghost use Rattle.remove.specs.Ends.{AskShrink, Shrinks, shifted, AskLast, AskRemove, Lone, Removes};
ghost use Rattle.remove.specs.Keys.{closed, LeafPair, less_words, only_leaf, AskKey, RemovesKey};
ghost use Rattle.forest.specs.Lists.{pad};

use forest::Cursor;
use path::Tree;

// The root once those with one child are gone, and how many went.
#[derive(Clone, Copy)]
struct Top {
    pub root: u32,
    pub gone: usize,
}

// Discards the root as long as it has shrunk to a single sub-tree.
fn shrink_root(ws: &mut [u32], t: usize, root: u32, levels: usize) -> Top
    requires { AskShrink ws.old t root levels }
    ensures { Shrinks ws.old ws.new t root levels result }
{
    let mut n = root;
    for gone in 0..levels {
        let w = pool::load(ws, t, n);
        if w[0] != 16 {
            return Top { root: n, gone };
        }
        pool::free_node(ws, t, n);
        n = w[8];
    }
    Top {
        root: n,
        gone: levels,
    }
}

// The path without its first `gone` levels, the unused ones zero.
fn shift_path(c: Cursor, gone: usize) -> Cursor
    requires { (c.size ≤ 16) × (gone ≤ 16) }
    ensures { result ≡ shifted c gone }
{
    let old = c.size as usize;
    if old < gone {
        return path::off_end(c.tree);
    }
    let size = old - gone;
    Cursor {
        tree: c.tree,
        size: size as u32,
        nodes: path::part(c.nodes, gone, size),
        places: path::part(c.places, gone, size),
    }
}

// The only pair of a tree goes: the tree is empty, and the cursor off the end.
fn remove_last(ws: &mut [u32], t: usize, c: Cursor) -> Cursor
    requires { AskLast ws.old t c }
    ensures { Removes ws.old ws.new c result }
{
    let n = c.nodes[0];
    pool::free_node(ws, t, n);
    pool::set_root(ws, c.tree, 0);
    path::off_end(c.tree)
}

// Is the pair that the cursor is on the only one of its tree?
fn is_last(ws: &[u32], t: usize, c: Cursor) -> bool
    requires { AskRemove ws.now t c }
    ensures { Lone ws.now c result }
{
    c.size == 1 && pool::load(ws, t, c.nodes[0])[0] == 33
}

// Removes the pair that the cursor is on, and moves to the next pair; the words are those of the tree without it.
pub fn remove(ws: &mut [u32], t: usize, c: Cursor) -> Cursor
    requires { AskRemove ws.old t c }
    ensures { Removes ws.old ws.new c result }
{
    if is_last(ws, t, c) {
        return remove_last(ws, t, c);
    }
    let level = (c.size - 1) as usize;
    let d = heal::remove_pair(ws, t, c, level);
    let root = pool::root(ws, c.tree);
    let top = shrink_root(ws, t, root, level);
    pool::set_root(ws, c.tree, top.root);
    shift_path(d, top.gone)
}

// The word at `at` goes: those behind it, before `end`, move up, and a 0 comes last.
#[tactic(auto, using(crate::proofs::GapLaws::closes))]
fn close_up(ws: &mut [u32], at: usize, end: usize)
    requires { (at < end) × (end ≤ length ws.old) }
    ensures { ws.new ≡ closed ws.old at end }
{
    forest::slice_shift(&mut ws[at..end], 1);
    ws[end - 1] = 0;
}

// Takes the pair at place `at` out of leaf n, in place.
#[tactic(auto, using(crate::proofs::GapLaws::took))]
fn take_out(ws: &mut [u32], t: usize, n: u32, at: usize)
    requires { LeafPair ws.old t n at }
    ensures { ws.new ≡ less_words ws.old t n at }
{
    let b = t + 16 * (n as usize) - 14;
    ws[b] -= 1;
    close_up(ws, b + 1 + at, b + 8);
    close_up(ws, b + 8 + at, b + 16);
}

// Does leaf n alone change where the pair at place `at` goes?
#[tactic(auto, unfolding(crate::specs::Keys::only_leaf))]
fn only_leaf(ws: &[u32], t: usize, tree: u32, n: u32, at: usize) -> bool
    requires leaf_pair { LeafPair ws.now t n at }
    requires tree_in_bounds { tree + 1 < length ws.now }
    ensures { result ≡ only_leaf ws.now t tree n at }
{
    let b = t + 16 * (n as usize) - 14;
    if pool::root(ws, tree) == n {
        return 34 <= ws[b];
    }
    at != 0 && 37 <= ws[b]
}

// Removes the pair of a key, at place `at` of leaf n; where that leaf alone changes no path is made.
pub fn remove_key(ws: &mut [u32], t: usize, tree: u32, key: u32, n: u32, at: usize)
    requires { AskKey ws.old t tree key n at }
    ensures { RemovesKey ws.old ws.new tree key }
{
    if only_leaf(ws, t, tree, n, at) {
        take_out(ws, t, n, at);
        return;
    }
    let c = Tree {
        words: ws,
        trees: t,
        number: tree,
    }
    .find(key);
    remove(ws, t, c);
}
