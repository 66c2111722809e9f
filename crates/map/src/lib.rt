// The public calls of the crate's map.rs: each checks the words, the tree number and the cursor, and goes along a path.
// Behind each stands the call for words that are known to be sound, `sound_get` behind `get`.
#![tactic(auto)]

ghost use Rattle.std.specs.Prelude.{◌≡◌};
ghost use Rattle.forest.specs.Sizes.{leaf_least};
ghost use Rattle.forest.specs.Pools.{Sound, get, put, remove};
ghost use Rattle.forest.specs.Cursors.{to_first, to_key, to_next, to_prev, to_settled, to_remove};
ghost use Rattle.forest.specs.Promises.{Calls, Moves};
ghost use Rattle.map.specs.Gates.{Checks, Gates, Admits, Allows, Stood, Told, turned_back, held_at};

use forest::{Cursor, Hit, Moved, Refusal, Reply};
use moves::MapCursor;
use path::Tree;

// That the words are a sound pool, or why a call is refused.
fn checked(ws: &[u32]) -> Result<(), Refusal>
    ensures { Checks ws.now result }
{
    if !sound::check(ws) {
        return Err(Refusal::Unsound);
    }
    Ok(())
}

// A tree of the pool, or that there is no such tree.
fn gate(ws: &[u32], tree: u32) -> Result<Tree<'_>, Refusal>
    requires { Sound leaf_least ws.now }
    ensures { Gates ws.now tree result }
{
    let trees = pool::tree_count(ws);
    if trees <= tree as usize {
        return Err(Refusal::NoTree);
    }
    Ok(Tree {
        words: ws,
        trees,
        number: tree,
    })
}

// That the cursor stands, or that there is no such tree, or that it does not stand.
fn admit(ws: &[u32], at: Cursor) -> Result<(), Refusal>
    requires { Sound leaf_least ws.now }
    ensures { Admits ws.now at result }
{
    let tree = gate(ws, at.tree)?;
    if !stand::stands(&tree, at) {
        return Err(Refusal::NoPlace);
    }
    Ok(())
}

// That the words are sound and the cursor stands in them, or why a move is refused.
fn allow(ws: &[u32], at: Cursor) -> Result<(), Refusal>
    ensures { Allows ws.now at result }
{
    checked(ws)?;
    admit(ws, at)
}

// A cursor that stands, with its words.
fn standing(ws: &[u32], at: Cursor) -> MapCursor<'_>
    requires { Stood ws.now at }
    ensures { (result.words.now ≡ ws.now) × (result.cursor ≡ at) }
{
    MapCursor {
        words: ws,
        trees: pool::tree_count(ws),
        cursor: at,
    }
}

// A move that is refused hands the cursor back, which `?` would drop. The six calls that match so differ in the call alone: over a closure each
// demand of it (`Stood`) and its promise (`Moves`) would be said of the closure besides, and be no plainer.
fn refused(why: Refusal, at: Cursor) -> Moved
    ensures { result ≡ turned_back why at }
{
    Moved {
        reply: Err(why),
        cursor: at,
    }
}

// The value of a key, from a look at its place.
fn held(look: Option<(u32, u32)>, key: u32) -> Option<Hit>
    ensures { result ≡ held_at look key }
{
    match look {
        Some((k, value)) if k == key => Some(Hit::Value(value)),
        _ => None,
    }
}

// The calls for sound words: bare words, a tree number and a cursor, each with its demand, as the C interface hands them over

// Whether a cursor stands in a tree that is there: then it may go to `sound_next` and the like.
pub fn sound_stands(ws: &[u32], at: Cursor) -> bool
    requires { Sound leaf_least ws.now }
    ensures { Told ws.now at result }
{
    admit(ws, at).is_ok()
}

// The value of a key.
pub fn sound_get(ws: &[u32], tree: u32, key: u32) -> Reply
    requires { Sound leaf_least ws.now }
    ensures { Calls leaf_least (get tree key) ws.now ws.now result }
{
    let here = gate(ws, tree)?;
    Ok(held(here.look_for(key), key))
}

// Files a value under a key, in place of an earlier one, which is told.
pub fn sound_put(ws: &mut [u32], tree: u32, key: u32, value: u32) -> Reply
    requires { Sound leaf_least ws.old }
    ensures { Calls leaf_least (put tree key value) ws.old ws.new result }
{
    let here = gate(ws, tree)?;
    let t = here.trees;
    grow::put(ws, t, tree, key, value)
}

// Takes a key out, and tells its value.
pub fn sound_remove(ws: &mut [u32], tree: u32, key: u32) -> Reply
    requires { Sound leaf_least ws.old }
    ensures { Calls leaf_least (remove tree key) ws.old ws.new result }
{
    let here = gate(ws, tree)?;
    let t = here.trees;
    if pool::root(ws, tree) == 0 {
        return Ok(None);
    }
    let foot = here.find_leaf(key);
    let Some((k, value)) = path::look_in(ws, t, foot.node, foot.place) else {
        return Ok(None);
    };
    if k != key {
        return Ok(None);
    }
    remove::remove_key(ws, t, tree, key, foot.node, foot.place);
    Ok(Some(Hit::Value(value)))
}

// Go to a key and tell its value, or to where it would be put.
pub fn sound_seek(ws: &[u32], at: Cursor, key: u32) -> Moved
    requires { Sound leaf_least ws.now }
    ensures { Moves leaf_least (to_key key) at ws.now ws.now result.reply result.cursor }
{
    match gate(ws, at.tree) {
        Err(why) => refused(why, at),
        Ok(tree) => {
            let there = MapCursor::goto(&tree, key);
            Moved {
                reply: Ok(held(there.look(), key)),
                cursor: there.cursor,
            }
        }
    }
}

// Go to the first pair, and tell it.
pub fn sound_first(ws: &[u32], at: Cursor) -> Moved
    requires { Sound leaf_least ws.now }
    ensures { Moves leaf_least to_first at ws.now ws.now result.reply result.cursor }
{
    match gate(ws, at.tree) {
        Err(why) => refused(why, at),
        Ok(tree) => MapCursor::goto_first(&tree).seen(),
    }
}

// From one past a leaf's last entry go to the pair after it; nothing is told.
#[inline]
pub fn sound_settle(ws: &[u32], at: Cursor) -> Moved
    requires { Stood ws.now at }
    ensures { Moves leaf_least to_settled at ws.now ws.now result.reply result.cursor }
{
    let there = standing(ws, at).normalize();
    Moved {
        reply: Ok(None),
        cursor: there.cursor,
    }
}

// Go to the next pair, and tell it; after the last the cursor is off the end.
#[inline]
pub fn sound_next(ws: &[u32], at: Cursor) -> Moved
    requires { Stood ws.now at }
    ensures { Moves leaf_least to_next at ws.now ws.now result.reply result.cursor }
{
    standing(ws, at).next().seen()
}

// Go to the pair before, and tell it; on the first pair stay, and tell none.
pub fn sound_prev(ws: &[u32], at: Cursor) -> Moved
    requires { Stood ws.now at }
    ensures { Moves leaf_least to_prev at ws.now ws.now result.reply result.cursor }
{
    standing(ws, at).prev()
}

// Takes out the pair that the cursor is on, tells its value, and goes to the next; on no pair nothing happens.
pub fn sound_remove_at(ws: &mut [u32], at: Cursor) -> Moved
    requires { Stood ws.old at }
    ensures { Moves leaf_least to_remove at ws.old ws.new result.reply result.cursor }
{
    let t = pool::tree_count(ws);
    let Some((_, value)) = standing(ws, at).look() else {
        return Moved {
            reply: Ok(None),
            cursor: at,
        };
    };
    let c = remove::remove(ws, t, at);
    Moved {
        reply: Ok(Some(Hit::Value(value))),
        cursor: c,
    }
}

// The public calls

// The value of a key.
pub fn get(ws: &[u32], tree: u32, key: u32) -> Reply
    ensures { Calls leaf_least (get tree key) ws.now ws.now result }
{
    checked(ws)?;
    sound_get(ws, tree, key)
}

// Files a value under a key, in place of an earlier one, which is told.
pub fn put(ws: &mut [u32], tree: u32, key: u32, value: u32) -> Reply
    ensures { Calls leaf_least (put tree key value) ws.old ws.new result }
{
    checked(ws)?;
    sound_put(ws, tree, key, value)
}

// Takes a key out, and tells its value.
pub fn remove(ws: &mut [u32], tree: u32, key: u32) -> Reply
    ensures { Calls leaf_least (remove tree key) ws.old ws.new result }
{
    checked(ws)?;
    sound_remove(ws, tree, key)
}

// Go to a key and tell its value, or to where it would be put.
pub fn seek(ws: &[u32], at: Cursor, key: u32) -> Moved
    ensures { Moves leaf_least (to_key key) at ws.now ws.now result.reply result.cursor }
{
    match checked(ws) {
        Err(why) => refused(why, at),
        Ok(()) => sound_seek(ws, at, key),
    }
}

// Go to the first pair, and tell it.
pub fn first(ws: &[u32], at: Cursor) -> Moved
    ensures { Moves leaf_least to_first at ws.now ws.now result.reply result.cursor }
{
    match checked(ws) {
        Err(why) => refused(why, at),
        Ok(()) => sound_first(ws, at),
    }
}

// From one past a leaf's last entry go to the pair after it; nothing is told.
pub fn settle(ws: &[u32], at: Cursor) -> Moved
    ensures { Moves leaf_least to_settled at ws.now ws.now result.reply result.cursor }
{
    match allow(ws, at) {
        Err(why) => refused(why, at),
        Ok(()) => sound_settle(ws, at),
    }
}

// Go to the next pair, and tell it; after the last the cursor is off the end.
pub fn next(ws: &[u32], at: Cursor) -> Moved
    ensures { Moves leaf_least to_next at ws.now ws.now result.reply result.cursor }
{
    match allow(ws, at) {
        Err(why) => refused(why, at),
        Ok(()) => sound_next(ws, at),
    }
}

// Go to the pair before, and tell it; on the first pair stay, and tell none.
pub fn prev(ws: &[u32], at: Cursor) -> Moved
    ensures { Moves leaf_least to_prev at ws.now ws.now result.reply result.cursor }
{
    match allow(ws, at) {
        Err(why) => refused(why, at),
        Ok(()) => sound_prev(ws, at),
    }
}

// Takes out the pair that the cursor is on, tells its value, and goes to the next; on no pair nothing happens.
pub fn remove_at(ws: &mut [u32], at: Cursor) -> Moved
    ensures { Moves leaf_least to_remove at ws.old ws.new result.reply result.cursor }
{
    match allow(ws, at) {
        Err(why) => refused(why, at),
        Ok(()) => sound_remove_at(ws, at),
    }
}
