// Removals run: the trials P5 to P10 of document 01, a merge across parents that goes up to the root, a right end that empties with its parent, and
// trees emptied from each end.
#![tactic(auto)]

ghost use Rattle.std.specs.Prelude.{◌<◌};

use forest::{Cursor, Moved};
use lines::{Numbers, Words};
use std::io;

// A cursor of tree 0, off the end.
const START: Cursor = Cursor {
    tree: 0,
    size: 0,
    nodes: [0; 16],
    places: [0; 16],
};

// A line: number, found as 0 or 1, key, value; then a line: the size of the cursor, and its first three nodes and places.
fn moved(rt: &impl Print, m: Moved) -> io::Result<Cursor> {
    let Moved { reply, cursor } = m;
    let Cursor {
        size,
        nodes,
        places,
        ..
    } = cursor;
    println!(rt; "{}", Numbers(reply))?;
    println!(rt;
        "{size} {} {} {} {} {} {} ",
        nodes[0], places[0], nodes[1], places[1], nodes[2], places[2]
    )?;
    Ok(cursor)
}

// Seek, then remove at the cursor.
fn take(rt: &impl Print, ws: &mut [u32], key: u32) -> io::Result<Cursor> {
    let c = moved(rt, map::seek(ws, START, key))?;
    moved(rt, map::remove_at(ws, c))
}

// A removal by key.
fn remove(rt: &impl Print, ws: &mut [u32], key: u32) -> io::Result<()> {
    println!(rt; "{}", Numbers(map::remove(ws, 0, key)))
}

// A put in tree 0, not told.
fn put(ws: &mut [u32], key: u32) {
    let _ = map::put(ws, 0, key, 7);
}

// Tree B: 10 to 70 and 35, in three nodes.
fn tree_b(ws: &mut [u32]) {
    let _ = pool::format(ws, 1, 3);
    for key in (10..80).step_by(10) {
        put(ws, key);
    }
    put(ws, 35);
}

// Keys 1 to 36, in 12 nodes, under a head.
fn long_tree(rt: &impl Print, name: &str, ws: &mut [u32]) -> io::Result<()> {
    println!(rt; "{name}")?;
    let _ = pool::format(ws, 1, 12);
    for key in 1..37 {
        put(ws, key);
    }
    Ok(())
}

// A key is taken out of B.
fn trial(rt: &impl Print, name: &str, key: u32) -> io::Result<()> {
    println!(rt; "{name}")?;
    let mut b = [0; 55];
    tree_b(&mut b);
    take(rt, &mut b, key)?;
    println!(rt; "{}", Words(&b))
}

// P5 to P7.
fn trials(rt: &impl Print) -> io::Result<()> {
    trial(rt, "P5: B, 10 removed", 10)?;
    trial(rt, "P6: B, 70 removed", 70)?;
    trial(rt, "P7: B, 40 removed", 40)
}

// P8.
fn after_a_put(rt: &impl Print) -> io::Result<()> {
    println!(rt; "P8: B with 80 put, 20 removed")?;
    let mut b = [0; 55];
    tree_b(&mut b);
    put(&mut b, 80);
    take(rt, &mut b, 20)?;
    println!(rt; "{}", Words(&b))
}

// P9: the move after a removal.
fn and_next(rt: &impl Print) -> io::Result<()> {
    println!(rt; "P9: B, 38 sought, removed there, next")?;
    let mut b = [0; 55];
    tree_b(&mut b);
    let c = take(rt, &mut b, 38)?;
    moved(rt, map::next(&b, c))?;
    println!(rt; "{}", Words(&b))
}

// P10.
fn one_pair(rt: &impl Print) -> io::Result<()> {
    println!(rt; "P10: one pair, removed, and removed again")?;
    let mut b = [0; 38];
    let _ = pool::format(&mut b, 1, 2);
    put(&mut b, 9);
    remove(rt, &mut b, 9)?;
    remove(rt, &mut b, 9)?;
    println!(rt; "{}", Words(&b))
}

// A removal that merges up to the root.
fn merges(rt: &impl Print, b: &mut [u32]) -> io::Result<()> {
    long_tree(
        rt,
        "1 to 36, 13 removed: a merge across parents, a parent's merge, a shrunken root",
        b,
    )?;
    println!(rt; "{}", Words(b))?;
    take(rt, b, 13)?;
    println!(rt; "{}", Words(b))
}

// A right end that empties with its parent.
fn right_end(rt: &impl Print, b: &mut [u32]) -> io::Result<()> {
    long_tree(
        rt,
        "1 to 36, 36 down to 17 removed: a right end that empties",
        b,
    )?;
    for key in (21..37).rev() {
        remove(rt, b, key)?;
    }
    println!(rt; "{}", Words(b))?;
    for key in (17..21).rev() {
        remove(rt, b, key)?;
    }
    println!(rt; "{}", Words(b))
}

// Each key is taken out, from `from` on, each `step` further, modulo 37.
fn all(rt: &impl Print, name: &str, b: &mut [u32], from: u32, step: u32) -> io::Result<()>
    requires { (from < 37) × (step < 37) }
{
    long_tree(rt, name, b)?;
    for i in 0..36 {
        remove(rt, b, (from + i * step) % 37)?;
    }
    println!(rt; "{}", Words(b))
}

// Removals from the trees of 36 keys.
fn long_trees(rt: &impl Print) -> io::Result<()> {
    let mut b = [0; 208];
    merges(rt, &mut b)?;
    right_end(rt, &mut b)?;
    all(rt, "1 to 36, emptied from the right", &mut b, 36, 36)?;
    all(rt, "1 to 36, emptied from the left", &mut b, 1, 1)
}

// What is refused.
fn refusals(rt: &impl Print) -> io::Result<()> {
    println!(rt; "tree 1 of one tree; a cursor of size 17; words that are not sound")?;
    let mut b = [0; 55];
    tree_b(&mut b);
    println!(rt; "{}", Numbers(map::remove(&mut b, 1, 10)))?;
    let c = Cursor { size: 17, ..START };
    moved(rt, map::remove_at(&mut b, c))?;
    println!(rt; "{}", Words(&b))?;
    b[0] = 2;
    remove(rt, &mut b, 10)?;
    moved(rt, map::remove_at(&mut b, c))?;
    Ok(())
}

fn main(rt: HostRuntime) -> io::Result<()> {
    trials(&rt)?;
    after_a_put(&rt)?;
    and_next(&rt)?;
    one_pair(&rt)?;
    long_trees(&rt)?;
    refusals(&rt)
}
