// The cursor table of document 01, run: tree 0 is B, tree 1 has one pair, tree 2 is empty.
#![tactic(auto)]

use forest::{Cursor, Moved};
use lines::{Numbers, Words};
use std::io;

// T = 3, N = 4: B is 10, 20, 30, 35 in node 1 and 40, 50, 60, 70 in node 2 under node 3; tree 1 is node 4.
const POOL: [u32; 74] = [
    3, 3, 4, 0, 4, 36, 10, 20, 30, 35, 0, 0, 0, 100, 200, 300, 350, 0, 0, 0, 0, 36, 40, 50, 60, 70,
    0, 0, 0, 400, 500, 600, 700, 0, 0, 0, 0, 17, 40, 0, 0, 0, 0, 0, 0, 1, 2, 0, 0, 0, 0, 0, 0, 33,
    5, 0, 0, 0, 0, 0, 0, 50, 0, 0, 0, 0, 0, 0, 0, 0, 0, 0, 0, 0,
];

// A line: number, found, key, value; then tree, size, the nodes, the places.
fn show(rt: &impl Print, m: Moved) -> io::Result<()> {
    let Moved { reply, cursor } = m;
    let Cursor {
        tree,
        size,
        nodes,
        places,
    } = cursor;
    println!(rt;
        "{}| {tree} {size} | {}| {}",
        Numbers(reply),
        Words(&nodes),
        Words(&places)
    )
}

// A cursor of two levels.
fn at(tree: u32, size: u32, node: u32, place: u32, leaf: u32, entry: u32) -> Cursor {
    let mut nodes = [0; 16];
    let mut places = [0; 16];
    nodes[0] = node;
    places[0] = place;
    nodes[1] = leaf;
    places[1] = entry;
    Cursor {
        tree,
        size,
        nodes,
        places,
    }
}

// A cursor whose level 15, not in use, holds something.
fn unclean(entry: u32) -> Cursor {
    let mut c = at(0, 2, 3, 0, 1, 0);
    c.places[15] = entry;
    c
}

// All moves that read the cursor.
fn moves(rt: &impl Print, ws: &[u32], c: Cursor) -> io::Result<()> {
    show(rt, map::settle(ws, c))?;
    show(rt, map::next(ws, c))?;
    show(rt, map::prev(ws, c))
}

// Each get of a key, there or not.
fn gets(rt: &impl Print, ws: &[u32]) -> io::Result<()> {
    println!(rt; "get 38, 40, 70 of B; 5 of tree 1; 5 of tree 2; 5 of tree 3")?;
    for (tree, key) in [(0, 38), (0, 40), (0, 70), (1, 5), (2, 5), (3, 5)] {
        println!(rt; "{}", Numbers(map::get(ws, tree, key)))?;
    }
    Ok(())
}

// The first pair of each tree.
fn firsts(rt: &impl Print, ws: &[u32]) -> io::Result<()> {
    println!(rt; "first of B, of tree 1, of tree 2, of tree 3; from a cursor of size 99")?;
    for tree in 0..4 {
        show(rt, map::first(ws, at(tree, 0, 0, 0, 0, 0)))?;
    }
    show(rt, map::first(ws, at(0, 99, 7, 7, 7, 7)))
}

// Seek, and each move from there.
fn sought(rt: &impl Print, ws: &[u32], key: u32) -> io::Result<()> {
    let m = map::seek(ws, at(0, 99, 7, 7, 7, 7), key);
    show(rt, m)?;
    moves(rt, ws, m.cursor)
}

// Keys that are there, and keys that are not.
fn seeks(rt: &impl Print, ws: &[u32]) -> io::Result<()> {
    println!(rt; "seek 38, then settle, next, prev; the same with 5, 10, 35, 40, 70, 99")?;
    for key in [38, 5, 10, 35, 40, 70, 99] {
        sought(rt, ws, key)?;
    }
    Ok(())
}

// Cursors off the end, and trees with nothing in them.
fn ends(rt: &impl Print, ws: &[u32]) -> io::Result<()> {
    println!(rt; "size 0 in B, in tree 1, in tree 2; seek in tree 2, in tree 3")?;
    for tree in 0..3 {
        moves(rt, ws, at(tree, 0, 0, 0, 0, 0))?;
    }
    show(rt, map::seek(ws, at(2, 0, 0, 0, 0, 0), 5))?;
    show(rt, map::seek(ws, at(3, 5, 1, 1, 1, 1), 5))
}

// Cursors that no call handed back.
fn garbage(rt: &impl Print, ws: &[u32]) -> io::Result<()> {
    println!(rt;
        "size 17; size 4,294,967,295; wrong child; unused level; other tree's root; ends at an inner node"
    )?;
    moves(rt, ws, at(0, 17, 3, 0, 1, 0))?;
    moves(rt, ws, at(0, u32::MAX, 3, 0, 1, 0))?;
    moves(rt, ws, at(0, 2, 3, 1, 1, 0))?;
    moves(rt, ws, unclean(1))?;
    moves(rt, ws, at(0, 1, 4, 0, 0, 0))?;
    moves(rt, ws, at(0, 1, 3, 0, 0, 0))
}

// More of them.
fn more_garbage(rt: &impl Print, ws: &[u32]) -> io::Result<()> {
    println!(rt;
        "entry 5 of 4; size 0 with a level; a level in an empty tree; tree 3 with size 99"
    )?;
    moves(rt, ws, at(0, 2, 3, 0, 1, 5))?;
    moves(rt, ws, at(0, 0, 3, 0, 0, 0))?;
    moves(rt, ws, at(2, 1, 3, 0, 0, 0))?;
    moves(rt, ws, at(3, 99, 3, 0, 1, 0))
}

// The same words with a free node that is none.
fn broken() -> [u32; 74] {
    let mut ws = POOL;
    ws[69] = 1;
    ws
}

// Each call on words that are not sound.
fn unsound(rt: &impl Print, ws: &[u32]) -> io::Result<()> {
    println!(rt; "words that are not sound, tree 3")?;
    moves(rt, ws, at(3, 99, 3, 0, 1, 0))?;
    show(rt, map::first(ws, at(0, 99, 3, 0, 1, 0)))?;
    show(rt, map::seek(ws, at(0, 99, 3, 0, 1, 0), 10))?;
    println!(rt; "{}", Numbers(map::get(ws, 3, 10)))
}

fn main(rt: HostRuntime) -> io::Result<()> {
    gets(&rt, &POOL)?;
    firsts(&rt, &POOL)?;
    seeks(&rt, &POOL)?;
    ends(&rt, &POOL)?;
    garbage(&rt, &POOL)?;
    more_garbage(&rt, &POOL)?;
    unsound(&rt, &broken())
}
