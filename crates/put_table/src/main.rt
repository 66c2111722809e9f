// Puts run: the trials P1 to P4 of document 01, N = 0, the least and the greatest key, and fills until there is no room.
#![tactic(auto)]

ghost use Rattle.std.specs.Prelude.{◌<◌};

use forest::{Refusal, Reply};
use lines::Words;
use std::io;

// A line: number, found as 0 or 1, value.
fn answer(rt: &impl Print, r: Reply) -> io::Result<()> {
    let a = forest::Answer::from(r);
    println!(rt; "{} {} {} ", a.number, u32::from(a.found), a.value)
}

// A put in tree 0, and its answer.
fn put(rt: &impl Print, ws: &mut [u32], key: u32, value: u32) -> io::Result<()> {
    answer(rt, map::put(ws, 0, key, value))
}

// A put, and the words then.
fn shown(rt: &impl Print, ws: &mut [u32], key: u32, value: u32) -> io::Result<()> {
    put(rt, ws, key, value)?;
    println!(rt; "{}", Words(ws))
}

// Tree A: 10 to 70 in one leaf, under a head.
fn tree_a(rt: &impl Print, name: &str, ws: &mut [u32], nodes: u32) -> io::Result<()> {
    println!(rt; "{name}")?;
    answer(rt, pool::format(ws, 1, nodes))?;
    for key in (10..80).step_by(10) {
        put(rt, ws, key, 10 * key)?;
    }
    Ok(())
}

// A put is refused for want of nodes.
fn full(ws: &mut [u32], key: u32, value: u32) -> bool {
    matches!(map::put(ws, 0, key, value), Err(Refusal::NoRoom))
}

// Keys from `from` on, each `step` further, modulo 101, until one is refused: how many came.
fn fill(ws: &mut [u32], from: u32, step: u32) -> u32
    requires { (from < 101) × (step < 101) }
{
    for i in 0..101 {
        if full(ws, (from + i * step) % 101, 1000 + i) {
            return i;
        }
    }
    101
}

// A pool of 12 nodes, filled: how many keys came, and the words then.
fn filled(rt: &impl Print, ws: &mut [u32], from: u32, step: u32) -> io::Result<()>
    requires { (from < 101) × (step < 101) }
{
    answer(rt, pool::format(ws, 1, 12))?;
    println!(rt; "{} ", fill(ws, from, step))?;
    println!(rt; "{}", Words(ws))
}

// P1, P4 and P2: A with one more key.
fn trials(rt: &impl Print) -> io::Result<()> {
    let mut b = [0; 55];
    tree_a(rt, "P1, P4: A with 35 put, and again", &mut b, 3)?;
    shown(rt, &mut b, 35, 350)?;
    shown(rt, &mut b, 35, 350)?;
    tree_a(rt, "P2: A with 45 put", &mut b, 3)?;
    shown(rt, &mut b, 45, 450)
}

// P3: a put that finds no room.
fn no_room(rt: &impl Print) -> io::Result<()> {
    let mut b = [0; 38];
    tree_a(
        rt,
        "P3: A in two nodes, 35 put; a present key replaced there",
        &mut b,
        2,
    )?;
    put(rt, &mut b, 35, 350)?;
    shown(rt, &mut b, 70, 7)
}

// A pool of no nodes.
fn no_nodes(rt: &impl Print) -> io::Result<()> {
    println!(rt; "no node at all")?;
    let mut b = [0; 4];
    answer(rt, pool::format(&mut b, 1, 0))?;
    shown(rt, &mut b, 1, 1)
}

// The ends of the keys, and what is refused.
fn ends(rt: &impl Print) -> io::Result<()> {
    println!(rt; "the least key and the greatest; tree 1 of one tree; words that are not sound")?;
    let mut b = [0; 38];
    answer(rt, pool::format(&mut b, 1, 2))?;
    put(rt, &mut b, u32::MAX, 1)?;
    put(rt, &mut b, 0, 2)?;
    answer(rt, map::put(&mut b, 1, 5, 5))?;
    println!(rt; "{}", Words(&b))?;
    b[0] = 2;
    shown(rt, &mut b, 5, 5)
}

// Fills in three orders.
fn fills(rt: &impl Print) -> io::Result<()> {
    println!(rt; "ascending, descending and mixed, until there is no room")?;
    let mut b = [0; 208];
    for (from, step) in [(0, 1), (100, 100), (0, 37)] {
        filled(rt, &mut b, from, step)?;
    }
    Ok(())
}

fn main(rt: HostRuntime) -> io::Result<()> {
    trials(&rt)?;
    no_room(&rt)?;
    no_nodes(&rt)?;
    ends(&rt)?;
    fills(&rt)
}
