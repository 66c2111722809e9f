// Runs each operation on one node at its edges and writes what it leaves, a line each: the operation, the node's size, the place, and the words.
#![tactic(auto)]

ghost use Rattle.std.specs.Prelude.{◌≡◌, ◌+◌, ◌≤◌, ◌<◌, get_or};
ghost use Rattle.node.specs.Nodes.{Leaf, Inner};

use node::{Balanced, Cut, InnerNode, Kind, LeafNode, SplitOff};
use std::io;

// The keys of the nodes with their values or children, and the keys that come between.
const ITEMS: [(u32, u32); 9] = [
    (10, 1),
    (20, 2),
    (30, 3),
    (40, 4),
    (50, 5),
    (60, 6),
    (70, 7),
    (80, 8),
    (90, 9),
];

const BETWEEN: [u32; 9] = [5, 15, 25, 35, 45, 55, 65, 75, 85];

// A kind of node of which a node of each size can be made.
trait Sample: Kind {
    // What stands before the operation in a line.
    const NAME: &'static str;

    // A node of n items.
    fn of(n: usize) -> [u32; 16]
        requires { (1 ≤ n) × (n ≤ Self.CAPACITY) }
        ensures { Self.Is result × (get_or result 0 0 ≡ Self.TAG + n) };
}

impl Sample for LeafNode {
    const NAME: &'static str = "leaf";

    fn of(n: usize) -> [u32; 16] {
        let mut w = node::leaf(10, 1);
        for i in 1..n {
            // Tried: `w = next_pair(w, i)`; a call's result laid in a local that holds an array is a form that the prover does not cover.
            let more = next_pair(w, i);
            w = more;
        }
        w
    }
}

impl Sample for InnerNode {
    const NAME: &'static str = "inner";

    fn of(n: usize) -> [u32; 16] {
        if n == 1 {
            return node::remove::<InnerNode>(two_children(), 1).words;
        }
        let mut w = two_children();
        for i in 2..n {
            // Not `w = next_child(w, i)`, for the same reason.
            let more = next_child(w, i);
            w = more;
        }
        w
    }
}

// A leaf of n pairs with one more behind them.
fn next_pair(w: [u32; 16], n: usize) -> [u32; 16]
    requires { Leaf w × (get_or w 0 0 ≡ 32 + n) × (1 ≤ n) × (n < 7) }
    ensures { Leaf result × (get_or result 0 0 ≡ 33 + n) }
{
    let (key, value) = ITEMS[n];
    match node::balance::<LeafNode>(w, node::leaf(key, value), 0) {
        Balanced::Merged(both) => both,
        Balanced::Shared(_) => unreachable!(),
    }
}

// An inner node of two children.
fn two_children() -> [u32; 16]
    ensures { Inner result × (get_or result 0 0 ≡ 17) }
{
    node::inner(1, 20, 2)
}

// An inner node of n children with one more.
fn next_child(w: [u32; 16], n: usize) -> [u32; 16]
    requires { Inner w × (get_or w 0 0 ≡ 15 + n) × (2 ≤ n) × (n < 8) }
    ensures { Inner result × (get_or result 0 0 ≡ 16 + n) }
{
    let (key, child) = ITEMS[n];
    node::inner_insert(w, n - 1, key, child)
}

// The start of a line: the operation, the size of the node, and the place or the size of the other node.
fn title(rt: &impl Print, kind: &str, name: &str, n: usize, at: usize) -> io::Result<()> {
    print!(rt; "{kind}_{name} {n} {at}")
}

// The words of a node.
fn words(rt: &impl Print, w: [u32; 16]) -> io::Result<()> {
    print!(rt; " :")?;
    for x in w {
        print!(rt; " {x}")?;
    }
    Ok(())
}

// Both halves, and the right one's first key.
fn halves(rt: &impl Print, s: SplitOff) -> io::Result<()> {
    words(rt, s.left)?;
    words(rt, s.right)?;
    let key = s.key;
    print!(rt; " {key}")
}

// What is left, and how it stands: 0 healthy, 1 rightmost, 2 underflow, 3 empty.
fn cut(rt: &impl Print, c: Cut) -> io::Result<()> {
    words(rt, c.words)?;
    let status = c.status as u8;
    println!(rt; " {status}")
}

// The nodes, the key between them and whether all went to the right: then the left one and the key read 0.
fn balanced(rt: &impl Print, b: Balanced) -> io::Result<()> {
    match b {
        Balanced::Merged(right) => {
            words(rt, [0; 16])?;
            words(rt, right)?;
            println!(rt; " 0 1")
        }
        Balanced::Shared(s) => {
            halves(rt, s)?;
            println!(rt; " 0")
        }
    }
}

// A child more, right of child `index`.
fn insert(rt: &impl Print, n: usize, index: usize) -> io::Result<()>
    requires { 1 ≤ n }
{
    if n < InnerNode::CAPACITY && index < n {
        title(rt, InnerNode::NAME, "insert", n, index)?;
        words(
            rt,
            node::inner_insert(InnerNode::of(n), index, BETWEEN[index + 1], 99),
        )?;
        println!(rt)?;
    }
    Ok(())
}

// A full node cut in two, with an item at place `at`, or right of child `at`.
fn split<K: Sample>(rt: &impl Print, n: usize, at: usize) -> io::Result<()> {
    if n == K::CAPACITY && at <= K::CAPACITY - K::HIDDEN {
        let place = at + K::HIDDEN;
        title(rt, K::NAME, "split", n, at)?;
        halves(rt, node::split::<K>(K::of(n), place, BETWEEN[place], 99))?;
        println!(rt)?;
    }
    Ok(())
}

// An item less, the one at place `at`.
fn remove<K: Sample>(rt: &impl Print, n: usize, at: usize) -> io::Result<()>
    requires { 1 ≤ n }
{
    if n <= K::CAPACITY && at < n {
        title(rt, K::NAME, "remove", n, at)?;
        cut(rt, node::remove::<K>(K::of(n), at))?;
    }
    Ok(())
}

// Two nodes, of n items and of m.
fn balance<K: Sample>(rt: &impl Print, n: usize, m: usize) -> io::Result<()>
    requires { 1 ≤ n }
{
    if n <= K::CAPACITY && 1 <= m && m <= K::CAPACITY {
        title(rt, K::NAME, "balance", n, m)?;
        balanced(rt, node::balance::<K>(K::of(n), K::of(m), 99))?;
    }
    Ok(())
}

// All operations on a node of size n at place `at`.
fn lines(rt: &impl Print, n: usize, at: usize) -> io::Result<()>
    requires { 1 ≤ n }
{
    split::<LeafNode>(rt, n, at)?;
    remove::<LeafNode>(rt, n, at)?;
    balance::<LeafNode>(rt, n, at)?;
    insert(rt, n, at)?;
    split::<InnerNode>(rt, n, at)?;
    remove::<InnerNode>(rt, n, at)?;
    balance::<InnerNode>(rt, n, at)
}

fn main(rt: HostRuntime) -> io::Result<()> {
    print!(rt; "leaf")?;
    words(&rt, node::leaf(9, 100))?;
    println!(rt)?;
    print!(rt; "inner")?;
    words(&rt, two_children())?;
    println!(rt)?;
    for n in 1..9 {
        for at in 0..9 {
            lines(&rt, n, at)?;
        }
    }
    Ok(())
}
