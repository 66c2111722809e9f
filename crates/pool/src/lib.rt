// The pool of nodes: its layout in the words, reading and storing a node, taking and freeing one, formatting.
// Nodes are numbers in one block of words, and word 0 of a node tells its kind: fixed memory, and the C interface. That the number of a tree is
// within the words is a bound that four functions ask, as an index does.
#![tactic(auto)]

ghost use Rattle.std.specs.Prelude.{◌≡◌, ◌+◌, ◌*◌, ◌≤◌, ◌<◌, length, get_or, set};
ghost use Rattle.forest.specs.Pools.{formatted, format_words, format_answer, encode, fresh};
ghost use Rattle.pool.specs.Stores.{block, with_block, patched, stack_at, free_count, top_node, taken_words, freed_words, down};
ghost use Rattle.pool.specs.Stores.{Placed, Stocked, Freeable};

use forest::{MAX_NODES, MAX_TREES, NODE_SIZE, Refusal, Reply};

// The number of trees, T. It is handed along as `t`. A struct of words and T would be no plainer: each function that stores would promise of
// its `&mut` besides that T stays, and those that read are called between stores.
pub fn tree_count(ws: &[u32]) -> usize
    requires { 1 ≤ length ws.now }
    ensures { result ≡ get_or ws.now 0 0 }
{
    ws[0] as usize
}

// The number of nodes, N.
fn node_count(ws: &[u32], t: usize) -> u32
    requires { t + 1 < length ws.now }
    ensures { result ≡ get_or ws.now (t + 1) 0 }
{
    ws[t + 1]
}

// Where the number of free nodes stands; the stack follows it.
fn stack_at(ws: &[u32], t: usize) -> usize
    requires { stack_at ws.now t < length ws.now }
    ensures { result ≡ stack_at ws.now t }
{
    t + 2 + NODE_SIZE * (node_count(ws, t) as usize)
}

// The number of free nodes, F.
pub fn free_count(ws: &[u32], t: usize) -> u32
    requires { stack_at ws.now t < length ws.now }
    ensures { result ≡ free_count ws.now t }
{
    ws[stack_at(ws, t)]
}

// The root of a tree, 0 if it is empty.
pub fn root(ws: &[u32], tree: u32) -> u32
    requires { tree + 1 < length ws.now }
    ensures { result ≡ get_or ws.now (tree + 1) 0 }
{
    ws[tree as usize + 1]
}

// A tree gets another root.
pub fn set_root(ws: &mut [u32], tree: u32, n: u32)
    requires { tree + 1 < length ws.old }
    ensures { ws.new ≡ set ws.old (tree + 1) n }
{
    ws[tree as usize + 1] = n;
}

// The words of node n.
#[tactic(auto, using(crate::proofs::Patches::copied_out))]
pub fn load(ws: &[u32], t: usize, n: u32) -> [u32; 16]
    requires { Placed ws.now t n }
    ensures { result ≡ block ws.now t n }
{
    // node 1 starts at t + 2
    let b = t + NODE_SIZE * (n as usize) - 14;
    let mut node = [0u32; 16];
    // copy_from_slice is slower: it asks first whether the two overlap
    for i in 0..NODE_SIZE {
        node[i] = ws[b + i];
    }
    node
}

// Node n gets the words of `node`.
#[tactic(auto, using(crate::proofs::Patches::copied_in, crate::proofs::Patches::stored))]
pub fn store(ws: &mut [u32], t: usize, n: u32, node: [u32; 16])
    requires { Placed ws.old t n }
    ensures { ws.new ≡ with_block ws.old t n node }
{
    let b = t + NODE_SIZE * (n as usize) - 14;
    // copy_from_slice is slower: it asks first whether the two overlap
    for i in 0..NODE_SIZE {
        ws[b + i] = node[i];
    }
}

// Takes the node on top of the stack.
#[tactic(auto, unfolding(crate::specs::Stores::taken_words))]
pub fn alloc_node(ws: &mut [u32], t: usize) -> u32
    requires { Stocked ws.old t }
    ensures node { result ≡ top_node ws.old t }
    ensures words { ws.new ≡ taken_words ws.old t }
{
    let at = stack_at(ws, t);
    let f = free_count(ws, t);
    let top = at + f as usize;
    let node = ws[top];
    ws[at] = f - 1;
    ws[top] = 0;
    node
}

// Puts a node on top of the stack, its words zeros.
#[tactic(auto, unfolding(crate::specs::Stores::freed_words, crate::specs::Stores::pushed_words))]
pub fn free_node(ws: &mut [u32], t: usize, n: u32)
    requires { Freeable ws.old t n }
    ensures { ws.new ≡ freed_words ws.old t n }
{
    let at = stack_at(ws, t);
    let f = free_count(ws, t) + 1;
    ws[at] = f;
    ws[at + f as usize] = n;
    store(ws, t, n, [0u32; 16]);
}

// T and N are in range, and `long` is the length that they ask for.
#[tactic(auto, unfolding(forest::specs::Pools::formatted))]
fn format_fits(long: usize, trees: u32, nodes: u32) -> bool
    ensures { result ≡ formatted trees nodes long }
{
    (1..=MAX_TREES).contains(&trees)
        && nodes <= MAX_NODES
        && long == trees as usize + 17 * (nodes as usize) + 3
}

// The numbers n, n - 1, .., 1 from place a on.
#[tactic(auto, using(crate::proofs::Fresh::stacked, crate::proofs::Fresh::stacked_all))]
fn stack_all(ws: &mut [u32], a: usize, n: u32)
    requires { a + n ≤ length ws.old }
    ensures { ws.new ≡ patched ws.old a (down n) }
{
    for i in 0..n {
        ws[a + i as usize] = n - i;
    }
}

// The words of a fresh pool.
fn lay_out(ws: &mut [u32], trees: u32, nodes: u32)
    requires { length ws.old ≡ trees + 17 * nodes + 3 }
    ensures { ws.new ≡ encode (fresh trees nodes) }
{
    let t = trees as usize;
    let n = nodes as usize;
    ws[0] = trees;
    ws[1..1 + t].fill(0);
    ws[t + 1] = nodes;
    ws[t + 2..t + 2 + NODE_SIZE * n].fill(0);
    ws[t + 2 + NODE_SIZE * n] = nodes;
    stack_all(ws, t + 3 + NODE_SIZE * n, nodes);
}

// Makes the words those of a fresh pool; refused, exactly, if T or N is out of range or the length is another.
#[tactic(auto, using(forest::proofs::CountLaws::format_in), unfolding(forest::specs::Pools::format_words, forest::specs::Pools::format_answer))]
pub fn format(ws: &mut [u32], trees: u32, nodes: u32) -> Reply
    ensures words { ws.new ≡ format_words trees nodes ws.old }
    ensures answer { result ≡ format_answer trees nodes ws.old }
{
    if !format_fits(ws.len(), trees, nodes) {
        return Err(Refusal::NoFormat);
    }
    lay_out(ws, trees, nodes);
    Ok(None)
}
