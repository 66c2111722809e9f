// Paths from the root of a tree to a leaf, as the crate's path.rs has them: going down, and where a path branches. A cursor is taken by value and handed back.
#![tactic(auto)]

ghost use Rattle.std.specs.Prelude.{◌≡◌, true, ◌+◌, ◌-◌, ◌*◌, ◌≤◌, ◌<◌, [], length, take, drop, get_or};
ghost use Rattle.forest.specs.Sizes.{most_trees, most_levels, leaf_least};
ghost use Rattle.sound.specs.Checks.{checked};
ghost use Rattle.forest.specs.Lists.{pad};
ghost use Rattle.forest.specs.Slices.{KeysRise};
ghost use Rattle.forest.specs.Cursors.{cursor_at, first, seek};
ghost use Rattle.path.specs.Ways.{block_at, keys_of, turn_of, land_of, descend, foot_of, Deep};
ghost use Rattle.path.specs.Levels.{pushed, extended, cut_at, right_branch, left_branch, Safe};
ghost use Rattle.path.specs.Cores.{Goes, aim, LeafIn, look_in, Ends, Looks};

use forest::Cursor;

// Which way to go down: to the place of a key, to the first entry, or to the last. A closure in its place would be no plainer: `turn` and `land` each differ by it.
#[derive(Clone, Copy)]
pub enum Way {
    Key(u32),
    First,
    Last,
}

// Where a path ends: the leaf, and the place in it.
#[derive(Clone, Copy)]
pub struct Foot {
    pub node: u32,
    pub place: usize,
}

// A tree of a sound pool: the words, the number of trees, and which of them it is.
#[derive(Clone, Copy)]
pub struct Tree<'a> {
    pub words: &'a [u32],
    pub trees: usize,
    pub number: u32,
    ghost sound: { checked words.now leaf_least ≡ true },
    ghost counted: { trees ≡ get_or words.now 0 0 },
    ghost there: { number < trees },
}

// Cursors

// Off the end.
pub fn off_end(tree: u32) -> Cursor
    ensures { result ≡ cursor_at tree [] }
{
    Cursor {
        tree: tree,
        size: 0,
        nodes: [0u32; 16],
        places: [0u32; 16],
    }
}

// One level more.
#[tactic(auto, unfolding(crate::specs::Levels::pushed))]
pub fn push(mut c: Cursor, node: u32, place: usize) -> Cursor
    requires { (c.size < 16) × (place < 16) }
    ensures { result ≡ pushed c node place }
{
    let l = c.size as usize;
    c.nodes[l] = node;
    c.places[l] = place as u32;
    c.size += 1;
    c
}

// The l words of xs from place `from` on, then zeros.
pub fn part(xs: [u32; 16], from: usize, l: usize) -> [u32; 16]
    requires { from + l ≤ 16 }
    ensures { result ≡ pad most_levels (take l (drop from xs)) }
{
    let mut out = [0u32; 16];
    out[..l].copy_from_slice(&xs[from..from + l]);
    out
}

// The first l levels alone.
#[tactic(auto, unfolding(crate::specs::Levels::cut_at))]
pub fn cut(c: Cursor, l: usize) -> Cursor
    requires { l ≤ 16 }
    ensures { result ≡ cut_at c l }
{
    Cursor {
        tree: c.tree,
        size: l as u32,
        nodes: part(c.nodes, 0, l),
        places: part(c.places, 0, l),
    }
}

// Going down

// The child to follow in the inner node at b. That its words lie there and its keys rise is asked by this and by `land` of each node on the
// way, as it comes (`Lies`): a type round a place would be built at each and be no plainer.
fn turn(ws: &[u32], b: usize, way: Way) -> usize
    requires b_in_bounds { b + 16 ≤ length ws.now }
    requires bound { (16 ≤ get_or ws.now b 0) × (get_or ws.now b 0 ≤ 23) }
    requires keys_rise { KeysRise (keys_of 16 (block_at ws.now b)) }
    ensures { (result ≡ turn_of way (block_at ws.now b)) × (result ≤ get_or ws.now b 0 - 16) }
{
    let s = (ws[b] - 16) as usize;
    match way {
        Way::Key(key) => match forest::search(key, &ws[b + 1..b + 8], s) {
            Ok(i) => i + 1,
            Err(i) => i,
        },
        Way::First => 0,
        Way::Last => s,
    }
}

// The place in the leaf at b.
fn land(ws: &[u32], b: usize, way: Way) -> usize
    requires b_in_bounds { b + 16 ≤ length ws.now }
    requires bound { (33 ≤ get_or ws.now b 0) × (get_or ws.now b 0 ≤ 39) }
    requires keys_rise { KeysRise (keys_of 32 (block_at ws.now b)) }
    ensures { (result ≡ land_of way (block_at ws.now b)) × (result ≤ get_or ws.now b 0 - 32) }
{
    let s = (ws[b] - 32) as usize;
    match way {
        Way::Key(key) => match forest::search(key, &ws[b + 1..b + 8], s) {
            Ok(i) | Err(i) => i,
        },
        Way::First => 0,
        Way::Last => s - 1,
    }
}

// From a node down to a leaf, `left` levels at most. That every way down stays in the words (`Deep`) is asked by the three that go down, of
// another node and level each time: no type holds it, since the next one would be built at each step.
pub fn down(ws: &[u32], t: usize, way: Way, c: Cursor, node: u32, left: usize) -> Cursor
    requires deep { Deep left ws.now t node }
    requires t_le_most_trees { (t ≤ most_trees) × (c.size + left ≤ most_levels) }
    ensures { result ≡ extended c (descend way left ws.now t node) }
{
    let mut out = c;
    let mut n = node;
    for _ in 0..left {
        let b = t + 16 * (n as usize) - 14;
        if 32 <= ws[b] {
            return push(out, n, land(ws, b, way));
        }
        let i = turn(ws, b, way);
        // By hand: `push` here was tried, and is slower, since it copies the whole cursor at each level.
        let l = out.size as usize;
        out.nodes[l] = n;
        out.places[l] = i as u32;
        out.size += 1;
        n = ws[b + 8 + i];
    }
    out
}

// Where a path branches off, and what stands in a leaf

// The deepest level above `level` with more to the right.
pub fn right_sibling_branch_level(ws: &[u32], t: usize, c: Cursor, level: usize) -> Option<usize>
    requires { Safe ws.now t c level }
    ensures { result ≡ right_branch ws.now t c.nodes c.places level }
{
    (0..level).rposition(|l| c.places[l] + 16 < ws[t + 16 * (c.nodes[l] as usize) - 14])
}

// The deepest level above `level` with something to the left.
pub fn left_sibling_branch_level(c: Cursor, level: usize) -> Option<usize>
    requires { level ≤ 16 }
    ensures { result ≡ left_branch c.places level }
{
    c.places[..level].iter().rposition(|&place| place != 0)
}

// What stands at place e of leaf n.
#[tactic(auto, unfolding(crate::specs::Cores::look_in))]
pub fn look_in(ws: &[u32], t: usize, n: u32, e: usize) -> Option<(u32, u32)>
    requires leaf_in { LeafIn ws.now t n }
    requires e_bound { e ≤ 7 }
    ensures { result ≡ look_in ws.now t n e }
{
    let b = t + 16 * (n as usize) - 14;
    if e + 32 < ws[b] as usize {
        return Some((ws[b + 1 + e], ws[b + 8 + e]));
    }
    None
}

// The leaf that going down from a node comes to, `left` levels at most. It goes as `down` does, and makes no cursor, for speed (docs/SPEED.md).
fn leaf_below(ws: &[u32], t: usize, way: Way, node: u32, left: usize) -> u32
    requires deep { Deep left ws.now t node }
    requires t_le_most_trees { t ≤ most_trees }
    ensures { result ≡ foot_of way left ws.now t node }
{
    let mut n = node;
    for _ in 0..left {
        let b = t + 16 * (n as usize) - 14;
        if 32 <= ws[b] {
            return n;
        }
        let i = turn(ws, b, way);
        n = ws[b + 8 + i];
    }
    n
}

impl<'a> Tree<'a> {
    // Go down from the root; in an empty tree off the end.
    fn go(&self, way: Way) -> Cursor
        ensures { Goes (aim way) self.now.words.now self.now.number result }
    {
        let root = self.words[1 + self.number as usize];
        if root == 0 {
            return off_end(self.number);
        }
        down(self.words, self.trees, way, off_end(self.number), root, 16)
    }

    // Go to a key, or where it would be put.
    pub fn find(&self, key: u32) -> Cursor
        ensures { Goes (seek key) self.now.words.now self.now.number result }
    {
        self.go(Way::Key(key))
    }

    // Go to the first pair.
    pub fn first(&self) -> Cursor
        ensures { Goes first self.now.words.now self.now.number result }
    {
        self.go(Way::First)
    }

    // The leaf where a key of a tree that is not empty is or would be put, and its place there; no cursor is made.
    pub fn find_leaf(&self, key: u32) -> Foot
        requires { 1 ≤ get_or self.now.words.now (1 + self.now.number) 0 }
        ensures { Ends key self.now.words.now self.now.number result.node result.place }
    {
        let root = self.words[1 + self.number as usize];
        let n = leaf_below(self.words, self.trees, Way::Key(key), root, 16);
        let b = self.trees + 16 * (n as usize) - 14;
        Foot {
            node: n,
            place: land(self.words, b, Way::Key(key)),
        }
    }

    // What stands at the place of a key, as a look at the cursor that `find` makes sees it.
    pub fn look_for(&self, key: u32) -> Option<(u32, u32)>
        ensures { Looks key self.now.words.now self.now.number result }
    {
        let root = self.words[1 + self.number as usize];
        if root == 0 {
            return None;
        }
        let foot = self.find_leaf(key);
        look_in(self.words, self.trees, foot.node, foot.place)
    }
}
