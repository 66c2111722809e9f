// The keys above a node and its right sibling, as the crate's path.rs has them: what healing reads and changes along the path.
// Each search recurses over the level, as its definition does: a loop would be no plainer, and would need an invariant for each.
// That the path stands in the words (`Route`) is asked by each and stands in no type: a ghost field has to be a proposition, and the check finds
// none in it ("nothing proves `IsProp"); no test of the words tells it between two stores.
#![tactic(auto)]

ghost use Rattle.std.specs.Prelude.{◌≡◌, ◌<◌};
ghost use Rattle.crit.specs.States.{stored, right_set, left_set, hand_key, next_node};
ghost use Rattle.crit.specs.Asks.{Route, Leaves, Nexts, Finds, Crits, Passes, off_end};

use forest::Cursor;

// The right sibling of the node at a level, even under another parent: the key between them, and its number.
pub fn right_sibling(ws: &[u32], t: usize, c: Cursor, level: usize) -> Option<(u32, u32)>
    requires { Route ws.now t c level }
    ensures { Finds ws.now t c level result }
{
    let l = level.checked_sub(1)?;
    let p = c.places[l] as usize;
    let w = pool::load(ws, t, c.nodes[l]);
    if p + 16 < w[0] as usize {
        return Some((w[1 + p], w[9 + p]));
    }
    let (key, above) = right_sibling(ws, t, c, l)?;
    let v = pool::load(ws, t, above);
    Some((key, v[8]))
}

// The key before the right sibling of the node at a level becomes `key`.
// No generic form with update_crit_key, its twin on the left: it would take a trait of two sides for these two alone, and the left search reads no words of the nodes that it passes.
pub fn update_right_crit_key(ws: &mut [u32], t: usize, c: Cursor, level: usize, key: u32)
    requires { Route ws.old t c level }
    ensures { Leaves (λ s. stored s (right_set s.st s.ns s.ps level key)) ws.old ws.new t c c }
{
    let Some(l) = level.checked_sub(1) else {
        return;
    };
    let n = c.nodes[l];
    let p = c.places[l] as usize;
    let mut w = pool::load(ws, t, n);
    if p + 16 < w[0] as usize {
        w[1 + p] = key;
        pool::store(ws, t, n, w);
        return;
    }
    update_right_crit_key(ws, t, c, l, key);
}

// The key before the node at a level, which the leftmost of a level has not.
fn current_crit_key(ws: &[u32], t: usize, c: Cursor, level: usize) -> Option<u32>
    requires { Route ws.now t c level }
    ensures { Crits ws.now t c level result }
{
    let l = level.checked_sub(1)?;
    let p = c.places[l] as usize;
    if p == 0 {
        return current_crit_key(ws, t, c, l);
    }
    let w = pool::load(ws, t, c.nodes[l]);
    Some(w[p])
}

// The key before the node at a level becomes `key`.
pub fn update_crit_key(ws: &mut [u32], t: usize, c: Cursor, level: usize, key: u32)
    requires { Route ws.old t c level }
    ensures { Leaves (λ s. stored s (left_set s.st s.ns s.ps level key)) ws.old ws.new t c c }
{
    let Some(l) = level.checked_sub(1) else {
        return;
    };
    let p = c.places[l] as usize;
    if p == 0 {
        update_crit_key(ws, t, c, l, key);
        return;
    }
    let n = c.nodes[l];
    let mut w = pool::load(ws, t, n);
    w[p] = key;
    pool::store(ws, t, n, w);
}

// The key before the right sibling of the node at a level becomes the one before the node, if it has one.
pub fn hand_crit_key(ws: &mut [u32], t: usize, c: Cursor, level: usize)
    requires { Route ws.old t c level }
    ensures { Leaves (λ s. stored s (hand_key s.st s.ns s.ps level)) ws.old ws.new t c c }
{
    if let Some(key) = current_crit_key(ws, t, c, level) {
        update_right_crit_key(ws, t, c, level, key);
    }
}

// The path to the right sibling of the node at a level.
// The search of right_sibling again, which hands up two words and not a whole path.
fn next_path(ws: &[u32], t: usize, c: Cursor, level: usize) -> Option<Cursor>
    requires { Route ws.now t c level }
    ensures { Nexts ws.now t c level result }
{
    let l = level.checked_sub(1)?;
    let p = c.places[l];
    let w = pool::load(ws, t, c.nodes[l]);
    if p + 16 < w[0] {
        let mut d = c;
        d.nodes[level] = w[9 + p as usize];
        d.places[l] = p + 1;
        return Some(d);
    }
    let mut d = next_path(ws, t, c, l)?;
    let v = pool::load(ws, t, d.nodes[l]);
    d.nodes[level] = v[8];
    d.places[l] = 0;
    Some(d)
}

// The cursor goes off the end; its nodes and places stay.
pub fn off_end(c: Cursor) -> Cursor
    ensures { result ≡ off_end c }
{
    Cursor { size: 0, ..c }
}

// Moves to the first entry of the next node at a level; off the end if there is none. Apart from the one in moves, whose words are those of a sound
// pool: these are in the middle of healing, where other laws hold (docs/DECISIONS.md 25).
pub fn next_node(ws: &[u32], t: usize, c: Cursor, level: usize) -> Cursor
    requires { Route ws.now t c level }
    ensures { Leaves (next_node level) ws.now ws.now t c result }
{
    let Some(mut d) = next_path(ws, t, c, level) else {
        return off_end(c);
    };
    d.places[level] = 0;
    d
}

// The path at a level goes through the right sibling of the node that went; off the end if there is none.
pub fn through_right(c: Cursor, level: usize, near: Option<(u32, u32)>) -> Cursor
    requires { level < 16 }
    ensures { Passes c result level near }
{
    let Some((_, node)) = near else {
        return off_end(c);
    };
    let mut d = c;
    d.nodes[level] = node;
    d
}
