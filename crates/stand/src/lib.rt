// Where a cursor stands.
#![tactic(auto)]

ghost use Rattle.std.specs.Prelude.{◌≡◌, ◌-◌, ◌≤◌};
ghost use Rattle.forest.specs.Sizes.{most_trees, most_levels};
ghost use Rattle.forest.specs.Cursors.{clean};
ghost use Rattle.path.specs.Ways.{Deep};
ghost use Rattle.stand.specs.Runs.{runs_from, levels_from, Tells};

use forest::Cursor;
use path::Tree;

// Whether the levels from l on run from a node to a leaf.
fn runs_from(ws: &[u32], t: usize, c: Cursor, l: usize, node: u32) -> bool
    requires deep { Deep (c.size - l) ws.now t node }
    requires t_le_most_trees { (t ≤ most_trees) × (c.size ≤ most_levels) }
    ensures { result ≡ runs_from ws.now t node (levels_from c l) }
{
    let size = c.size as usize;
    if size <= l || c.nodes[l] != node {
        return false;
    }
    let p = c.places[l];
    let b = t + 16 * (node as usize) - 14;
    let w = ws[b];
    if 32 <= w {
        return l + 1 == size && p <= w - 32;
    }
    p <= w - 16 && runs_from(ws, t, c, l + 1, ws[b + 8 + p as usize])
}

// Whether the size of a cursor is at most 16 and its unused levels hold 0.
#[tactic(auto, using(crate::proofs::Running::zeros_drop), unfolding(forest::specs::Cursors::clean))]
fn is_clean(c: Cursor) -> bool
    ensures { result ≡ clean c }
{
    let size = c.size as usize;
    size <= 16
        && walk::are_zero(&c.nodes, size, 16 - size)
        && walk::are_zero(&c.places, size, 16 - size)
}

// Whether a cursor of a tree stands.
pub fn stands(tree: &Tree, c: Cursor) -> bool
    requires { c.tree ≡ tree.now.number }
    ensures { Tells tree.now.words.now c result }
{
    if !is_clean(c) {
        return false;
    }
    if c.size == 0 {
        return true;
    }
    let root = tree.words[1 + c.tree as usize];
    root != 0 && runs_from(tree.words, tree.trees, c, 0, root)
}
