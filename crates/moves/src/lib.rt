// Moves of a cursor, as the crate's path.rs has them: to the next leaf and the one before, to the next pair and the one before.
#![tactic(auto)]

ghost use Rattle.std.specs.Prelude.{◌≡◌, true, ◌+◌, ◌-◌, ◌≤◌, ◌<◌, get_or};
ghost use Rattle.forest.specs.Sizes.{leaf_least};
ghost use Rattle.forest.specs.Cursors.{first, seek, settle, next, prev};
ghost use Rattle.path.specs.Ways.{base};
ghost use Rattle.sound.specs.Checks.{checked};
ghost use Rattle.path.specs.Cores.{Standing, Goes, Sees};
ghost use Rattle.stand.specs.Runs.{stands_at};
ghost use Rattle.moves.specs.Moves.{Level, branched, entered, at_first, Steps, Seen, Back, next_leaf, prev_leaf};

use forest::{Cursor, Hit, Moved};
use path::{Tree, Way};

// A cursor that stands in its tree, as the crate's MapCursor: the words of a sound pool, their number of trees, and where it is.
// It holds no `Tree`: the tree's number stands in the cursor already. Size 0 is off the end, so four of its methods ask for a level.
// It goes by value, so `branch_off` and `next_node`, and settle and next in map, have a hint to be inlined, without which these copy a cursor once
// or twice more, and `prev_leaf` one not to be: prev within a leaf would pay for it (docs/DESIGN-PASS.md, Speed).
#[derive(Clone, Copy)]
pub struct MapCursor<'a> {
    pub words: &'a [u32],
    pub trees: usize,
    pub cursor: Cursor,
    ghost sound: { checked words.now leaf_least ≡ true },
    ghost counted: { trees ≡ get_or words.now 0 0 },
    ghost there: { cursor.tree < trees },
    ghost stands: { stands_at words.now trees (get_or words.now (1 + cursor.tree) 0) cursor ≡ true },
}

// Move within the leaf.
#[tactic(auto, unfolding(crate::specs::Moves::entered))]
fn set_entry(mut c: Cursor, l: usize, entry: u32) -> Cursor
    requires { l < 16 }
    ensures { result ≡ entered c l entry }
{
    c.places[l] = entry;
    c
}

// Whether a cursor is on the first pair of its tree.
#[tactic(auto, unfolding(crate::specs::Moves::at_first))]
fn at_first_entry(c: Cursor) -> bool
    requires { c.size ≤ 16 }
    ensures { result ≡ at_first c }
{
    let size = c.size as usize;
    size != 0 && c.places[size - 1] == 0 && path::left_sibling_branch_level(c, size - 1).is_none()
}

impl<'a> MapCursor<'a> {
    // At a key of a tree, or where it would be put.
    pub fn goto(tree: &Tree<'a>, key: u32) -> MapCursor<'a>
        ensures place { Goes (seek key) tree.now.words.now tree.now.number result.cursor }
        ensures words { result.words.now ≡ tree.now.words.now }
    {
        MapCursor {
            words: tree.words,
            trees: tree.trees,
            cursor: tree.find(key),
        }
    }

    // At the first pair of a tree.
    pub fn goto_first(tree: &Tree<'a>) -> MapCursor<'a>
        ensures place { Goes first tree.now.words.now tree.now.number result.cursor }
        ensures words { result.words.now ≡ tree.now.words.now }
    {
        MapCursor {
            words: tree.words,
            trees: tree.trees,
            cursor: tree.first(),
        }
    }

    // At another place of the same tree.
    fn moved(self, cursor: Cursor) -> MapCursor<'a>
        requires tree { cursor.tree ≡ self.cursor.tree }
        requires stands { Standing self.words.now cursor }
        ensures place { result.cursor ≡ cursor }
        ensures words { result.words.now ≡ self.entry.words.now }
    {
        MapCursor {
            words: self.words,
            trees: self.trees,
            cursor,
        }
    }

    // Keep the levels above level l, take another child there, and go down.
    #[inline]
    fn branch_off(self, way: Way, l: usize, place: usize) -> Cursor
        requires level { Level self.words.now self.trees self.cursor l }
        requires place_bound { place + 16 ≤ get_or self.words.now (base self.trees (get_or self.cursor.nodes l 0)) 0 }
        ensures { result ≡ branched way self.entry.words.now self.entry.trees self.entry.cursor l place }
    {
        let node = self.cursor.nodes[l];
        let b = self.trees + 16 * (node as usize) - 14;
        let child = self.words[b + 8 + place];
        let above = path::push(path::cut(self.cursor, l), node, place);
        path::down(self.words, self.trees, way, above, child, 15 - l)
    }

    // The first pair of the next leaf, or off the end if there is none. It shares `branch_off` with `prev_leaf`, and no more: the level,
    // the place and the end without a level are each its own.
    #[inline]
    fn next_node(self) -> Cursor
        requires { 1 ≤ self.cursor.size }
        ensures { Steps next_leaf self.entry.words.now self.entry.cursor result }
    {
        let size = self.cursor.size as usize;
        let Some(l) = path::right_sibling_branch_level(
            self.words,
            self.trees,
            self.cursor,
            size - 1,
        ) else {
            return path::off_end(self.cursor.tree);
        };
        let place = self.cursor.places[l] as usize + 1;
        self.branch_off(Way::First, l, place)
    }

    // The last pair of the leaf before; in the first leaf where it is.
    #[inline(never)]
    fn prev_leaf(self) -> Cursor
        requires { 1 ≤ self.cursor.size }
        ensures { Steps prev_leaf self.entry.words.now self.entry.cursor result }
    {
        let size = self.cursor.size as usize;
        let Some(l) = path::left_sibling_branch_level(self.cursor, size - 1) else {
            return self.cursor;
        };
        let place = self.cursor.places[l] as usize - 1;
        self.branch_off(Way::Last, l, place)
    }

    // The entries of the leaf where it stands.
    fn leaf_entries(self) -> u32
        requires { 1 ≤ self.cursor.size }
        ensures { (get_or self.entry.words.now (base self.entry.trees (get_or self.entry.cursor.nodes (self.entry.cursor.size - 1) 0)) 0 ≡ 32 + result) × (result ≤ 7) }
    {
        let size = self.cursor.size as usize;
        let node = self.cursor.nodes[size - 1];
        let b = self.trees + 16 * (node as usize) - 14;
        self.words[b] - 32
    }

    // Where the next pair is. Apart from `normal_place`, which differs by one: a wrong program of each is tried (must-fail).
    fn next_place(self) -> Cursor
        ensures { Steps next self.entry.words.now self.entry.cursor result }
    {
        let size = self.cursor.size as usize;
        if size == 0 {
            return self.cursor;
        }
        let entry = self.cursor.places[size - 1];
        let n = self.leaf_entries();
        if entry + 1 < n {
            return set_entry(self.cursor, size - 1, entry + 1);
        }
        self.next_node()
    }

    // Go to the next pair.
    pub fn next(self) -> MapCursor<'a>
        ensures place { Steps next self.entry.words.now self.entry.cursor result.cursor }
        ensures words { result.words.now ≡ self.entry.words.now }
    {
        self.moved(self.next_place())
    }

    // Where the first pair of the next leaf is, from one past a leaf's last entry.
    fn normal_place(self) -> Cursor
        ensures { Steps settle self.entry.words.now self.entry.cursor result }
    {
        let size = self.cursor.size as usize;
        if size == 0 {
            return self.cursor;
        }
        let entry = self.cursor.places[size - 1];
        let n = self.leaf_entries();
        if entry < n {
            return self.cursor;
        }
        self.next_node()
    }

    // From one past a leaf's last entry go to the first pair of the next leaf.
    pub fn normalize(self) -> MapCursor<'a>
        ensures place { Steps settle self.entry.words.now self.entry.cursor result.cursor }
        ensures words { result.words.now ≡ self.entry.words.now }
    {
        self.moved(self.normal_place())
    }

    // Where the pair before is; from off the end the last pair; from the first pair that one. Off the end it goes on from the cursor that
    // is there, and does not make one anew as `go` in path does.
    fn place_before(self) -> Cursor
        ensures { Steps prev self.entry.words.now self.entry.cursor result }
    {
        let size = self.cursor.size as usize;
        if size == 0 {
            let root = self.words[1 + self.cursor.tree as usize];
            if root == 0 {
                return self.cursor;
            }
            return path::down(self.words, self.trees, Way::Last, self.cursor, root, 16);
        }
        let entry = self.cursor.places[size - 1];
        if entry == 0 {
            return self.prev_leaf();
        }
        set_entry(self.cursor, size - 1, entry - 1)
    }

    // What stands where it stands.
    pub fn look(self) -> Option<(u32, u32)>
        ensures { Sees self.entry.words.now self.entry.cursor result }
    {
        let size = self.cursor.size as usize;
        if size == 0 {
            return None;
        }
        let node = self.cursor.nodes[size - 1];
        let entry = self.cursor.places[size - 1] as usize;
        path::look_in(self.words, self.trees, node, entry)
    }

    // The pair that it is on, with the cursor.
    pub fn seen(self) -> Moved
        ensures { Seen self.entry.words.now self.entry.cursor result }
    {
        Moved {
            reply: Ok(self.look().map(|(key, value)| Hit::Pair(key, value))),
            cursor: self.cursor,
        }
    }

    // Go to the pair before and give it; on the first pair none.
    pub fn prev(self) -> Moved
        ensures { Back self.entry.words.now self.entry.cursor result }
    {
        let cursor = self.cursor;
        if at_first_entry(cursor) {
            return Moved {
                reply: Ok(None),
                cursor,
            };
        }
        self.moved(self.place_before()).seen()
    }
}
