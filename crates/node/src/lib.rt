// One node of a tree, as its sixteen words by value.
#![tactic(auto)]

ghost use Rattle.std.specs.Prelude.{◌≡◌, List, [], ◌∷◌, ◌++◌, ℕ, suc, ◌+◌, ◌-◌, ◌≤◌, ◌<◌, get_or};
ghost use Rattle.forest.specs.Lists.{insert_at};
ghost use Rattle.forest.specs.Pairs.{Item};
ghost use Rattle.forest.specs.Rows.{keeps};
ghost use Rattle.forest.specs.Pools.{leaf_words, inner_words};
ghost use Rattle.node.specs.Nodes.{Leaf, Inner, leaf_pairs, inner_items, keyed, status_of, cut_of, split_of, balance_of, items_of, packed, packed_halves};
ghost use Rattle.node.specs.Kinds.{KindLaws, leaf_laws, inner_laws};

pub mod items;

use items::{Items, copied};

// How a node stands that lost an entry.
#[derive(Clone, Copy)]
pub enum Removed {
    // In good shape.
    Healthy,
    // In good shape, and the rightmost entry went.
    Rightmost,
    // Too few entries are left.
    Underflow,
    // The last entry went.
    Empty,
}

impl Removed {
    // How a node of `capacity` stands that lost its item at `removed` and has `left` left.
    #[tactic(auto, unfolding(crate::specs::Nodes::status_of))]
    fn new(removed: usize, left: usize, capacity: usize) -> Removed
        requires { left < 16 }
        ensures { result ≡ status_of capacity removed left }
    {
        if capacity <= 2 * left {
            if removed == left {
                Removed::Rightmost
            } else {
                Removed::Healthy
            }
        } else if 0 < left {
            Removed::Underflow
        } else {
            Removed::Empty
        }
    }
}

// A full node with one entry more, in two, and the right half's first key.
#[derive(Clone, Copy)]
pub struct SplitOff {
    pub left: [u32; 16],
    pub right: [u32; 16],
    pub key: u32,
}

// A node that lost an entry.
#[derive(Clone, Copy)]
pub struct Cut {
    pub words: [u32; 16],
    pub status: Removed,
}

// Two nodes after balancing: all is in the right one, or they share.
#[derive(Clone, Copy)]
pub enum Balanced {
    Merged([u32; 16]),
    Shared(SplitOff),
}

// A kind of node: leaves, which hold pairs, or inner nodes, which hold children with keys between them.
pub trait Kind {
    // How many items a node has room for.
    const CAPACITY: usize;

    // What the first word adds to the number of items.
    const TAG: u32;

    // How many of the first keys no node stores.
    const HIDDEN: usize;

    ghost CAPACITY: { ℕ };

    ghost TAG: { ℕ };

    ghost HIDDEN: { ℕ };

    // The words of items.
    ghost words: { List Item → List ℕ };

    // The items of words.
    ghost items: { List ℕ → List Item };

    // The words are those of such a node.
    ghost Is: { List ℕ → Type 0 };

    // What each kind keeps.
    ghost laws: { KindLaws CAPACITY TAG HIDDEN words items Is };
}

// Leaves.
pub struct LeafNode;

impl Kind for LeafNode {
    const CAPACITY: usize = 7;

    const TAG: u32 = 32;

    const HIDDEN: usize = 0;

    ghost CAPACITY = { 7 };

    ghost TAG = { 32 };

    ghost HIDDEN = { 0 };

    ghost words = { leaf_words };

    ghost items = { leaf_pairs };

    ghost Is = { Leaf };

    ghost laws = { leaf_laws };
}

// Inner nodes.
pub struct InnerNode;

impl Kind for InnerNode {
    const CAPACITY: usize = 8;

    const TAG: u32 = 15;

    const HIDDEN: usize = 1;

    ghost CAPACITY = { 8 };

    ghost TAG = { 15 };

    ghost HIDDEN = { 1 };

    ghost words = { inner_words };

    ghost items = { inner_items };

    ghost Is = { Inner };

    ghost laws = { inner_laws };
}

// An inner node with a single key and two children.
pub fn inner(left: u32, key: u32, right: u32) -> [u32; 16]
    ensures { result ≡ inner_words ((0, left) ∷ (key, right) ∷ []) }
{
    let mut w = [0; 16];
    w[0] = 17;
    w[1] = key;
    w[8] = left;
    w[9] = right;
    w
}

// A leaf with a single pair.
pub fn leaf(key: u32, value: u32) -> [u32; 16]
    ensures { result ≡ leaf_words ((key, value) ∷ []) }
{
    let mut w = [0; 16];
    w[0] = 33;
    w[1] = key;
    w[8] = value;
    w
}

// The items of a node; where it stores no first key, that is `first`.
// `K.Is` is asked by four functions and stands in no type: words come bare from the pool and go back bare, so a type round them would be no plainer.
fn unpack<K: Kind>(w: [u32; 16], first: u32) -> Items
    requires { K.Is w }
    ensures { (result.count ≡ get_or w 0 0 - K.TAG) × (result ≡ items_of (keyed K.HIDDEN first (K.items w))) }
{
    let mut keys = [0; 16];
    keys[0] = first;
    Items {
        count: (w[0] - K::TAG) as usize,
        keys: copied(keys, K::HIDDEN, w, 1, 7),
        links: copied([0; 16], 0, w, 8, 8),
    }
}

// The words of a node.
fn pack<K: Kind>(items: Items) -> [u32; 16]
    requires { (1 ≤ items.count) × (items.count ≤ K.CAPACITY) }
    ensures { result ≡ packed K.TAG K.HIDDEN items }
{
    let mut w = [0; 16];
    w[0] = K::TAG + items.count as u32;
    copied(copied(w, 1, items.keys, K::HIDDEN, 7), 8, items.links, 0, 8)
}

// `key` at place `index` of an inner node with room, and `node` right of it.
pub fn inner_insert(w: [u32; 16], index: usize, key: u32, node: u32) -> [u32; 16]
    requires { Inner w × (get_or w 0 0 < 23) × (index < get_or w 0 0 - 15) }
    ensures { result ≡ inner_words (insert_at (suc index) (key, node) (inner_items w)) }
{
    pack::<InnerNode>(unpack::<InnerNode>(w, 0).insert(index + 1, key, node))
}

// The entries that the left half of a full node of `len` keeps, the one at place `ins` in.
#[tactic(auto, unfolding(forest::specs::Rows::keeps))]
fn split_pos(len: usize, ins: usize) -> usize
    requires { (2 ≤ len) × (len < 16) }
    ensures { (1 ≤ result) × (result ≤ len) × (result ≡ keeps len ins) }
{
    if ins <= len / 2 {
        len / 2 + 1
    } else {
        (len + 1) / 2
    }
}

// Items cut in two after the first `l`, each half in a node.
fn halves<K: Kind>(all: Items, l: usize) -> SplitOff
    requires { (1 ≤ l) × (l ≤ K.CAPACITY) × (l < all.count) × (all.count ≤ l + K.CAPACITY) }
    ensures { result ≡ packed_halves K.TAG K.HIDDEN all l }
{
    let parts = all.cut_at(l);
    SplitOff {
        left: pack::<K>(parts.left),
        right: pack::<K>(parts.right),
        key: parts.key,
    }
}

// A full node cut in two, with `key` and `link` at place `at`.
pub fn split<K: Kind>(w: [u32; 16], at: usize, key: u32, link: u32) -> SplitOff
    requires { K.Is w × (get_or w 0 0 ≡ K.TAG + K.CAPACITY) × (at ≤ K.CAPACITY) }
    ensures { result ≡ split_of K.words (keeps K.CAPACITY at) (insert_at at (key, link) (K.items w)) }
{
    let all = unpack::<K>(w, 0).insert(at, key, link);
    halves::<K>(all, split_pos(K::CAPACITY, at))
}

// A node without its item at place `at`.
pub fn remove<K: Kind>(w: [u32; 16], at: usize) -> Cut
    requires { K.Is w × (at < get_or w 0 0 - K.TAG) }
    ensures { (result.words ≡ cut_of K.TAG K.words K.items w at) × (result.status ≡ status_of K.CAPACITY at (get_or w 0 0 - suc K.TAG)) }
{
    let others = unpack::<K>(w, 0).remove(at);
    let left = others.count;
    let status = Removed::new(at, left, K::CAPACITY);
    if left == 0 {
        return Cut {
            words: [0; 16],
            status,
        };
    }
    Cut {
        words: pack::<K>(others),
        status,
    }
}

// A node and its right neighbour, which `key` comes before: everything to the right if it fits, or else they share.
pub fn balance<K: Kind>(w: [u32; 16], v: [u32; 16], key: u32) -> Balanced
    requires { K.Is w × K.Is v }
    ensures { result ≡ balance_of K.words K.CAPACITY (K.items w ++ keyed K.HIDDEN key (K.items v)) }
{
    let all = unpack::<K>(w, 0).append(unpack::<K>(v, key));
    let n = all.count;
    if n <= K::CAPACITY {
        return Balanced::Merged(pack::<K>(all));
    }
    Balanced::Shared(halves::<K>(all, n - n / 2))
}
