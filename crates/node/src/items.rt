// The items of one node, or of two joined, between their words and their words again: leaves and inner nodes alike.
ghost use Rattle.std.specs.Prelude.{◌≡◌, ◌+◌, ◌≤◌, ◌<◌, drop};
ghost use Rattle.std.proofs.Math.Seq.{paste};
ghost use Rattle.forest.specs.Lists.{remove_at, pad};
ghost use Rattle.node.specs.Nodes.{with_item, less_item, both_items, part_items, half_items};

// The items of one node, or of two joined: keys, and values or children. Past the last all is 0.
// No pairs: keys and links stand apart in the words of a node too, so each goes over in one copy.
#[derive(Clone, Copy)]
pub struct Items {
    pub count: usize,
    pub keys: [u32; 16],
    pub links: [u32; 16],
}

// Items in two, and the first key of the right ones.
#[derive(Clone, Copy)]
pub struct Halves {
    pub left: Items,
    pub right: Items,
    pub key: u32,
}

// `a` with `n` words of `b` from `from` on, in place of its own from `to` on.
pub fn copied(a: [u32; 16], to: usize, b: [u32; 16], from: usize, n: usize) -> [u32; 16]
    requires { (to + n ≤ 16) × (from + n ≤ 16) }
    ensures { result ≡ paste a to (drop from b) n }
{
    let mut out = a;
    out[to..to + n].copy_from_slice(&b[from..from + n]);
    out
}

// `a` without its word at `at`, and a 0 at the end.
fn without(a: [u32; 16], at: usize) -> [u32; 16]
    requires { at < 16 }
    ensures { result ≡ pad 16 (remove_at at a) }
{
    let mut out = a;
    forest::slice_shift(&mut out[at..16], 1);
    out[15] = 0;
    out
}

impl Items {
    // One item more, at place `at`.
    pub fn insert(mut self, at: usize, key: u32, link: u32) -> Items
        requires { (at < 16) × (self.count < 16) }
        ensures { result ≡ with_item self at key link }
    {
        forest::slice_insert(&mut self.keys, at, key);
        forest::slice_insert(&mut self.links, at, link);
        self.count += 1;
        self
    }

    // Without the item at place `at`.
    pub fn remove(self, at: usize) -> Items
        requires { (at < 16) × (1 ≤ self.count) }
        ensures { result ≡ less_item self at }
    {
        Items {
            count: self.count - 1,
            keys: without(self.keys, at),
            links: without(self.links, at),
        }
    }

    // These items and then those of `other`.
    pub fn append(self, other: Items) -> Items
        requires { self.count + other.count ≤ 16 }
        ensures { result ≡ both_items self other }
    {
        Items {
            count: self.count + other.count,
            keys: copied(self.keys, self.count, other.keys, 0, other.count),
            links: copied(self.links, self.count, other.links, 0, other.count),
        }
    }

    // The `n` items from place `from` on.
    fn part(self, from: usize, n: usize) -> Items
        requires { from + n ≤ 16 }
        ensures { result ≡ part_items self from n }
    {
        Items {
            count: n,
            keys: copied([0; 16], 0, self.keys, from, n),
            links: copied([0; 16], 0, self.links, from, n),
        }
    }

    // The items cut in two after the first `l`.
    pub fn cut_at(self, l: usize) -> Halves
        requires { (l ≤ self.count) × (l < 16) × (self.count ≤ 16) }
        ensures { result ≡ half_items self l }
    {
        Halves {
            left: self.part(0, l),
            right: self.part(l, self.count - l),
            key: self.keys[l],
        }
    }
}
