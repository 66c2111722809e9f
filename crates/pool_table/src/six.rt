// A pool of six levels.
ghost use Rattle.std.specs.Prelude.{◌+◌, ◌*◌, ◌≤◌, ◌<◌};

// The number of entries of leaf j.
fn entries(j: u32) -> u32
    ensures { result ≤ 3 }
{
    if j < 256 { 3 } else { 1 }
}

// Word p of leaf j.
fn leaf_word(j: u32, p: u32) -> u32
    requires { j < 257 }
{
    let s = entries(j);
    match p {
        0 => 32 + s,
        1..=7 if p <= s => 10 * j + p,
        8..=15 if p < 8 + s => j,
        _ => 0,
    }
}

// The smallest key below the x-th node of a level.
fn lowest(level: u32, x: u32) -> u32
    requires { x < 300 }
{
    match level {
        0 => 10 * x + 1,
        1 => 40 * x + 1,
        2 => 160 * x + 1,
        3 => 640 * x + 1,
        _ => 2560 * x + 1,
    }
}

// Word p of an inner node with c children, whose first is the x-th node of the level below, with number n.
fn inner_word(level: u32, c: u32, x: u32, n: u32, p: u32) -> u32
    requires { (c ≤ 4) × (x < 257) × (n < 512) }
{
    match p {
        0 => 15 + c,
        1..=7 if p < c => lowest(level, x + p),
        8..=15 if p < 8 + c => n + p - 8,
        _ => 0,
    }
}

// The children of the i-th of `count` nodes of a level: 4, and of the last one `last`.
fn children(i: u32, count: u32, last: u32) -> u32
    requires { (last ≤ 4) × (i < 1000) }
    ensures { result ≤ 4 }
{
    if i + 1 < count { 4 } else { last }
}

// Word p of the i-th of `count` inner nodes of a level; `first` is the number of the first node of the level below.
fn level_word(level: u32, i: u32, count: u32, first: u32, p: u32) -> u32
    requires { (i ≤ 64) × (4 * i + first < 512) }
{
    inner_word(level, children(i, count, 1), 4 * i, 4 * i + first, p)
}

// Word p of the node after n others. The leaves come first, then the inner nodes level by level.
fn node_word(n: u32, p: u32) -> u32 {
    match n {
        0..=256 => leaf_word(n, p),
        257..=321 => level_word(0, n - 257, 65, 1, p),
        322..=338 => level_word(1, n - 322, 17, 258, p),
        339..=343 => level_word(2, n - 339, 5, 323, p),
        344..=345 => level_word(3, n - 344, 2, 340, p),
        346 => inner_word(4, 2, 0, 345, p),
        _ => 0,
    }
}

// The word at a place of a pool of six levels: 257 leaves below 65, 17, 5, 2 and 1 inner nodes. All but the last of a level are as small
// as they may be, and the last ones have one entry or one child; 165 nodes of 512 are free.
fn word_at(at: usize) -> u32 {
    match at {
        0 => 1,
        1 => 347,
        2 => 512,
        3..=8194 => {
            let i = (at - 3) as u32;
            node_word(i / 16, i % 16)
        }
        8195 => 165,
        8196..=8360 => (8708 - at) as u32,
        _ => 0,
    }
}

// Writes the pool, and zeros after it.
pub fn write(ws: &mut [u32]) {
    for (at, word) in ws.iter_mut().enumerate() {
        *word = word_at(at);
    }
}
