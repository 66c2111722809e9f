// Runs the check on pools that are written out by hand, sound ones and broken ones, and writes a line for each: the answer, and what the pool is.
// The pools are lines of the input, which name a pool by a word, fresh, pair, three, child or six, whose first letter counts:
//   = POOL PLACE WORD WORD ..          the pool has these words from that place on; all its other words are 0; six.rt writes six
//   POOL LENGTH PLACE=WORD ..: NAME    so many words of the pool are judged, with another word at each of the places
//   new LENGTH T N: NAME               so many words that are all 7 are formatted and judged
//   # REMARK
#![tactic(auto)]

mod input;
mod six;

ghost use Rattle.std.specs.Prelude.{◌≤◌};

use forest::{MAX_NODES, MAX_TREES};
use std::io;

// The words of the largest pool.
const ROOM: usize = MAX_TREES as usize + 17 * MAX_NODES as usize + 3;
// Words that are kept of a pool of the input.
const PART: usize = 256;

// Words that are kept of all four, in one array: there is no heap.
const KEPT: usize = 4 * PART;

// A pool that the input names.
#[derive(Clone, Copy)]
enum Pool {
    Fresh,
    Pair,
    Three,
    Child,
    Six,
}

impl From<u8> for Pool {
    // The pool whose name begins with a letter.
    fn from(letter: u8) -> Pool {
        match letter {
            b'f' => Pool::Fresh,
            b'p' => Pool::Pair,
            b't' => Pool::Three,
            b's' => Pool::Six,
            _ => Pool::Child,
        }
    }
}

impl Pool {
    // Where its words are kept.
    fn place(self) -> usize
        ensures { result ≤ 768 }
    {
        match self {
            Pool::Fresh => 0,
            Pool::Pair => PART,
            Pool::Three => 2 * PART,
            Pool::Child | Pool::Six => 3 * PART,
        }
    }

    // Writes it to words that are all 0.
    fn write(self, ws: &mut [u32; ROOM], kept: &[u32; KEPT]) {
        if let Pool::Six = self {
            six::write(ws);
        } else {
            let from = self.place();
            ws[..PART].copy_from_slice(&kept[from..from + PART]);
        }
    }
}

// A line: the answer, and what was judged.
fn say(rt: &(impl Input + Print), sound: bool) -> io::Result<()> {
    print!(rt; "{}", if sound { "yes " } else { "no  " })?;
    input::copy(rt)
}

// Words of the input, up to the end of the line, are kept from place `at` on.
fn keep(rt: &impl Input, kept: &mut [u32; KEPT], at: usize) -> io::Result<()> {
    for word in kept.iter_mut().skip(at) {
        let (value, end) = input::number(rt)?;
        *word = value;
        if end != Some(b' ') {
            break;
        }
    }
    Ok(())
}

// Words of a pool, as the input has them.
fn written(rt: &impl Input, kept: &mut [u32; KEPT]) -> io::Result<()> {
    let pool = input::word(rt)?.map_or(Pool::Child, Pool::from);
    let (from, _) = input::number(rt)?;
    keep(rt, kept, pool.place() + from as usize)
}

// Changes words of a pool as the input says.
fn change(rt: &impl Input, ws: &mut [u32; ROOM]) -> io::Result<()> {
    for _ in 0..20 {
        let (at, _) = input::number(rt)?;
        let (value, end) = input::number(rt)?;
        if let Some(word) = ws.get_mut(at as usize) {
            *word = value;
        }
        if end != Some(b' ') {
            break;
        }
    }
    Ok(())
}

// Judges the first words of a pool, with some changes where the line goes on.
fn judge(rt: &(impl Input + Print), kept: &[u32; KEPT], pool: Pool) -> io::Result<()> {
    let mut ws = [0; ROOM];
    pool.write(&mut ws, kept);
    let (long, end) = input::number(rt)?;
    if end == Some(b' ') {
        change(rt, &mut ws)?;
    }
    if let Some(ws) = ws.get(..long as usize) {
        say(rt, sound::check(ws))?;
    }
    Ok(())
}

// Formats some words, and judges them then.
fn say_format(rt: &(impl Input + Print), ws: &mut [u32], trees: u32, nodes: u32) -> io::Result<()> {
    let reply = pool::format(ws, trees, nodes);
    print!(rt; "{}    ", forest::Answer::from(reply).number)?;
    say(rt, sound::check(ws))
}

// Judges what `format` makes of words that are all 7.
fn formatted(rt: &(impl Input + Print)) -> io::Result<()> {
    let mut ws = [7; ROOM];
    let (long, _) = input::number(rt)?;
    let (trees, _) = input::number(rt)?;
    let (nodes, _) = input::number(rt)?;
    if let Some(ws) = ws.get_mut(..long as usize) {
        say_format(rt, ws, trees, nodes)?;
    }
    Ok(())
}

// The rest of a line of the input, whose first word begins with a letter.
fn line(rt: &(impl Input + Print), kept: &mut [u32; KEPT], letter: u8) -> io::Result<()> {
    match letter {
        b'#' => input::skip(rt),
        b'=' => written(rt, kept),
        b'n' => formatted(rt),
        _ => judge(rt, kept, Pool::from(letter)),
    }
}

fn main(rt: HostRuntime) -> io::Result<()> {
    let mut kept = [0; KEPT];
    for _ in 0..200 {
        let Some(letter) = input::word(&rt)? else {
            break;
        };
        line(&rt, &mut kept, letter)?;
    }
    Ok(())
}
