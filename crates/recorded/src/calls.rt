// A recorded call of 37 words (data/README.md), made and compared.
ghost use Rattle.std.specs.Prelude.{◌<◌};

use forest::{Answer, Cursor, Moved};
use std::fmt;

// The nine calls.
#[derive(Clone, Copy)]
pub enum Call {
    Put,
    Remove,
    Get,
    Seek,
    Settle,
    First,
    Next,
    Prev,
    RemoveAt,
}

// A first word of a record that is no call.
#[derive(Clone, Copy)]
pub struct Unknown;

impl TryFrom<u32> for Call {
    type Error = Unknown;

    fn try_from(word: u32) -> Result<Self, Unknown> {
        match word {
            1 => Ok(Call::Put),
            2 => Ok(Call::Remove),
            3 => Ok(Call::Get),
            11 => Ok(Call::Seek),
            12 => Ok(Call::Settle),
            13 => Ok(Call::First),
            14 => Ok(Call::Next),
            15 => Ok(Call::Prev),
            16 => Ok(Call::RemoveAt),
            _ => Err(Unknown),
        }
    }
}

// The part in which a call differs from the recorded one.
#[derive(Clone, Copy)]
pub enum Differs {
    Answer,
    Cursor,
    Words,
}

impl fmt::Display for Differs {
    fn fmt<W: fmt::Write>(&self, f: &mut fmt::Formatter<W>) -> fmt::Result {
        f.write_str(match self {
            Differs::Answer => "answer",
            Differs::Cursor => "cursor",
            Differs::Words => "words",
        })
    }
}

// The fold of all words: each goes in by (h xor w) * 16,777,619 modulo 2^32.
fn fold(ws: &[u32]) -> u32 {
    ws.iter()
        .fold(2166136261, |h: u32, w| (h ^ *w).wrapping_mul(16777619))
}

// The nodes or the places of a recorded cursor: six words from place `at` on, and zeros.
fn levels(r: &[u32; 37], at: usize) -> [u32; 16]
    requires { at < 32 }
{
    let mut ls = [0u32; 16];
    ls[..6].copy_from_slice(&r[at..at + 6]);
    ls
}

// The recorded cursor from place `at` on: size, nodes, places.
fn cursor(r: &[u32; 37], at: usize) -> Cursor
    requires { at < 25 }
{
    Cursor {
        tree: r[1],
        size: r[at],
        nodes: levels(r, at + 1),
        places: levels(r, at + 7),
    }
}

// Number, found, key and value are the recorded ones. By hand: the record has found as a word, which may be no bool.
fn same_answer(a: &Answer, r: &[u32; 37]) -> bool {
    a.number == r[4] && u32::from(a.found) == r[5] && a.key == r[6] && a.value == r[7]
}

// A recorded call, made. A call by key has no cursor: the recorded one, all 0, is as it was.
fn made(ws: &mut [u32], call: Call, r: &[u32; 37]) -> Moved {
    let at = cursor(r, 11);
    let tree = r[1];
    let key = r[2];
    let reply = match call {
        Call::Put => map::put(ws, tree, key, r[3]),
        Call::Remove => map::remove(ws, tree, key),
        Call::Get => map::get(ws, tree, key),
        Call::Seek => return map::seek(ws, at, key),
        Call::Settle => return map::settle(ws, at),
        Call::First => return map::first(ws, at),
        Call::Next => return map::next(ws, at),
        Call::Prev => return map::prev(ws, at),
        Call::RemoveAt => return map::remove_at(ws, at),
    };
    Moved { reply, cursor: at }
}

// A recorded call, made; what it gave, and the words after it, are compared with the recorded ones.
pub fn judge(ws: &mut [u32], call: Call, r: &[u32; 37]) -> Result<(), Differs> {
    let m = made(ws, call, r);
    if !same_answer(&Answer::from(m.reply), r) {
        return Err(Differs::Answer);
    }
    if m.cursor != cursor(r, 24) {
        return Err(Differs::Cursor);
    }
    if fold(ws) != r[8] {
        return Err(Differs::Words);
    }
    Ok(())
}
