// The crate's recorded answers, held against ours. Standard input is the recorded file (its layout is in data/README.md): each call goes to
// the public call of that name, and the answer, the cursor and the words that come of it are compared with the recorded ones.
// Lists and calls are counted from 0. Input that is not such a file is told in a line, and the run stops. Bytes after the last list are not read.
#![tactic(auto)]

mod calls;
mod input;

ghost use Rattle.std.specs.Prelude.{◌≡◌, ◌+◌, ◌≤◌, IfOk};

use calls::{Call, Differs, Unknown};
use forest::{MAX_NODES, MAX_TREES};
use std::fmt;

// The words of the largest pool.
const ROOM: usize = MAX_TREES as usize + 17 * MAX_NODES as usize + 3;
// The first word of the file: compared with this number alone, and no kind is told by it.
const KIND: u32 = 1;

// Why the run stops. An unknown call and a pool out of range tell their list and call.
#[derive(Clone, Copy)]
enum Stop {
    EndsEarly,
    OtherKind,
    OutOfRange(u32),
    NoCall(u32, u32),
    OtherTotal,
}

impl fmt::Display for Stop {
    fn fmt<W: fmt::Write>(&self, f: &mut fmt::Formatter<W>) -> fmt::Result {
        match self {
            Stop::EndsEarly => f.write_str("the input ends early"),
            Stop::OtherKind => {
                f.write_str("the first word is not 1: these are no recorded answers")
            }
            Stop::OutOfRange(list) => write!(f, "list {list}: T or N is out of range"),
            Stop::NoCall(list, call) => {
                write!(f, "list {list}: call {call} is none that we know")
            }
            Stop::OtherTotal => {
                f.write_str("the number of calls in all is not that of the lists")
            }
        }
    }
}

// How many calls were made, and how many differences were found.
#[derive(Clone, Copy)]
struct Tally {
    calls: u64,
    differ: u64,
}

impl Tally {
    // So many calls, and so many differences.
    fn new(calls: u32, differ: u64) -> Tally
        ensures { (result.calls ≡ calls) × (result.differ ≡ differ) }
    {
        Tally {
            calls: u64::from(calls),
            differ,
        }
    }
}

// The line of a call that differs: one difference. A line that can't be written is let go, here and below: the comparison goes on.
fn call_differs(rt: &impl Print, list: u32, call: u32, part: Differs) -> u64
    ensures { result ≡ 1 }
{
    let _ = println!(rt; "list {list}: call {call} differs in the {part}");
    1
}

// The next record of the input, read, made and compared: the differences, none or one.
fn record(rt: &(impl Input + Print), ws: &mut [u32], list: u32, call: u32) -> Result<u64, Stop>
    ensures { IfOk result (λ differ. differ ≤ 1) }
{
    let r = input::read_words::<37>(rt).ok_or(Stop::EndsEarly)?;
    let which = Call::try_from(r[0]).map_err(|_: Unknown| Stop::NoCall(list, call))?;
    let Err(part) = calls::judge(ws, which, &r) else {
        return Ok(0);
    };
    Ok(call_differs(rt, list, call, part))
}

// The records of a list: the differences.
fn records(rt: &(impl Input + Print), ws: &mut [u32], list: u32, count: u32) -> Result<u64, Stop>
    ensures { IfOk result (λ differ. differ ≤ count) }
{
    let mut differ = 0;
    for call in 0..count {
        differ += record(rt, ws, list, call)?;
    }
    Ok(differ)
}

// The words after a list's last call: whether ours are the recorded ones.
fn same_words(rt: &impl Input, ws: &[u32]) -> Result<bool, Stop> {
    let mut same = true;
    for w in ws {
        if input::read_word(rt).ok_or(Stop::EndsEarly)? != *w {
            same = false;
        }
    }
    Ok(same)
}

// The line of a list that ends with other words: one difference more.
fn words_differ(rt: &impl Print, list: u32, differ: u64) -> u64
    requires { differ ≤ 4294967295 }
    ensures { result ≡ differ + 1 }
{
    let _ = println!(rt; "list {list}: the words at the end differ");
    differ + 1
}

// The end of a list of so many calls, in which so many differ: the differences with those of the words there.
fn closed(
    rt: &(impl Input + Print),
    ws: &[u32],
    list: u32,
    count: u32,
    differ: u64,
) -> Result<u64, Stop>
    requires { differ ≤ 4294967295 }
    ensures { IfOk result (λ all. (differ ≤ all) × (all ≤ differ + 1)) }
{
    if !same_words(rt, ws)? {
        return Ok(words_differ(rt, list, differ));
    }
    if differ == 0 {
        let _ = println!(rt; "list {list}: {count} calls agree");
    }
    Ok(differ)
}

// The records of a list and the words at its end: the differences. Other words there are one difference more.
fn compared(rt: &(impl Input + Print), ws: &mut [u32], list: u32, count: u32) -> Result<u64, Stop>
    ensures { IfOk result (λ differ. differ ≤ count + 1) }
{
    let differ = records(rt, ws, list, count)?;
    closed(rt, ws, list, count, differ)
}

// A list on words that become a fresh pool, where T and N are in range.
fn run(
    rt: &(impl Input + Print),
    ws: &mut [u32],
    list: u32,
    trees: u32,
    nodes: u32,
    count: u32,
) -> Result<u64, Stop>
    ensures { IfOk result (λ differ. differ ≤ 4294967296) }
{
    if pool::format(ws, trees, nodes).is_err() {
        return Err(Stop::OutOfRange(list));
    }
    compared(rt, ws, list, count)
}

// The words of a pool of so many trees and nodes.
fn pool_words(trees: u32, nodes: u32) -> usize {
    trees as usize + 17 * nodes as usize + 3
}

// The next list of the input: T, N and the number of calls, then the records, then the words at the end.
fn next_list(rt: &(impl Input + Print), space: &mut [u32], list: u32) -> Result<Tally, Stop>
    ensures { IfOk result (λ tally. (tally.calls ≤ 4294967295) × (tally.differ ≤ 4294967296)) }
{
    let [trees, nodes, count] = input::read_words::<3>(rt).ok_or(Stop::EndsEarly)?;
    let n = pool_words(trees, nodes).min(space.len());
    let differ = run(rt, &mut space[..n], list, trees, nodes, count)?;
    Ok(Tally::new(count, differ))
}

// So many lists.
fn lists(rt: &(impl Input + Print), count: u32) -> Result<Tally, Stop> {
    let mut space = [0u32; ROOM];
    let mut all = Tally {
        calls: 0,
        differ: 0,
    };
    for list in 0..count {
        let one = next_list(rt, &mut space, list)?;
        all.calls += one.calls;
        all.differ += one.differ;
    }
    Ok(all)
}

// The whole input, which tells how many calls there are in all.
fn whole(rt: &(impl Input + Print)) -> Result<Tally, Stop> {
    let [kind, count, total] = input::read_words::<3>(rt).ok_or(Stop::EndsEarly)?;
    if kind != KIND {
        return Err(Stop::OtherKind);
    }
    let all = lists(rt, count)?;
    if all.calls != u64::from(total) {
        return Err(Stop::OtherTotal);
    }
    Ok(all)
}

fn main(rt: HostRuntime) {
    let _ = match whole(&rt) {
        Ok(all) => println!(rt; "{} calls, {} differ", all.calls, all.differ),
        Err(why) => println!(rt; "{why}"),
    };
}
