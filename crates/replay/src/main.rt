// The replay program of document 01: standard input is read stage by stage, and what is said goes to standard output.
#![tactic(auto)]

ghost use Rattle.std.specs.Prelude.{◌≡◌, ◌≤◌, ◌<◌, IsTrue, IsFalse, length, take};
ghost use Rattle.std.specs.Io.KnownBytes.{Consumes, Appends, IsAtEnd};
ghost use Rattle.requests.specs.Text.{lines};
ghost use Rattle.requests.specs.Turns.{room, wants_of, spoken};
ghost use Rattle.requests.specs.Program.{bytes_of, text_of, TakesTurn, Replays};
ghost use Rattle.replay.specs.Streams.{Streams, Answers};

use forest::{Answer, MAX_NODES, MAX_TREES};
use requests::{Got, Piece, Stage, Taken, Told};
use std::io;

// The words of the largest pool.
const ROOM: usize = MAX_TREES as usize + 17 * MAX_NODES as usize + 3;

// What was read, and whether that was not all because a read failed: what was read counts in either case, so it is no Result.
#[derive(Clone, Copy)]
struct Filled {
    got: Got,
    failed: bool,
}

// Reads until the bytes are full or the input ends. A read that fails ends it too.
// By hand: std's `read_exact` does not tell how much it read where the input ends or a read fails.
fn fill<R: io::Read>(input: &mut R, bytes: &mut [u8]) -> Filled
    ensures asked_value { result.got.asked ≡ length bytes.old }
    ensures count_le_asked { result.got.count ≤ result.got.asked }
    ensures bytes { Consumes (R.remaining input.old) (R.remaining input.new) (take result.got.count bytes.new) }
    ensures ended { IsFalse result.failed → result.got.count < result.got.asked → IsAtEnd (R.remaining input.new) }
{
    let mut count = 0;
    let mut failed = false;
    while count < bytes.len() {
        match input.read(&mut bytes[count..]) {
            Ok(0) => break,
            Ok(n) => count += n,
            Err(_) => {
                failed = true;
                break;
            }
        }
    }
    Filled {
        got: Got {
            asked: bytes.len(),
            count,
        },
        failed,
    }
}

// What the stage wants is read, or all where there is less.
fn read<R: io::Read>(input: &mut R, stage: Stage) -> Piece
    ensures asked_value { result.got.asked ≡ wants_of stage }
    ensures count_le_asked { result.got.count ≤ result.got.asked }
    ensures count_in_bounds { result.got.count ≤ length result.bytes }
    ensures bytes { Consumes (R.remaining input.old) (R.remaining input.new) (bytes_of result) }
{
    let mut bytes = [0u8; 16];
    let wanted = requests::wants(stage);
    let got = fill(input, &mut bytes[..wanted]).got;
    Piece { bytes, got }
}

// Writes the text of what is said.
fn write<W: io::Write>(output: &mut W, said: Option<Answer>, text: &[u8]) -> Told
    requires { text.now ≡ lines (spoken said) }
    ensures said { result.said ≡ said }
    ensures written { IsTrue result.written → Appends (W.contents output.old) (W.contents output.new) (lines (spoken said)) }
{
    let written = output.write_all(text).is_ok();
    Told { said, written }
}

// What is said is made text and written.
fn say<W: io::Write>(output: &mut W, said: Option<Answer>) -> Told
    ensures said { result.said ≡ said }
    ensures written { IsTrue result.written → Appends (W.contents output.old) (W.contents output.new) (lines (spoken said)) }
{
    let mut text = [0u8; 24];
    let start = requests::write_said(&mut text, said);
    write(output, said, &text[start..])
}

// A turn: what the stage wants is read, judged and answered.
fn turn<R: io::Read, W: io::Write>(
    input: &mut R,
    output: &mut W,
    pool: &mut [u32],
    stage: Stage,
) -> Taken
    requires { room ≤ length pool.old }
    ensures turn { TakesTurn stage pool.old pool.new result }
    ensures bytes { Consumes (R.remaining input.old) (R.remaining input.new) (bytes_of result.read) }
    ensures written { IsTrue result.told.written → Appends (W.contents output.old) (W.contents output.new) (text_of result) }
{
    let piece = read(input, stage);
    let turn = requests::judge(pool, stage, piece);
    let told = say(output, turn.said);
    Taken {
        read: piece,
        turn,
        told,
    }
}

// The turns from the first word on, until nothing more is read: the last.
fn run<R: io::Read, W: io::Write>(input: &mut R, output: &mut W, pool: &mut [u32]) -> Taken
    requires { room ≤ length pool.old }
    ensures turns { Replays pool.old pool.new result }
    ensures streams { Streams (R.remaining input.old) (R.remaining input.new) (W.contents output.old) (W.contents output.new) pool.old pool.new result }
    ensures answers { IsTrue result.told.written → Answers (R.remaining input.old) (R.remaining input.new) (W.contents output.old) (W.contents output.new) }
{
    let mut taken = turn(input, output, pool, Stage::Kind);
    let mut stage = requests::next(taken);
    while requests::wants(stage) > 0 {
        taken = turn(input, output, pool, stage);
        stage = requests::next(taken);
    }
    taken
}

fn main(rt: HostRuntime) {
    let mut pool = [0u32; ROOM];
    run(&mut rt.stdin(), &mut rt.stdout(), &mut pool);
}
