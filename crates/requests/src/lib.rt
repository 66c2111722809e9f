// Document 01's replay: a delivery of little-endian words, read and judged stage by stage, a line of text for each request.
#![tactic(auto)]

ghost use Rattle.std.specs.Prelude.{◌≡◌, ◌++◌, ◌+◌, ◌-◌, ◌^◌, ◌≤◌, ◌<◌, length, take, drop};
ghost use Rattle.forest.specs.Answers.{answer_of};
ghost use Rattle.requests.specs.Text.{digits_of, line, lines};
ghost use Rattle.requests.specs.Replay.{word_at, asked, faulted, Names};
ghost use Rattle.requests.specs.Turns.{wants_of, spoken, goes, stops, asking, after_kind, after_format, after_count};
ghost use Rattle.requests.specs.Turns.{Heeds, Sized, Requested, Turned, rank};
ghost use Rattle.requests.specs.Program.{bytes_of, following};

use forest::{Answer, Reply};

// The first word of a delivery: compared with this number alone, and no kind is told by it.
const KIND: u32 = 2;
// Requests of a delivery at most.
const MAX_REQUESTS: u32 = 4096;

// The calls that a request can ask for.
#[derive(Clone, Copy)]
enum Call {
    Put,
    Remove,
    Get,
}

impl TryFrom<u32> for Call {
    type Error = Fault;

    ghost try_from_gives = { Names };

    fn try_from(kind: u32) -> Result<Self, Fault> {
        match kind {
            1 => Ok(Call::Put),
            2 => Ok(Call::Remove),
            3 => Ok(Call::Get),
            _ => Err(Fault::Unknown),
        }
    }
}

// What is wrong with the words: a request for no call, or no delivery.
#[derive(Clone, Copy)]
enum Fault {
    Unknown,
    NoDelivery,
}

// A fault is answered with its number alone.
impl From<Fault> for Answer {
    ghost from_gives = { λ fault answer. answer ≡ faulted fault };

    fn from(fault: Fault) -> Self {
        Answer {
            number: match fault {
                Fault::Unknown => 6,
                Fault::NoDelivery => 7,
            },
            found: false,
            key: 0,
            value: 0,
        }
    }
}

// What is read next: the first word; T and N; the count, for a pool of so many words; a request on such a pool, and how many
// come after it; nothing.
#[derive(Clone, Copy)]
pub enum Stage {
    Kind,
    Sizes,
    Count(usize),
    Request(usize, u32),
    Stopped,
}

// What a turn hands back: what is read next, and what is said, if anything.
#[derive(Clone, Copy)]
pub struct Turn {
    pub stage: Stage,
    pub said: Option<Answer>,
}

// How many bytes a reading asked for, and how many it got.
#[derive(Clone, Copy)]
pub struct Got {
    pub asked: usize,
    pub count: usize,
}

// What a turn has read: the first `got.count` of the bytes. An array, since there is no heap and a turn hands it back by value.
#[derive(Clone, Copy)]
pub struct Piece {
    pub bytes: [u8; 16],
    pub got: Got,
}

// What was said, and whether it was written: `said` stands in either case, so the flag is no Option's.
#[derive(Clone, Copy)]
pub struct Told {
    pub said: Option<Answer>,
    pub written: bool,
}

// A turn as it was taken: what was read, how it was judged, what was said.
#[derive(Clone, Copy)]
pub struct Taken {
    pub read: Piece,
    pub turn: Turn,
    pub told: Told,
}

// The bytes that a stage reads.
pub fn wants(stage: Stage) -> usize
    ensures value { result ≡ wants_of stage }
    ensures upper_bound { result ≤ 16 }
{
    match stage {
        Stage::Kind => 4,
        Stage::Sizes => 8,
        Stage::Count(_) => 4,
        Stage::Request(_, _) => 16,
        Stage::Stopped => 0,
    }
}

// The little-endian word of the four bytes from place i on.
#[tactic(auto, unfolding(crate::specs::Replay::word_at))]
fn word(b: &[u8], i: usize) -> u32
    requires { i + 4 ≤ length b.now }
    ensures { result ≡ word_at b.now i }
{
    u32::from_le_bytes([b[i], b[i + 1], b[i + 2], b[i + 3]])
}

// Nothing is said, and the stage is next.
fn go(stage: Stage) -> Turn
    ensures { result ≡ goes stage }
{
    Turn { stage, said: None }
}

// That it is no delivery is said, and nothing more is read.
fn stop() -> Turn
    ensures { result ≡ stops 7 }
{
    Turn {
        stage: Stage::Stopped,
        said: Some(Answer::from(Fault::NoDelivery)),
    }
}

// The stage with so many requests left.
fn ask(words: usize, left: u32) -> Stage
    ensures { result ≡ asking words left }
{
    if left == 0 {
        return Stage::Stopped;
    }
    Stage::Request(words, left - 1)
}

// The first word.
#[tactic(auto, unfolding(crate::specs::Turns::after_kind))]
fn after_kind(b: &[u8]) -> Turn
    requires { 4 ≤ length b.now }
    ensures { result ≡ after_kind b.now }
{
    if word(b, 0) == KIND {
        return go(Stage::Sizes);
    }
    stop()
}

// A format's reply: where it is refused that is said, and nothing more is read.
#[tactic(auto, unfolding(crate::specs::Turns::after_format))]
fn after_format(words: usize, reply: Reply) -> Turn
    ensures { result ≡ after_format words (answer_of reply) }
{
    if reply.is_ok() {
        return go(Stage::Count(words));
    }
    Turn {
        stage: Stage::Stopped,
        said: Some(reply.into()),
    }
}

// T and N: the pool is formatted.
fn after_sizes(space: &mut [u32], b: &[u8]) -> Turn
    requires { 8 ≤ length b.now }
    ensures { Sized b.now space.old space.new result }
{
    let trees = word(b, 0);
    let nodes = word(b, 4);
    let words = trees as usize + 17 * nodes as usize + 3;
    let n = words.min(space.len());
    after_format(words, pool::format(&mut space[..n], trees, nodes))
}

// The count.
#[tactic(auto, unfolding(crate::specs::Turns::after_count))]
fn after_count(words: usize, b: &[u8]) -> Turn
    requires { 4 ≤ length b.now }
    ensures { result ≡ after_count words b.now }
{
    let count = word(b, 0);
    if count <= MAX_REQUESTS {
        return go(ask(words, count));
    }
    stop()
}

// A request of four words, on any words: 1 put, 2 remove, 3 get; 6 where it is unknown.
#[tactic(auto, unfolding(crate::specs::Replay::asked))]
fn answer_request(ws: &mut [u32], kind: u32, tree: u32, key: u32, value: u32) -> Answer
    ensures { Heeds (asked kind tree key value) ws.old ws.new result }
{
    match Call::try_from(kind) {
        Ok(Call::Put) => map::put(ws, tree, key, value).into(),
        Ok(Call::Remove) => map::remove(ws, tree, key).into(),
        Ok(Call::Get) => map::get(ws, tree, key).into(),
        Err(fault) => Answer::from(fault),
    }
}

// A request, and how many come after it.
fn after_request(space: &mut [u32], words: usize, more: u32, b: &[u8]) -> Turn
    requires { 16 ≤ length b.now }
    ensures { Requested words more b.now space.old space.new result }
{
    let kind = word(b, 0);
    let tree = word(b, 4);
    let key = word(b, 8);
    let value = word(b, 12);
    let n = words.min(space.len());
    let answer = answer_request(&mut space[..n], kind, tree, key, value);
    Turn {
        stage: ask(words, more),
        said: Some(answer),
    }
}

// A turn: what the stage has read is judged. Where b is shorter than the stage wants, the input ended early.
fn step(space: &mut [u32], stage: Stage, b: &[u8]) -> Turn
    ensures turned { Turned stage b.now space.old space.new result }
    ensures falls { rank result.stage ≤ rank stage - 1 }
{
    if b.len() < wants(stage) {
        return stop();
    }
    match stage {
        Stage::Kind => after_kind(b),
        Stage::Sizes => after_sizes(space, b),
        Stage::Count(words) => after_count(words, b),
        Stage::Request(words, more) => after_request(space, words, more, b),
        Stage::Stopped => go(Stage::Stopped),
    }
}

// The same of what was read.
pub fn judge(space: &mut [u32], stage: Stage, read: Piece) -> Turn
    requires { read.got.count ≤ length read.bytes }
    ensures { Turned stage (bytes_of read) space.old space.new result }
{
    step(space, stage, &read.bytes[..read.got.count])
}

// What is read after a turn: nothing where what is said could not be written.
pub fn next(taken: Taken) -> Stage
    ensures { result ≡ following taken }
{
    if taken.told.written {
        return taken.turn.stage;
    }
    Stage::Stopped
}

// The decimal digits of n, at most `most` of them, before place `at`: where they start. What stands before them stays.
// By hand: std's `write!` promises its text on `Ok` alone, and nothing says that it is `Ok`; a turn has to settle each byte.
#[tactic(auto, using(crate::proofs::Decimals::digits_last, crate::proofs::Decimals::digits_more))]
fn digits(out: &mut [u8], at: usize, most: usize, n: u32) -> usize
    requires { (1 ≤ most) × (most ≤ at) × (at ≤ length out.old) × (n < 10 ^ most) }
    ensures text { out.new ≡ take result out.old ++ digits_of most n (drop at out.old) }
    ensures start { (result ≤ at) × (at ≤ result + most) }
{
    if n < 10 {
        out[at - 1] = b'0' + n as u8;
        return at - 1;
    }
    out[at - 1] = b'0' + (n % 10) as u8;
    digits(out, at - 1, most - 1, n / 10)
}

// The line of an answer, at the end of `out`: where it starts. The bytes before it stay. By hand, as `digits`.
fn write_line(out: &mut [u8], answer: Answer) -> usize
    requires { length out.old ≡ 24 }
    ensures text { out.new ≡ take result out.old ++ line answer }
    ensures start { result ≤ 24 }
{
    out[23] = b'\n';
    let value = digits(out, 23, 10, answer.value);
    out[value - 1] = b' ';
    out[value - 2] = b'0' + u8::from(answer.found);
    out[value - 3] = b' ';
    digits(out, value - 3, 10, answer.number)
}

// The text of what is said, at the end of a buffer that is as long as the longest line: where it starts. The bytes before it stay. A lent array,
// since there is no heap.
pub fn write_said(out: &mut [u8; 24], said: Option<Answer>) -> usize
    ensures text { out.new ≡ take result out.old ++ lines (spoken said) }
    ensures start { (result ≤ 24) × (length out.new ≡ 24) }
    ensures told { drop result out.new ≡ lines (spoken said) }
{
    match said {
        None => 24,
        Some(answer) => write_line(out, answer),
    }
}
