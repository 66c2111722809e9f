// The exports for programs in C and Rust: the public calls with numbered answers, and behind each the call for sound words.
#![tactic(auto)]

ghost use Rattle.std.specs.Prelude.{◌≡◌};
ghost use Rattle.forest.specs.Sizes.{leaf_least};
ghost use Rattle.forest.specs.Answers.{answer_of};
ghost use Rattle.forest.specs.Pools.{Sound, get, put, remove, format_words, format_answer};
ghost use Rattle.forest.specs.Cursors.{to_first, to_key, to_next, to_prev, to_settled, to_remove};
ghost use Rattle.sound.specs.Exact.{Exact};
ghost use Rattle.map.specs.Gates.{Stood, Told};
ghost use Rattle.map.specs.Numbers.{AnswersCall, AnswersMove};

use forest::{Answer, Cursor};

// What a cursor call hands back, laid out for the C interface.
#[repr(C)]
#[derive(Clone, Copy)]
pub struct Moved {
    pub answer: Answer,
    pub cursor: Cursor,
}

// What a cursor call hands back, its reply in document 01's numbers.
impl From<forest::Moved> for Moved {
    ghost from_gives = { λ moved r. (r.answer ≡ answer_of moved.reply) × (r.cursor ≡ moved.cursor) };

    fn from(moved: forest::Moved) -> Moved {
        Moved {
            answer: moved.reply.into(),
            cursor: moved.cursor,
        }
    }
}

// The public calls, for any words. Each export is a function of its own: the C interface

// Whether the words are a sound pool.
#[unsafe(no_mangle)]
pub extern "C" fn recorder_check(words: &[u32]) -> bool
    ensures { Exact leaf_least words.now result }
{
    sound::check(words)
}

// Lays out a pool of empty trees.
#[unsafe(no_mangle)]
pub extern "C" fn recorder_format(words: &mut [u32], trees: u32, nodes: u32) -> Answer
    ensures words { words.new ≡ format_words trees nodes words.old }
    ensures answer { result ≡ answer_of (format_answer trees nodes words.old) }
{
    pool::format(words, trees, nodes).into()
}

// The value of a key.
#[unsafe(no_mangle)]
pub extern "C" fn recorder_get(words: &[u32], tree: u32, key: u32) -> Answer
    ensures { AnswersCall (get tree key) words.now words.now result }
{
    map::get(words, tree, key).into()
}

// Files a value under a key, in place of an earlier one, which is told.
#[unsafe(no_mangle)]
pub extern "C" fn recorder_put(words: &mut [u32], tree: u32, key: u32, value: u32) -> Answer
    ensures { AnswersCall (put tree key value) words.old words.new result }
{
    map::put(words, tree, key, value).into()
}

// Takes a key out, and tells its value.
#[unsafe(no_mangle)]
pub extern "C" fn recorder_remove(words: &mut [u32], tree: u32, key: u32) -> Answer
    ensures { AnswersCall (remove tree key) words.old words.new result }
{
    map::remove(words, tree, key).into()
}

// Go to the first pair, and tell it.
#[unsafe(no_mangle)]
pub extern "C" fn recorder_first(words: &[u32], at: Cursor) -> Moved
    ensures { AnswersMove to_first at words.now words.now result.answer result.cursor }
{
    map::first(words, at).into()
}

// Go to a key and tell its value, or to where it would be put.
#[unsafe(no_mangle)]
pub extern "C" fn recorder_seek(words: &[u32], at: Cursor, key: u32) -> Moved
    ensures { AnswersMove (to_key key) at words.now words.now result.answer result.cursor }
{
    map::seek(words, at, key).into()
}

// From one past a leaf's last entry go to the pair after it; nothing is told.
#[unsafe(no_mangle)]
pub extern "C" fn recorder_settle(words: &[u32], at: Cursor) -> Moved
    ensures { AnswersMove to_settled at words.now words.now result.answer result.cursor }
{
    map::settle(words, at).into()
}

// Go to the next pair, and tell it; after the last the cursor is off the end.
#[unsafe(no_mangle)]
pub extern "C" fn recorder_next(words: &[u32], at: Cursor) -> Moved
    ensures { AnswersMove to_next at words.now words.now result.answer result.cursor }
{
    map::next(words, at).into()
}

// Go to the pair before, and tell it; on the first pair stay, and tell none.
#[unsafe(no_mangle)]
pub extern "C" fn recorder_prev(words: &[u32], at: Cursor) -> Moved
    ensures { AnswersMove to_prev at words.now words.now result.answer result.cursor }
{
    map::prev(words, at).into()
}

// Takes out the pair that the cursor is on, tells its value, and goes to the next; on no pair nothing happens.
#[unsafe(no_mangle)]
pub extern "C" fn recorder_remove_at(words: &mut [u32], at: Cursor) -> Moved
    ensures { AnswersMove to_remove at words.old words.new result.answer result.cursor }
{
    map::remove_at(words, at).into()
}

// The calls for sound words, and from settle on for a cursor that stands

// Whether a cursor stands in a tree that is there.
#[unsafe(no_mangle)]
pub extern "C" fn recorder_sound_stands(words: &[u32], at: Cursor) -> bool
    requires { Sound leaf_least words.now }
    ensures { Told words.now at result }
{
    map::sound_stands(words, at)
}

// The value of a key.
#[unsafe(no_mangle)]
pub extern "C" fn recorder_sound_get(words: &[u32], tree: u32, key: u32) -> Answer
    requires { Sound leaf_least words.now }
    ensures { AnswersCall (get tree key) words.now words.now result }
{
    map::sound_get(words, tree, key).into()
}

// Files a value under a key, in place of an earlier one, which is told.
#[unsafe(no_mangle)]
pub extern "C" fn recorder_sound_put(words: &mut [u32], tree: u32, key: u32, value: u32) -> Answer
    requires { Sound leaf_least words.old }
    ensures { AnswersCall (put tree key value) words.old words.new result }
{
    map::sound_put(words, tree, key, value).into()
}

// Takes a key out, and tells its value.
#[unsafe(no_mangle)]
pub extern "C" fn recorder_sound_remove(words: &mut [u32], tree: u32, key: u32) -> Answer
    requires { Sound leaf_least words.old }
    ensures { AnswersCall (remove tree key) words.old words.new result }
{
    map::sound_remove(words, tree, key).into()
}

// Go to the first pair, and tell it.
#[unsafe(no_mangle)]
pub extern "C" fn recorder_sound_first(words: &[u32], at: Cursor) -> Moved
    requires { Sound leaf_least words.now }
    ensures { AnswersMove to_first at words.now words.now result.answer result.cursor }
{
    map::sound_first(words, at).into()
}

// Go to a key and tell its value, or to where it would be put.
#[unsafe(no_mangle)]
pub extern "C" fn recorder_sound_seek(words: &[u32], at: Cursor, key: u32) -> Moved
    requires { Sound leaf_least words.now }
    ensures { AnswersMove (to_key key) at words.now words.now result.answer result.cursor }
{
    map::sound_seek(words, at, key).into()
}

// From one past a leaf's last entry go to the pair after it; nothing is told.
#[unsafe(no_mangle)]
pub extern "C" fn recorder_sound_settle(words: &[u32], at: Cursor) -> Moved
    requires { Stood words.now at }
    ensures { AnswersMove to_settled at words.now words.now result.answer result.cursor }
{
    map::sound_settle(words, at).into()
}

// Go to the next pair, and tell it; after the last the cursor is off the end.
#[unsafe(no_mangle)]
pub extern "C" fn recorder_sound_next(words: &[u32], at: Cursor) -> Moved
    requires { Stood words.now at }
    ensures { AnswersMove to_next at words.now words.now result.answer result.cursor }
{
    map::sound_next(words, at).into()
}

// Go to the pair before, and tell it; on the first pair stay, and tell none.
#[unsafe(no_mangle)]
pub extern "C" fn recorder_sound_prev(words: &[u32], at: Cursor) -> Moved
    requires { Stood words.now at }
    ensures { AnswersMove to_prev at words.now words.now result.answer result.cursor }
{
    map::sound_prev(words, at).into()
}

// Takes out the pair that the cursor is on, tells its value, and goes to the next; on no pair nothing happens.
#[unsafe(no_mangle)]
pub extern "C" fn recorder_sound_remove_at(words: &mut [u32], at: Cursor) -> Moved
    requires { Stood words.old at }
    ensures { AnswersMove to_remove at words.old words.new result.answer result.cursor }
{
    map::sound_remove_at(words, at).into()
}
