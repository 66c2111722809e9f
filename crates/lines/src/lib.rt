// What the programs print of replies and words: numbers in a line, each with a blank after it.
#![tactic(auto)]

ghost use Rattle.std.specs.Prelude.{Some, flat_map};
ghost use Rattle.forest.specs.Answers.{answer_of};
ghost use Rattle.lines.specs.Text.{spaced, answer_text};

use forest::{Answer, Reply};
use std::fmt;

// Words, in order.
#[derive(Clone, Copy)]
pub struct Words<'a>(pub &'a [u32]);

impl fmt::Display for Words<'_> {
    ghost output = { λ w. Some (flat_map spaced w.0.now) };

    fn fmt<W: fmt::Write>(&self, f: &mut fmt::Formatter<W>) -> fmt::Result {
        for word in self.0 {
            write!(f, "{word} ")?;
        }
        Ok(())
    }
}

// A reply in document 01's numbers: number, found as 0 or 1, key, value.
#[derive(Clone, Copy)]
pub struct Numbers(pub Reply);

impl fmt::Display for Numbers {
    ghost output = { λ n. Some (answer_text (answer_of n.0)) };

    fn fmt<W: fmt::Write>(&self, f: &mut fmt::Formatter<W>) -> fmt::Result {
        let Answer {
            number,
            found,
            key,
            value,
        } = Answer::from(self.0);
        write!(f, "{number} {} {key} {value} ", u32::from(found))
    }
}
