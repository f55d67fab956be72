// What is wrong with a line, as it is said behind the line's number.
ghost use Rattle.std.specs.Prelude.{Some};
ghost use Rattle.grammar.specs.Sentences.{sentence};

use crate::shown::Shown;
use crate::statements::LineFault;
use std::fmt;

impl fmt::Display for LineFault<'_> {
    ghost output = { λ fault. Some (sentence fault) };

    fn fmt<W: fmt::Write>(&self, f: &mut fmt::Formatter<W>) -> fmt::Result {
        match self {
            LineFault::UnknownWord(word) => write!(
                f,
                "begins with '{}', and a line begins with hot, cold, gap or plan",
                Shown(*word)
            ),
            LineFault::NumberMissing => f.write_str(
                "ends too early: hot and cold are followed by three whole numbers, gap by one",
            ),
            LineFault::NotANumber(word) => write!(
                f,
                "has '{}' where a whole number below 4294967296 is wanted",
                Shown(*word)
            ),
            LineFault::WordTooMany(word) => write!(
                f,
                "goes on with '{}', where nothing more is wanted",
                Shown(*word)
            ),
            LineFault::SecondGap => f.write_str("gives the gap a second time, and once is enough"),
            LineFault::SecondPlan => f.write_str(
                "asks for the plan a second time, and once is enough",
            ),
        }
    }
}
