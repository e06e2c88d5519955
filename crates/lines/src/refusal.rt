// Why a line is not written.
ghost use Rattle.std.specs.Prelude.{Some};
ghost use Rattle.lines.specs.Words.{refusal_in_words};

use std::error::Error;
use std::fmt;

#[derive(Clone, Copy, PartialEq, Eq, Debug)]
pub enum Refusal {
    // The output is shorter than the line.
    ShortOutput,
}

impl fmt::Display for Refusal {
    ghost output = { λ refusal. Some (refusal_in_words refusal) };

    fn fmt<W: fmt::Write>(&self, f: &mut fmt::Formatter<W>) -> fmt::Result {
        match self {
            Refusal::ShortOutput => f.pad("the output is shorter than the line"),
        }
    }
}

impl Error for Refusal {}
