// Tells a reader what is wrong in a text.
ghost use Rattle.std.specs.Prelude.{Some};
ghost use Rattle.depot.specs.Messages.{said};

use crate::fault::{LineFault, TextFault, What, WordFault};
use std::fmt;

// To be said of the word that is wrong.
impl fmt::Display for What {
    ghost output = { λ what. Some (said what) };

    fn fmt<W: fmt::Write>(&self, f: &mut fmt::Formatter<W>) -> fmt::Result {
        f.write_str(match self {
            What::NotANumber => "is not a whole number",
            What::TooLarge => "does not fit 32 bits",
            What::UnknownWord => "is not a list of a depot",
            What::SecondNumber => "is one number too many",
        })
    }
}

impl fmt::Display for WordFault {
    fn fmt<W: fmt::Write>(&self, f: &mut fmt::Formatter<W>) -> fmt::Result {
        let what = self.what;
        write!(f, "'{}' {what}", self.word.as_slice().escape_ascii())
    }
}

impl fmt::Display for LineFault {
    fn fmt<W: fmt::Write>(&self, f: &mut fmt::Formatter<W>) -> fmt::Result {
        write!(f, "line {}: {}", self.line, self.fault)
    }
}

impl<P: fmt::Display> fmt::Display for TextFault<P> {
    fn fmt<W: fmt::Write>(&self, f: &mut fmt::Formatter<W>) -> fmt::Result {
        match self {
            TextFault::Memory => f.write_str("not enough memory"),
            TextFault::Wrong(fault) => write!(f, "{fault}"),
        }
    }
}
