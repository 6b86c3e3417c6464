// The kinds of roads that a depot has, by their names.
ghost use Rattle.std.specs.Prelude.{◌≡◌, Some};
ghost use Rattle.console.specs.Verbs.{kind_name, kinds};

use depot::{Listed, Named};
use std::fmt;

#[derive(Clone, Copy, Debug, PartialEq, Eq)]
pub enum Kind {
    Clock,
    Guided,
    Length,
}

impl Kind {
    fn as_str(self) -> &'static str
        ensures { result.now ≡ kind_name self }
    {
        match self {
            Kind::Clock => "clock",
            Kind::Guided => "guided",
            Kind::Length => "length",
        }
    }
}

impl Named for Kind {
    ghost called = { kind_name };

    fn name(&self) -> &'static [u8] {
        self.as_str().as_bytes()
    }
}

impl Listed for Kind {
    ghost every = { kinds };

    fn all() -> &'static [Kind] {
        &[Kind::Clock, Kind::Guided, Kind::Length]
    }
}

impl fmt::Display for Kind {
    ghost output = { λ kind. Some (kind_name kind) };

    fn fmt<W: fmt::Write>(&self, f: &mut fmt::Formatter<W>) -> fmt::Result {
        f.write_str(self.as_str())
    }
}
