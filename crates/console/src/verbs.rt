// The commands, by their names.
ghost use Rattle.std.specs.Prelude.{◌≡◌, Some};
ghost use Rattle.console.specs.Verbs.{verb_name, verbs};

use depot::{Listed, Named};
use std::fmt;

#[derive(Clone, Copy, Debug, PartialEq, Eq)]
pub enum Verb {
    Carry,
    Drive,
    Estimate,
    Index,
    Close,
    Reopen,
    Detour,
    Lift,
    Ask,
    Ways,
    Trace,
    Hold,
    Back,
    Roads,
}

impl Verb {
    fn as_str(self) -> &'static str
        ensures { result.now ≡ verb_name self }
    {
        match self {
            Verb::Carry => "carry",
            Verb::Drive => "drive",
            Verb::Estimate => "estimate",
            Verb::Index => "index",
            Verb::Close => "close",
            Verb::Reopen => "reopen",
            Verb::Detour => "detour",
            Verb::Lift => "lift",
            Verb::Ask => "ask",
            Verb::Ways => "ways",
            Verb::Trace => "trace",
            Verb::Hold => "hold",
            Verb::Back => "back",
            Verb::Roads => "roads",
        }
    }
}

impl Named for Verb {
    ghost called = { verb_name };

    fn name(&self) -> &'static [u8] {
        self.as_str().as_bytes()
    }
}

impl Listed for Verb {
    ghost every = { verbs };

    fn all() -> &'static [Verb] {
        &[
            Verb::Carry,
            Verb::Drive,
            Verb::Estimate,
            Verb::Index,
            Verb::Close,
            Verb::Reopen,
            Verb::Detour,
            Verb::Lift,
            Verb::Ask,
            Verb::Ways,
            Verb::Trace,
            Verb::Hold,
            Verb::Back,
            Verb::Roads,
        ]
    }
}

impl fmt::Display for Verb {
    ghost output = { λ verb. Some (verb_name verb) };

    fn fmt<W: fmt::Write>(&self, f: &mut fmt::Formatter<W>) -> fmt::Result {
        f.write_str(self.as_str())
    }
}
