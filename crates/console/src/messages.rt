// Tells a reader what is wrong in a command.
ghost use Rattle.std.specs.Prelude.{◌≡◌, Some};
ghost use Rattle.console.specs.Messages.{said, takes};

use crate::verbs::Verb;
use depot::What;
use std::fmt;

// What is wrong with a word: of a command's name, that what follows is too little or too much.
#[derive(Clone, Copy, Debug, PartialEq, Eq)]
pub enum Misuse {
    NotACommand,
    NotAKind,
    Number(What),
    Takes(Verb),
}

#[derive(Debug, Drop)]
pub struct Misused {
    pub word: Vec<u8>,
    pub misuse: Misuse,
}

impl Verb {
    fn needs(self) -> &'static str
        ensures { result.now ≡ takes self }
    {
        match self {
            Verb::Carry =>
                "takes an arc and seconds, on length roads an arc, metres and arcs passed",
            Verb::Drive => "takes a start number and then arcs",
            Verb::Estimate =>
                "takes a junction, seconds and then sites, on length roads a junction, metres, arcs passed and then sites",
            Verb::Index => "takes a segment and a junction",
            Verb::Close | Verb::Reopen | Verb::Lift => "takes an arc",
            Verb::Detour => "takes an arc and units",
            Verb::Ask => "takes a junction, a start number and how many sites",
            Verb::Ways => "takes nothing",
            Verb::Trace => "takes a junction, a start number and a junction",
            Verb::Hold => "takes a site",
            Verb::Back => "takes the number of a hold",
            Verb::Roads => "takes clock, guided or length",
        }
    }
}

impl fmt::Display for Misuse {
    ghost output = { λ misuse. Some (said misuse) };

    fn fmt<W: fmt::Write>(&self, f: &mut fmt::Formatter<W>) -> fmt::Result {
        match self {
            Misuse::NotACommand => f.write_str("is not a command"),
            Misuse::NotAKind => f.write_str("is not a kind of roads: clock, guided or length"),
            Misuse::Number(what) => write!(f, "{what}"),
            Misuse::Takes(verb) => f.write_str(verb.needs()),
        }
    }
}

impl fmt::Display for Misused {
    fn fmt<W: fmt::Write>(&self, f: &mut fmt::Formatter<W>) -> fmt::Result {
        let misuse = self.misuse;
        write!(f, "'{}' {misuse}", self.word.as_slice().escape_ascii())
    }
}
