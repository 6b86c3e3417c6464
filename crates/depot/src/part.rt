// The parts of a depot, each a list of numbers or one number.
ghost use Rattle.std.specs.Prelude.{◌≡◌};
ghost use Rattle.depot.specs.Names.{name_of, names, parts, singles};

use crate::named::{Listed, Named};

#[derive(Clone, Copy, Debug, PartialEq, Eq)]
pub enum Part {
    ArcStarts,
    Heads,
    PointStarts,
    Departures,
    Arrivals,
    Sites,
    Metres,
    Segments,
    Nearest,
    Bays,
    Board,
}

impl Named for Part {
    ghost called = { name_of };

    fn name(&self) -> &'static [u8] {
        match self {
            Part::ArcStarts => b"arc-starts",
            Part::Heads => b"heads",
            Part::PointStarts => b"point-starts",
            Part::Departures => b"departures",
            Part::Arrivals => b"arrivals",
            Part::Sites => b"sites",
            Part::Metres => b"metres",
            Part::Segments => b"segments",
            Part::Nearest => b"nearest",
            Part::Bays => b"bays",
            Part::Board => b"board",
        }
    }
}

impl Listed for Part {
    ghost every = { parts };

    fn all() -> &'static [Part] {
        &[
            Part::ArcStarts,
            Part::Heads,
            Part::PointStarts,
            Part::Departures,
            Part::Arrivals,
            Part::Sites,
            Part::Metres,
            Part::Segments,
            Part::Nearest,
            Part::Bays,
            Part::Board,
        ]
    }
}

impl Part {
    // Whether the part is one number.
    pub(crate) fn is_single(self) -> bool
        ensures { result ≡ names singles (name_of self) }
    {
        matches!(self, Part::Nearest | Part::Board)
    }
}
