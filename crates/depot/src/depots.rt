// Reads the text of a depot file.
ghost use Rattle.std.specs.Prelude.{◌≡◌, IfOk};
ghost use Rattle.depot.specs.Depots.{depot_of, lists_of};
ghost use Rattle.depot.specs.Reads.{items, seen, Reads};

use crate::fault::ReadFault;
use crate::line::read_lines;
use crate::listing::Listings;
use crate::part::Part;
use std::alloc::{AllocError, Global};

// A part that the text does not name is empty, or 0 where it is one number.
#[derive(Debug, Drop)]
pub struct Depot {
    pub arc_starts: Vec<u32>,
    pub heads: Vec<u32>,
    pub point_starts: Vec<u32>,
    pub departures: Vec<u32>,
    pub arrivals: Vec<u32>,
    pub sites: Vec<u32>,
    pub metres: Vec<u32>,
    pub segments: Vec<u32>,
    pub nearest: u32,
    pub bays: Vec<u32>,
    pub board: u32,
}

impl Listings {
    // Puts the numbers of each part together.
    fn gather(&self) -> Result<Depot, AllocError>
        ensures { IfOk result (λ d. seen d ≡ lists_of (items self.now.lines.items)) }
    {
        Ok(Depot {
            arc_starts: self.numbers_of(Part::ArcStarts)?,
            heads: self.numbers_of(Part::Heads)?,
            point_starts: self.numbers_of(Part::PointStarts)?,
            departures: self.numbers_of(Part::Departures)?,
            arrivals: self.numbers_of(Part::Arrivals)?,
            sites: self.numbers_of(Part::Sites)?,
            metres: self.numbers_of(Part::Metres)?,
            segments: self.numbers_of(Part::Segments)?,
            nearest: self.first_number(Part::Nearest).unwrap_or(0),
            bays: self.numbers_of(Part::Bays)?,
            board: self.first_number(Part::Board).unwrap_or(0),
        })
    }
}

// The depot that a text says, or the first line that cannot be read.
pub fn read_depot(heap: Global, text: &[u8]) -> Result<Depot, ReadFault>
    ensures { Reads seen result (depot_of text.now) }
{
    Ok(read_lines(heap, text)?.gather()?)
}
