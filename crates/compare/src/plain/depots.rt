// A depot as plain lists.
use crate::plain::lists::{at, count};
use std::alloc::Global;

#[derive(Drop)]
pub(crate) struct Depot {
    pub(crate) starts: Vec<u32>,
    pub(crate) heads: Vec<u32>,
    pub(crate) points: Vec<u32>,
    pub(crate) departures: Vec<u32>,
    pub(crate) arrivals: Vec<u32>,
    pub(crate) metres: Vec<u32>,
    pub(crate) sites: Vec<u32>,
}

// One of the lists.
#[derive(Clone, Copy)]
pub(crate) enum Part {
    Starts,
    Heads,
    Points,
    Departures,
    Arrivals,
    Metres,
    Sites,
}

impl Depot {
    pub(crate) fn empty(heap: Global) -> Depot {
        Depot {
            starts: Vec::new(heap),
            heads: Vec::new(heap),
            points: Vec::new(heap),
            departures: Vec::new(heap),
            arrivals: Vec::new(heap),
            metres: Vec::new(heap),
            sites: Vec::new(heap),
        }
    }

    pub(crate) fn junctions(&self) -> u32 {
        count(self.starts.len()).saturating_sub(1)
    }

    pub(crate) fn arcs(&self) -> u32 {
        count(self.heads.len())
    }

    pub(crate) fn site_count(&self) -> u32 {
        count(self.sites.len())
    }

    pub(crate) fn part(&mut self, part: Part) -> &mut Vec<u32> {
        match part {
            Part::Starts => &mut self.starts,
            Part::Heads => &mut self.heads,
            Part::Points => &mut self.points,
            Part::Departures => &mut self.departures,
            Part::Arrivals => &mut self.arrivals,
            Part::Metres => &mut self.metres,
            Part::Sites => &mut self.sites,
        }
    }

    // The arcs of a junction that is there run from its start to before the next one's.
    pub(crate) fn leaving(&self, junction: u32) -> (u32, u32) {
        if junction >= self.junctions() {
            return (0, 0);
        }
        (
            at(&self.starts, junction),
            at(&self.starts, junction.saturating_add(1)),
        )
    }

    // On a large depot few askings and tracings are compared, since plain ones take long.
    pub(crate) fn is_large(&self) -> bool {
        self.junctions() > 500
    }
}
