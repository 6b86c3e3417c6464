// The points of one arc: departures rise from 0 to 86,400, and no arrival is early, late or falls.
ghost use Rattle.std.specs.Prelude.{◌≡◌, ◌^◌, ◌<◌, ◌≤◌, length};
ghost use Rattle.clock.specs.Faults.{table_fault};
ghost use Rattle.clock.specs.Points.{departs, arrives, kept, point_refusal};
ghost use Rattle.network.specs.Refused.{refused};

use crate::faults::TableFault;
use crate::seconds::{LAST_ARRIVAL, LAST_DEPARTURE};

// The points from place `first` to before `end` of all points.
#[derive(Clone, Copy)]
pub(crate) struct ArcPoints<'a> {
    pub(crate) departures: &'a [u32],
    pub(crate) arrivals: &'a [u32],
    pub(crate) first: usize,
    pub(crate) end: usize,
    ghost departing: { end ≤ length departures.now },
    ghost arriving: { end ≤ length arrivals.now },
    ghost few: { end < 2 ^ 32 },
}

impl ArcPoints<'_> {
    // The fault of one point, if it has one.
    #[tactic(auto, unfolding(crate::specs::Points::point_refusal))]
    pub(crate) fn check(&self, arc: u32, place: usize) -> Result<(), TableFault>
        requires from { self.now.first ≤ place }
        requires until { place < self.now.end }
        ensures { refused table_fault result ≡ point_refusal self.now.departures.now self.now.arrivals.now arc self.now.first self.now.end place }
    {
        let at = place as u32;
        if !self.departure_fits(place) {
            return Err(TableFault::Departure { arc, place: at });
        }
        if !self.arrival_fits(place) {
            return Err(TableFault::Arrival { arc, place: at });
        }
        if !self.arrival_keeps(place) {
            return Err(TableFault::Falls { arc, place: at });
        }
        Ok(())
    }

    #[tactic(auto, unfolding(crate::specs::Points::departs))]
    fn departure_fits(&self, place: usize) -> bool
        requires from { self.now.first ≤ place }
        requires until { place < self.now.end }
        ensures { result ≡ departs self.now.departures.now self.now.first self.now.end place }
    {
        let departure = self.departures[place];
        let rises = if place == self.first {
            departure == 0
        } else {
            self.departures[place - 1] < departure
        };
        rises
            && departure <= LAST_DEPARTURE
            && (place + 1 != self.end || departure >= LAST_DEPARTURE)
    }

    #[tactic(auto, unfolding(crate::specs::Points::arrives))]
    fn arrival_fits(&self, place: usize) -> bool
        requires { place < self.now.end }
        ensures { result ≡ arrives self.now.departures.now self.now.arrivals.now place }
    {
        self.departures[place] < self.arrivals[place] && self.arrivals[place] <= LAST_ARRIVAL
    }

    #[tactic(auto, unfolding(crate::specs::Points::kept))]
    fn arrival_keeps(&self, place: usize) -> bool
        requires from { self.now.first ≤ place }
        requires until { place < self.now.end }
        ensures { result ≡ kept self.now.arrivals.now self.now.first place }
    {
        place == self.first || self.arrivals[place - 1] <= self.arrivals[place]
    }
}
