// Making the list of an arc's least times, and reading it.
ghost use Rattle.std.specs.Prelude.{◌≡◌, length, slice_get, ◌==◌};
ghost use Rattle.std.specs.Option.{option_map};
ghost use Rattle.clock.specs.Held.{road_lists};
ghost use Rattle.least.specs.Held.{day_firsts};
ghost use Rattle.laying.specs.Costs.{costs_of};
ghost use Rattle.laying.specs.Held.{costs_in};

use crate::costs::Costs;
use arrayvec::ArrayVec;
use clock::ClockRoads;
use least::{Day, least_time};
use network::Network;

impl Costs {
    /// Nothing where there is no such segment.
    pub fn of(roads: &ClockRoads, day: &Day, segment: u32) -> Option<Costs>
        ensures { option_map costs_in result ≡ costs_of (road_lists roads.now) (day_firsts day.now) segment }
    {
        day.span(segment)?;
        let mut list = ArrayVec::new();
        for arc in 0..roads.arcs() {
            list.push(least_time(roads, day, segment, arc)?);
        }
        Some(Costs { list })
    }

    /// How many arcs there are.
    pub fn len(&self) -> u32
        ensures { result ≡ length (costs_in self.now) }
    {
        self.list.len() as u32
    }

    /// Whether there is no arc.
    pub fn is_empty(&self) -> bool
        ensures { result ≡ (length (costs_in self.now) == 0) }
    {
        self.list.is_empty()
    }

    /// An arc's least time, in seconds; nothing where there is no such arc.
    pub fn time(&self, arc: u32) -> Option<u32>
        ensures { result ≡ slice_get (costs_in self.now) arc }
    {
        self.list.get(arc as usize).copied()
    }

    pub(crate) fn as_slice(&self) -> &[u32]
        ensures { result.now ≡ costs_in self.now }
    {
        &self.list
    }
}
