// Bare clock roads answer the questions of a network, and guide by the reading itself.
ghost use Rattle.std.specs.Prelude.{◌≡◌, ◌≤◌};
ghost use Rattle.clock.specs.Held.{road_lists};
ghost use Rattle.clock.specs.Model.{clock_roads, clock_estimate};
ghost use Rattle.clock.specs.ClockLaws.{roads_wellformed, roads_lawful, roads_admissible};
ghost use mathlib.Core.HLevel.{is_prop→PathP};
ghost use Rattle.std.proofs.Math.Bridge.{le_prop};
ghost use Rattle.std.proofs.Common.{rules};

use crate::roads::ClockRoads;
use crate::seconds::{LAST_DEPARTURE, Seconds};
use network::{Guide, Network, SiteSet};

impl Network for ClockRoads {
    type Reading = Seconds;

    ghost height = { λ _ r. r.value };

    ghost roads = { λ s. clock_roads (road_lists s) };

    ghost wellformed = { roads_wellformed };

    ghost lawful = { roads_lawful };

    ghost reads = { Prim.search rules };

    ghost same = { λ s q r e i. record { value = e i; within = is_prop→PathP (λ k. e k ≤ 172800) (λ k. le_prop) q.within r.within i } };

    fn junctions(&self) -> u32 {
        self.streets.junctions()
    }

    fn arcs(&self) -> u32 {
        self.streets.arcs()
    }

    fn sites(&self) -> u32 {
        self.streets.site_count()
    }

    fn tail(&self, arc: u32) -> Option<u32> {
        self.streets.tail(arc)
    }

    fn head(&self, arc: u32) -> Option<u32> {
        self.streets.head(arc)
    }

    fn next_arc(&self, junction: u32, from: u32) -> Option<u32> {
        self.streets.next_arc(junction, from)
    }

    fn place(&self, site: u32) -> Option<u32> {
        self.streets.place(site)
    }

    fn start(&self, number: u32) -> Option<Seconds> {
        Seconds::new(number).filter(|start| start.value() <= LAST_DEPARTURE)
    }

    fn less(&self, one: Seconds, other: Seconds) -> bool {
        one < other
    }

    fn height(&self, reading: Seconds) -> u64 {
        reading.value() as u64
    }

    fn carry(&self, arc: u32, reading: Seconds) -> Option<Seconds> {
        self.arrival(arc, reading)
    }

    fn lengthen(&self, reading: Seconds, units: u32) -> Option<Seconds> {
        Seconds::new(reading.value().checked_add(units)?)
    }
}

impl Guide for ClockRoads {
    ghost guess = { λ s. clock_estimate (road_lists s) };

    ghost admissible = { roads_admissible };

    fn estimate(&self, junction: u32, reading: Seconds, _wanted: &SiteSet) -> Option<Seconds> {
        (junction < self.streets.junctions()).then_some(reading)
    }
}
