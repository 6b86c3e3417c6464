// Guided roads leave every question to the clock roads, and guide by their index.
ghost use Rattle.std.specs.Prelude.{◌≡◌, ◌≤◌};
ghost use Rattle.clock.specs.ClockLaws.{roads_wellformed, roads_lawful};
ghost use Rattle.guided.specs.GuidedLaws.{guided_keeps};
ghost use Rattle.guided.specs.Held.{guided_lists};
ghost use Rattle.guided.specs.Lists.{network_of, index_estimate};
ghost use mathlib.Core.HLevel.{is_prop→PathP};
ghost use Rattle.std.proofs.Math.Bridge.{le_prop};
ghost use Rattle.std.proofs.Common.{rules};

use crate::roads::GuidedRoads;
use clock::Seconds;
use network::{Guide, Network, SiteSet};

impl Network for GuidedRoads {
    type Reading = Seconds;

    ghost height = { λ _ r. r.value };

    ghost roads = { λ s. network_of (guided_lists s) };

    ghost wellformed = { λ s. roads_wellformed s.indexed.roads };

    ghost lawful = { λ s. roads_lawful s.indexed.roads };

    ghost reads = { Prim.search rules };

    ghost same = { λ s q r e i. record { value = e i; within = is_prop→PathP (λ k. e k ≤ 172800) (λ k. le_prop) q.within r.within i } };

    fn junctions(&self) -> u32 {
        self.indexed.roads.junctions()
    }

    fn arcs(&self) -> u32 {
        self.indexed.roads.arcs()
    }

    fn sites(&self) -> u32 {
        self.indexed.roads.sites()
    }

    fn tail(&self, arc: u32) -> Option<u32> {
        self.indexed.roads.tail(arc)
    }

    fn head(&self, arc: u32) -> Option<u32> {
        self.indexed.roads.head(arc)
    }

    fn next_arc(&self, junction: u32, from: u32) -> Option<u32> {
        self.indexed.roads.next_arc(junction, from)
    }

    fn place(&self, site: u32) -> Option<u32> {
        self.indexed.roads.place(site)
    }

    fn start(&self, number: u32) -> Option<Seconds> {
        self.indexed.roads.start(number)
    }

    fn less(&self, one: Seconds, other: Seconds) -> bool {
        self.indexed.roads.less(one, other)
    }

    fn height(&self, reading: Seconds) -> u64 {
        self.indexed.roads.height(reading)
    }

    fn carry(&self, arc: u32, reading: Seconds) -> Option<Seconds> {
        self.indexed.roads.carry(arc, reading)
    }

    fn lengthen(&self, reading: Seconds, units: u32) -> Option<Seconds> {
        self.indexed.roads.lengthen(reading, units)
    }
}

impl Guide for GuidedRoads {
    ghost guess = { λ s. index_estimate (guided_lists s) };

    ghost admissible = { guided_keeps };

    // Above 86,400 no segment holds the reading, and nothing is carried: only a site at the junction itself is reached.
    fn estimate(&self, junction: u32, reading: Seconds, wanted: &SiteSet) -> Option<Seconds> {
        if junction >= self.junctions() {
            return None;
        }
        match self.indexed.day.segment_of(reading.value()) {
            Some(segment) => Seconds::new(
                self.indexed
                    .by_day(segment, junction, reading.value(), wanted)?,
            ),
            None => self.indexed.has_wanted(junction, wanted).then_some(reading),
        }
    }
}
