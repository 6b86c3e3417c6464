// Length roads answer the questions of a network, and guide by the reading itself.
ghost use Rattle.std.specs.Prelude.{◌≡◌, ◌≤◌};
ghost use Rattle.length.specs.Held.{road_lists};
ghost use Rattle.length.specs.Model.{length_roads, length_estimate};
ghost use Rattle.length.specs.Readings.{height_of};
ghost use Rattle.length.specs.Travel.{told};
ghost use Rattle.length.specs.LengthLaws.{roads_wellformed, roads_lawful, roads_admissible};
ghost use mathlib.Core.HLevel.{is_prop→PathP};
ghost use Rattle.std.proofs.Math.Bridge.{le_prop};
ghost use Rattle.std.proofs.Common.{arith, rules};

use crate::roads::LengthRoads;
use crate::travelled::Travelled;
use network::{Guide, Network, SiteSet};

const LAST_START: u32 = 1_000_000;

impl Network for LengthRoads {
    type Reading = Travelled;

    ghost height = { λ _ r. height_of (told r) };

    ghost roads = { λ s. length_roads (road_lists s) };

    ghost wellformed = { roads_wellformed };

    ghost lawful = { roads_lawful };

    ghost reads = { Prim.search rules };

    ghost same = { λ s q r e.
        let a = q.few in
        let b = r.few in
        let m : q.metres ≡ r.metres = omega arith in
        let p : q.passed ≡ r.passed = omega arith in
        λ i. record {
          metres = m i;
          passed = p i;
          far = is_prop→PathP (λ k. m k ≤ 4000000000) (λ k. le_prop) q.far r.far i;
          few = is_prop→PathP (λ k. p k ≤ 65535) (λ k. le_prop) q.few r.few i;
        } };

    fn junctions(&self) -> u32 {
        self.streets.junctions()
    }

    fn arcs(&self) -> u32 {
        self.streets.arcs()
    }

    fn sites(&self) -> u32 {
        self.streets.site_count()
    }

    fn tail(&self, arc: u32) -> Option<u32> {
        self.streets.tail(arc)
    }

    fn head(&self, arc: u32) -> Option<u32> {
        self.streets.head(arc)
    }

    fn next_arc(&self, junction: u32, from: u32) -> Option<u32> {
        self.streets.next_arc(junction, from)
    }

    fn place(&self, site: u32) -> Option<u32> {
        self.streets.place(site)
    }

    fn start(&self, number: u32) -> Option<Travelled> {
        Travelled::new(number, 0).filter(|start| start.metres() <= LAST_START)
    }

    fn less(&self, one: Travelled, other: Travelled) -> bool {
        one < other
    }

    fn height(&self, reading: Travelled) -> u64 {
        reading.metres() as u64 * 65_536 + reading.passed() as u64
    }

    fn carry(&self, arc: u32, reading: Travelled) -> Option<Travelled> {
        let metres = self.metres.get(arc as usize)?;
        reading.one_more().longer(*metres)
    }

    fn lengthen(&self, reading: Travelled, units: u32) -> Option<Travelled> {
        reading.longer(units)
    }
}

impl Guide for LengthRoads {
    ghost guess = { λ s. length_estimate (road_lists s) };

    ghost admissible = { roads_admissible };

    fn estimate(&self, junction: u32, reading: Travelled, _wanted: &SiteSet) -> Option<Travelled> {
        (junction < self.streets.junctions()).then_some(reading)
    }
}
