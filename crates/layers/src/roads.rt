// A layer is a guide: arcs carry as it says, and the rest is left to the guide below.
ghost use Rattle.std.specs.Prelude.{◌≡◌};
ghost use Rattle.layers.specs.Layered.{under_layer};
ghost use Rattle.layers.specs.Kept.{kept_wellformed, kept_lawful, kept_admissible};
ghost use Rattle.std.proofs.Common.{rules};

use crate::layer::Layer;
use crate::obstacle::Obstacle;
use arrayvec::ArrayVec;
use network::{Guide, Network, SiteSet};

impl<G: Network, O: Obstacle, const MOST: usize> Network for Layer<G, ArrayVec<O, MOST>> {
    type Reading = G::Reading;

    ghost height = { λ s. G.Network.height s.below };

    ghost roads = { λ s. under_layer (O.layer s.obstacles.items) (G.Network.roads s.below) };

    ghost wellformed = { λ s. kept_wellformed (O.layer s.obstacles.items) (G.Network.roads s.below) (G.Network.wellformed s.below) (G.Network.lawful s.below) };

    ghost lawful = { λ s. kept_lawful (O.layer s.obstacles.items) (G.Network.roads s.below) (G.Network.wellformed s.below) (G.Network.lawful s.below) };

    ghost reads = { Prim.search rules };

    ghost same = { Prim.search rules };

    fn junctions(&self) -> u32 {
        self.below.junctions()
    }

    fn arcs(&self) -> u32 {
        self.below.arcs()
    }

    fn sites(&self) -> u32 {
        self.below.sites()
    }

    fn tail(&self, arc: u32) -> Option<u32> {
        self.below.tail(arc)
    }

    fn head(&self, arc: u32) -> Option<u32> {
        self.below.head(arc)
    }

    fn next_arc(&self, junction: u32, from: u32) -> Option<u32> {
        self.below.next_arc(junction, from)
    }

    fn place(&self, site: u32) -> Option<u32> {
        self.below.place(site)
    }

    fn start(&self, number: u32) -> Option<G::Reading> {
        self.below.start(number)
    }

    fn less(&self, one: G::Reading, other: G::Reading) -> bool {
        self.below.less(one, other)
    }

    fn height(&self, reading: G::Reading) -> u64 {
        self.below.height(reading)
    }

    fn carry(&self, arc: u32, reading: G::Reading) -> Option<G::Reading> {
        match self.on(arc) {
            Some(obstacle) => obstacle.carry(&self.below, reading),
            None => self.below.carry(arc, reading),
        }
    }

    fn lengthen(&self, reading: G::Reading, units: u32) -> Option<G::Reading> {
        self.below.lengthen(reading, units)
    }
}

impl<G: Guide, O: Obstacle, const MOST: usize> Guide for Layer<G, ArrayVec<O, MOST>> {
    ghost guess = { λ s. G.Guide.guess s.below };

    ghost admissible = { λ s. kept_admissible (O.layer s.obstacles.items) (G.Network.roads s.below) (G.Network.wellformed s.below) (G.Network.lawful s.below) (G.Guide.guess s.below) (G.Guide.admissible s.below) };

    fn estimate(&self, junction: u32, reading: G::Reading, wanted: &SiteSet) -> Option<G::Reading> {
        self.below.estimate(junction, reading, wanted)
    }
}
