// A detour: an arc, and the units by which it takes longer.
ghost use Rattle.std.specs.Prelude.{◌≡◌, ◌-◌, ◌&&◌, length, map, nat_le};
ghost use Rattle.layers.specs.Firsts.{detours_first};
ghost use Rattle.network.specs.Layers.{detours};

use crate::layer::Layer;
use crate::obstacle::Obstacle;
use arrayvec::ArrayVec;
use network::Network;

const MOST_UNITS: u32 = 3_600;

#[derive(Clone, Copy, PartialEq, Eq, Default, Debug)]
pub struct Detour {
    pub arc: u32,
    pub units: u32,
}

pub type Detours<G> = Layer<G, ArrayVec<Detour, 32>>;

impl<G> Detours<G> {
    // How many more arcs may have a detour.
    pub fn room(&self) -> usize
        ensures { result ≡ 32 - length self.now.obstacles.items }
    {
        self.obstacles.remaining_capacity()
    }
}

impl Obstacle for Detour {
    ghost on = { λ d. d.arc };

    ghost fits = { λ d. nat_le 1 d.units && nat_le d.units 3600 };

    ghost layer = { λ ds. detours (map (λ d. (d.arc, d.units)) ds) };

    ghost first = { detours_first };

    fn arc(&self) -> u32 {
        self.arc
    }

    fn fits(&self) -> bool {
        (1..=MOST_UNITS).contains(&self.units)
    }

    fn carry<N: Network>(&self, below: &N, reading: N::Reading) -> Option<N::Reading> {
        let arrived = below.carry(self.arc, reading)?;
        below.lengthen(arrived, self.units)
    }
}
