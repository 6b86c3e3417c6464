// A closure: an arc that carries nothing.
ghost use Rattle.std.specs.Prelude.{◌≡◌, ◌-◌, true, length, map};
ghost use Rattle.layers.specs.Firsts.{closures_first};
ghost use Rattle.network.specs.Layers.{closures};

use crate::layer::Layer;
use crate::obstacle::Obstacle;
use arrayvec::ArrayVec;
use network::Network;

#[derive(Clone, Copy, PartialEq, Eq, Default, Debug)]
pub struct Closure {
    pub arc: u32,
}

pub type Closures<G> = Layer<G, ArrayVec<Closure, 64>>;

impl<G> Closures<G> {
    // How many more arcs may be closed.
    pub fn room(&self) -> usize
        ensures { result ≡ 64 - length self.now.obstacles.items }
    {
        self.obstacles.remaining_capacity()
    }
}

impl Obstacle for Closure {
    ghost on = { λ c. c.arc };

    ghost fits = { λ c. true };

    ghost layer = { λ cs. closures (map (λ c. c.arc) cs) };

    ghost first = { closures_first };

    fn arc(&self) -> u32 {
        self.arc
    }

    fn fits(&self) -> bool {
        true
    }

    fn carry<N: Network>(&self, _below: &N, _reading: N::Reading) -> Option<N::Reading> {
        None
    }
}
