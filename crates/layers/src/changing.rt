// Adding obstacles, and lifting them.
ghost use Rattle.std.specs.Prelude.{◌≡◌, [], ◌∷◌, ◌++◌};
ghost use Rattle.layers.specs.Changes.{adding, lifting, changed};
ghost use Rattle.layers.specs.Faults.{layer_fault};
ghost use Rattle.network.specs.Refused.{refused};
ghost use Rattle.network.specs.Without.{without};

use crate::faults::LayerFault;
use crate::layer::Layer;
use crate::obstacle::Obstacle;
use arrayvec::ArrayVec;
use network::Network;

impl<G: Network, O: Obstacle, const MOST: usize> Layer<G, ArrayVec<O, MOST>> {
    pub fn add(&mut self, obstacle: O) -> Result<(), LayerFault>
        ensures result { refused layer_fault result ≡ adding O.on (G.Network.roads self.old.below).arcs MOST (O.fits obstacle) self.old.obstacles.items (O.on obstacle) }
        ensures obstacles { self.new.obstacles.items ≡ changed (refused layer_fault result) self.old.obstacles.items (self.old.obstacles.items ++ obstacle ∷ []) }
        ensures below { self.new.below ≡ self.old.below }
    {
        let arc = obstacle.arc();
        if arc >= self.below.arcs() {
            return Err(LayerFault::NoSuchArc);
        }
        if !obstacle.fits() {
            return Err(LayerFault::Units);
        }
        if self.holds(arc) {
            return Err(LayerFault::Already);
        }
        if self.obstacles.is_full() {
            return Err(LayerFault::Full);
        }
        self.obstacles.push(obstacle);
        Ok(())
    }

    #[tactic(auto, using(crate::proofs::Standing::stands_place, crate::proofs::Standing::without_place))]
    pub fn lift(&mut self, arc: u32) -> Result<(), LayerFault>
        ensures result { refused layer_fault result ≡ lifting O.on (G.Network.roads self.old.below).arcs self.old.obstacles.items arc }
        ensures obstacles { self.new.obstacles.items ≡ changed (refused layer_fault result) self.old.obstacles.items (without O.on arc self.old.obstacles.items) }
        ensures below { self.new.below ≡ self.old.below }
    {
        if arc >= self.below.arcs() {
            return Err(LayerFault::NoSuchArc);
        }
        let at = self.place_of(arc).ok_or(LayerFault::NotThere)?;
        self.obstacles.remove(at);
        Ok(())
    }
}
