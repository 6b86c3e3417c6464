// A layer over a guide: a list of obstacles, in the order in which they were added.
ghost use Rattle.std.specs.Prelude.{◌≡◌, ◌==◌, [], find, position};
ghost use Rattle.layers.specs.Layered.{LayersAsModelled};
ghost use Rattle.network.specs.Layers.{stands};
ghost use Rattle.network.specs.Piles.{PilesKeepTheRules};

use crate::obstacle::Obstacle;
use arrayvec::ArrayVec;

#[derive(Drop)]
pub struct Layer<G, L> {
    pub below: G,
    pub(crate) obstacles: L,
}

impl<G, O: Obstacle, const MOST: usize> Layer<G, ArrayVec<O, MOST>> {
    // Nothing stands on any arc.
    pub fn over(below: G) -> Layer<G, ArrayVec<O, MOST>>
        ensures obstacles { result.obstacles.items ≡ [] }
        ensures below { result.below ≡ below }
        ensures model { LayersAsModelled }
        ensures piles { PilesKeepTheRules }
    {
        Layer {
            below,
            obstacles: ArrayVec::new(),
        }
    }

    // Where the arc's obstacle stands among them.
    pub(crate) fn place_of(&self, arc: u32) -> Option<usize>
        ensures { result ≡ position (λ o. O.on o == arc) self.now.obstacles.items }
    {
        self.obstacles
            .iter()
            .position(|obstacle| obstacle.arc() == arc)
    }

    // Whether anything stands on the arc.
    #[tactic(auto, using(crate::proofs::Standing::stands_place))]
    pub(crate) fn holds(&self, arc: u32) -> bool
        ensures { result ≡ stands O.on self.now.obstacles.items arc }
    {
        self.place_of(arc).is_some()
    }

    // What stands on the arc.
    pub(crate) fn on(&self, arc: u32) -> Option<O>
        ensures { result ≡ find (λ o. O.on o == arc) self.now.obstacles.items }
    {
        self.obstacles
            .iter()
            .copied()
            .find(|obstacle| obstacle.arc() == arc)
    }

    // The guide below, as it was, and what stood on its arcs, in order.
    pub fn into_parts(self) -> (G, ArrayVec<O, MOST>)
        ensures below { result.0 ≡ self.below }
        ensures obstacles { result.1.items ≡ self.obstacles.items }
    {
        let Layer { below, obstacles } = self;
        (below, obstacles)
    }
}
