// Clock roads with the index of their least times.
ghost use Rattle.std.specs.Prelude.{◌≡◌, false, is_some};
ghost use Rattle.guided.specs.Indexed.{lists_of};
ghost use Rattle.guided.specs.Offers.{own_difference};

use crate::indexed::IndexedRoads;

#[derive(Drop)]
pub struct GuidedRoads {
    pub(crate) indexed: IndexedRoads,
    ghost right: { is_some (own_difference (lists_of indexed)) ≡ false },
}
