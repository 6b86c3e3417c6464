// The least times of all arcs in one segment of the day.
ghost use Rattle.std.specs.Prelude.{◌≡◌, true};
ghost use Rattle.laying.specs.Costs.{costs_within};

use arrayvec::ArrayVec;

pub(crate) const MOST_ARCS: usize = 16_384;

/// The least time of each arc in one segment of the day, 1 to 172,800 seconds.
#[derive(Drop)]
pub struct Costs {
    pub(crate) list: ArrayVec<u32, MOST_ARCS>,
    ghost within: { costs_within list.items ≡ true },
}
