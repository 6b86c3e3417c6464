// The day cut into segments, each with its first second.
ghost use Rattle.std.specs.Prelude.{◌≡◌, true};
ghost use Rattle.least.specs.Segments.{cuts_day};

use arrayvec::ArrayVec;

pub(crate) const MOST_SEGMENTS: usize = 8;

#[derive(Drop)]
pub struct Day {
    pub(crate) firsts: ArrayVec<u32, MOST_SEGMENTS>,
    ghost whole: { cuts_day firsts.items ≡ true },
}
