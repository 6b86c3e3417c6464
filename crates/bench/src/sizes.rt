// How much is measured.
ghost use Rattle.std.specs.Prelude.{◌≤◌};

use crate::grid::MOST_SIDE;
use crate::indexing::{MOST_NEAREST, SEGMENTS};
use network::MOST_SITES;

#[derive(Clone, Copy)]
pub(crate) struct Sizes {
    pub(crate) side: u32,
    pub(crate) carryings: u32,
    pub(crate) sites: usize,
    pub(crate) segments: usize,
    pub(crate) nearest: u32,
    ghost narrow: { side ≤ 64 },
    ghost few_sites: { sites ≤ 64 },
    ghost few_segments: { segments ≤ 8 },
    ghost few_entries: { nearest ≤ 8 },
}

// The number in a place of the list; another where the list is too short.
fn said(numbers: &[u32], place: usize, otherwise: u32) -> u32 {
    match numbers.get(place) {
        Some(number) => *number,
        None => otherwise,
    }
}

impl Sizes {
    // What the numbers say in this order, each within its bounds; the side is at least 2, so that there is an arc.
    pub(crate) fn of(numbers: &[u32]) -> Sizes {
        let sites = said(numbers, 2, MOST_SITES as u32) as usize;
        let segments = said(numbers, 3, 5) as usize;
        Sizes {
            side: said(numbers, 0, MOST_SIDE).clamp(2, MOST_SIDE),
            carryings: said(numbers, 1, 1_000_000),
            sites: sites.clamp(1, MOST_SITES),
            segments: segments.clamp(1, SEGMENTS.len()),
            nearest: said(numbers, 4, MOST_NEAREST).clamp(1, MOST_NEAREST),
        }
    }
}
