// The arcs that lead into each junction, along which a search goes against the direction of travel.
ghost use Rattle.std.specs.Prelude.{◌≡◌, ◌<◌, slice_index_or};
ghost use Rattle.laying.specs.Incoming.{Links, last_into};

use crate::costs::MOST_ARCS;
use network::{MOST_JUNCTIONS, Network};

/// An arc by the junction that it leaves, and the arc before it that leads into the same junction.
#[derive(Clone, Copy, Default)]
pub(crate) struct IncomingArc {
    pub(crate) tail: u32,
    pub(crate) before: Option<u32>,
}

/// Reversed adjacency lists: the last arc into each junction, and of each arc the one before it.
#[derive(Drop)]
pub(crate) struct IncomingArcs {
    pub(crate) last: [Option<u32>; MOST_JUNCTIONS],
    pub(crate) arcs: [IncomingArc; MOST_ARCS],
}

impl IncomingArcs {
    pub(crate) fn of<N: Network>(roads: &N) -> IncomingArcs
        ensures { Links (N.roads roads.now) result }
    {
        let mut incoming = IncomingArcs {
            last: [None; MOST_JUNCTIONS],
            arcs: [IncomingArc::default(); MOST_ARCS],
        };
        for arc in 0..roads.arcs() {
            let (Some(tail), Some(head)) = (roads.tail(arc), roads.head(arc)) else {
                unreachable!();
            };
            let before = incoming.last[head as usize];
            incoming.arcs[arc as usize] = IncomingArc { tail, before };
            incoming.last[head as usize] = Some(arc);
        }
        incoming
    }
}
