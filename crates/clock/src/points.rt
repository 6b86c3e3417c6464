// The points of all arcs, and their check.
ghost use Rattle.std.specs.Prelude.{◌≡◌, ◌+◌, ◌^◌, ◌<◌, ◌≤◌, length, slice_index};
ghost use Rattle.clock.specs.Faults.{table_fault};
ghost use Rattle.clock.specs.Points.{cut, arc_refusal, points_refusal};
ghost use Rattle.network.specs.Refused.{refused};

use crate::arc_points::ArcPoints;
use crate::faults::TableFault;
use network::runs_to;

const MOST_POINTS: usize = 65_536;

const LEAST_POINTS: u32 = 2;

// Where each arc's points start and one more, and each point's departure and arrival.
#[derive(Clone, Copy)]
pub(crate) struct Points<'a> {
    pub(crate) starts: &'a [u32],
    pub(crate) departures: &'a [u32],
    pub(crate) arrivals: &'a [u32],
}

impl Points<'_> {
    // The first fault: how the points are cut, and then arc by arc.
    #[tactic(auto, unfolding(crate::specs::Points::points_refusal))]
    pub(crate) fn check(&self, arcs: usize) -> Result<(), TableFault>
        requires { arcs < 2 ^ 32 }
        ensures { refused table_fault result ≡ points_refusal arcs self.now.starts.now self.now.departures.now self.now.arrivals.now }
    {
        if !self.well_cut(arcs) {
            return Err(TableFault::PointStarts);
        }
        for arc in 0..arcs {
            self.check_arc(arc as u32)?;
        }
        Ok(())
    }

    #[tactic(auto, unfolding(crate::specs::Points::cut))]
    fn well_cut(&self, arcs: usize) -> bool
        requires { arcs < 2 ^ 32 }
        ensures { result ≡ cut arcs self.now.starts.now self.now.departures.now self.now.arrivals.now }
    {
        let count = self.departures.len();
        self.starts.len() == arcs + 1
            && self.arrivals.len() == count
            && count <= MOST_POINTS
            && runs_to(self.starts, LEAST_POINTS, count)
    }

    fn check_arc(&self, arc: u32) -> Result<(), TableFault>
        requires there { arc + 1 < length self.now.starts.now }
        requires rising { slice_index self.now.starts.now arc ≤ slice_index self.now.starts.now (arc + 1) }
        requires within { slice_index self.now.starts.now (arc + 1) ≤ length self.now.departures.now }
        requires alike { length self.now.arrivals.now ≡ length self.now.departures.now }
        ensures { refused table_fault result ≡ arc_refusal self.now.starts.now self.now.departures.now self.now.arrivals.now arc }
    {
        let first = self.starts[arc as usize] as usize;
        let end = self.starts[arc as usize + 1] as usize;
        let points = ArcPoints {
            departures: self.departures,
            arrivals: self.arrivals,
            first,
            end,
        };
        for place in first..end {
            points.check(arc, place)?;
        }
        Ok(())
    }
}
