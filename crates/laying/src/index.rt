// Laying the index: for each segment of the day and each junction, the row of the sites that are nearest.
ghost use Rattle.std.specs.Prelude.{◌≡◌, ℕ, ◌+◌, ◌<◌, ◌≤◌, OnOk, OnErr, length};
ghost use Rattle.clock.specs.Held.{road_lists};
ghost use Rattle.clock.specs.Model.{clock_roads};
ghost use Rattle.laying.specs.Admitted.{lay_refusal};
ghost use Rattle.laying.specs.Faults.{lay_fault};
ghost use Rattle.laying.specs.Held.{costs_in};
ghost use Rattle.laying.specs.Costs.{cost_by};
ghost use Rattle.laying.specs.Incoming.{Links};
ghost use Rattle.laying.specs.Places.{Laid, SameElsewhere, segment_at};
ghost use Rattle.laying.specs.Search.{IsIdle, IsSized};
ghost use Rattle.least.specs.Times.{least_in_segment};
ghost use Rattle.network.specs.Refused.{refused};
ghost use Rattle.rows.specs.Index.{IsOnlyIndex, LeastIndex};

use crate::admission::{Room, admit};
use crate::costs::Costs;
use crate::faults::LayFault;
use crate::incoming::IncomingArcs;
use crate::search::Search;
use clock::ClockRoads;
use network::Network;
use queue::{Key, Slot};

/// Writes the rows of one segment.
fn lay_segment<N: Network>(
    roads: &N,
    incoming: &IncomingArcs,
    costs: &Costs,
    segment: u32,
    search: &mut Search,
    sites: &mut [u32],
    times: &mut [u32],
)
    requires segment { segment < 8 }
    requires links { Links (N.roads roads.now) incoming.now }
    requires costs { length (costs_in costs.now) ≡ (N.roads roads.now).arcs }
    requires sized { IsSized (N.roads roads.now).junctions search.old }
    requires idle { IsIdle search.old }
    requires sites { let n = (N.roads roads.now).junctions in
        segment_at n search.old.most (segment + 1) ≤ length sites.old }
    requires times { let n = (N.roads roads.now).junctions in
        segment_at n search.old.most (segment + 1) ≤ length times.old }
    ensures sized { IsSized (N.roads roads.now).junctions search.new }
    ensures most { search.new.most ≡ search.old.most }
    ensures idle { IsIdle search.new }
    ensures rows { let m = N.roads roads.now in
        let f = cost_by (costs_in costs.now) in
        (v : ℕ) → v < m.junctions → Laid m f search.old.most segment v sites.new times.new }
    ensures rest { let n = (N.roads roads.now).junctions in
        SameElsewhere n search.old.most segment sites.old times.old sites.new times.new }
{
    search.fill(roads, costs.as_slice(), incoming);
    search.write(segment, sites, times);
}

/// Writes the index of least times from end to end, or nothing where it is refused: by the segments (9), by how many entries
/// a row has or how long a list is (10), by a work list that is too short (17), in this order. The work list is scratch.
pub fn lay(
    roads: &ClockRoads,
    segments: &[u32],
    most: u32,
    sites: &mut [u32],
    times: &mut [u32],
    work: &mut [Slot<Key>],
) -> Result<(), LayFault>
    ensures refusal { let n = (clock_roads (road_lists roads.now)).junctions in
        refused lay_fault result
        ≡ lay_refusal n segments.now most (length sites.old) (length times.old) (length work.old) }
    ensures index { let t = road_lists roads.now in
        let least = least_in_segment t segments.now in
        OnOk result
        (LeastIndex (clock_roads t) (length segments.now) most least sites.new times.new) }
    ensures only { let t = road_lists roads.now in
        let least = least_in_segment t segments.now in
        OnOk result
        (IsOnlyIndex (clock_roads t) (length segments.now) most least sites.new times.new) }
    ensures sites_kept { OnErr result (sites.new ≡ sites.old) }
    ensures times_kept { OnErr result (times.new ≡ times.old) }
{
    let room = Room {
        sites: sites.len(),
        times: times.len(),
        work: work.len(),
    };
    let n = roads.junctions();
    let day = admit(segments, n, most, room)?;
    let incoming = IncomingArcs::of(roads);
    let mut search = Search::new(n, most, &mut work[..n as usize]);
    for segment in 0..day.count() {
        let Some(costs) = Costs::of(roads, &day, segment) else {
            unreachable!();
        };
        lay_segment(roads, &incoming, &costs, segment, &mut search, sites, times);
    }
    Ok(())
}
