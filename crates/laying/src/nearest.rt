// The sites that are nearest to each junction in one segment of the day.
ghost use Rattle.std.specs.Prelude.{◌≡◌, ◌≤◌, ◌↔◌, IsSome, IfSome, length, option_map};
ghost use Rattle.network.specs.Model.{there};
ghost use Rattle.rows.specs.Rows.{Defined, IsOnlyDefined};
ghost use Rattle.laying.specs.Costs.{cost_by};
ghost use Rattle.laying.specs.Held.{costs_in};
ghost use Rattle.laying.specs.NearestRows.{junctions_in, rows_in};

use crate::costs::Costs;
use crate::incoming::IncomingArcs;
use crate::search::Search;
use arrayvec::ArrayVec;
use network::{MOST_JUNCTIONS, Network};
use queue::{Key, Slot};
use rows::{Entry, MOST_ENTRIES, Row};

/// For each junction the sites of least time over all chains, at most so many, by time and then number.
#[derive(Drop)]
pub struct NearestRows {
    pub(crate) rows: ArrayVec<Row, MOST_JUNCTIONS>,
}

impl NearestRows {
    /// Rows of at most so many entries, 1 to 8, by the costs of a segment. Nothing where the costs are not one for each arc,
    /// or the work list is shorter than the junctions. The work list is scratch.
    pub fn of<N: Network>(
        roads: &N,
        costs: &Costs,
        most: u32,
        work: &mut [Slot<Key>],
    ) -> Option<NearestRows>
        ensures variant { let m = N.roads roads.now in
            IsSome result ↔ ((1 ≤ most) × (most ≤ 8) × (length (costs_in costs.now) ≡ m.arcs)
            × (m.junctions ≤ length work.old)) }
        ensures junctions { IfSome result (λ r. junctions_in r ≡ (N.roads roads.now).junctions) }
        ensures rows { let m = N.roads roads.now in
            IfSome result (λ r. Defined m (cost_by (costs_in costs.now)) most (rows_in r)) }
        ensures only { let m = N.roads roads.now in
            IfSome result (λ r. IsOnlyDefined m (cost_by (costs_in costs.now)) most (rows_in r)) }
    {
        let n = roads.junctions();
        let too_short = work.len() < n as usize;
        if most < 1 || most as usize > MOST_ENTRIES || costs.len() != roads.arcs() || too_short {
            return None;
        }
        let mut search = Search::new(n, most, &mut work[..n as usize]);
        search.fill(roads, costs.as_slice(), &IncomingArcs::of(roads));
        let Search { rows, .. } = search;
        Some(NearestRows { rows })
    }

    /// A junction's entries; nothing where there is no such junction.
    pub fn row(&self, junction: u32) -> Option<&[Entry]>
        ensures { let rows = there (junctions_in self.now) (rows_in self.now) in
            option_map (λ e. e.now) result ≡ rows junction }
    {
        Some(self.rows.get(junction as usize)?.entries())
    }
}
