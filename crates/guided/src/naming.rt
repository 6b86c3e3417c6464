// Where an index differs from the one that its roads ought to have: its rows are computed to tell.
ghost use Rattle.std.specs.Prelude.{◌≡◌, ℕ, ◌<◌, ◌≤◌, List, length};
ghost use Rattle.std.specs.Option.{option_map};
ghost use Rattle.network.specs.Refused.{refused};
ghost use Rattle.rows.specs.declared.entry.Entry.{Entry};
ghost use Rattle.guided.specs.Faults.{differs, load_fault};
ghost use Rattle.guided.specs.Indexed.{lists_of};
ghost use Rattle.guided.specs.Lists.{difference_from, network_of};
ghost use Rattle.guided.specs.Offers.{segment_difference};
ghost use Rattle.guided.specs.Loads.{RightRows};

use crate::faults::LoadFault;
use crate::indexed::IndexedRoads;
use laying::{Costs, NearestRows};
use network::Network;
use queue::{Key, Slot};

impl IndexedRoads {
    // The first place of a segment where its rows differ from the right ones.
    fn check_segment(&self, segment: u32, work: &mut [Slot<Key>]) -> Result<(), LoadFault>
        requires segment { segment < length (lists_of self.now).segments }
        requires work { (network_of (lists_of self.now)).junctions ≤ length work.old }
        ensures { let x = lists_of self.now in (rows : ℕ → ℕ → List Entry) → RightRows x rows → refused load_fault result ≡ option_map differs (segment_difference x rows segment) }
    {
        let Some(costs) = Costs::of(&self.roads, &self.day, segment) else {
            unreachable!()
        };
        let Some(rows) = NearestRows::of(&self.roads, &costs, self.nearest, work) else {
            unreachable!()
        };
        for junction in 0..self.roads.junctions() {
            let Some(row) = rows.row(junction) else {
                unreachable!()
            };
            if let Some(place) = self.row_difference(segment, junction, row) {
                return Err(LoadFault::Differs(place));
            }
        }
        Ok(())
    }

    // A right index passes in one pass over the arcs; only where the pass finds a difference are the right rows computed, to
    // name the first place.
    pub(crate) fn check_rows(&self, work: &mut [Slot<Key>]) -> Result<(), LoadFault>
        requires { (network_of (lists_of self.now)).junctions ≤ length work.old }
        ensures { let x = lists_of self.now in (rows : ℕ → ℕ → List Entry) → RightRows x rows → refused load_fault result ≡ option_map differs (difference_from x rows) }
    {
        if !self.agrees() {
            for segment in 0..self.day.count() {
                self.check_segment(segment, work)?;
            }
        }
        Ok(())
    }
}
