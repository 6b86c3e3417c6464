// The rows of an index beside the rows that they ought to be.
ghost use Rattle.std.specs.Prelude.{◌≡◌, ◌<◌, length, None, MatchBool};
ghost use Rattle.rows.specs.Index.{entry_at};
ghost use Rattle.guided.specs.Indexed.{lists_of};
ghost use Rattle.guided.specs.Lists.{network_of};
ghost use Rattle.guided.specs.Offers.{offered_of, own_difference, row_difference};

use crate::indexed::IndexedRoads;
use network::Network;
use rows::{Entry, NO_SITE};

// What stands where a row has no more entries.
const MISSING: Entry = Entry {
    site: NO_SITE,
    time: 0,
};

// An entry of a row.
fn entry_at(row: &[Entry], at: usize) -> Entry
    ensures { result ≡ entry_at row.now at }
{
    row.get(at).copied().unwrap_or(MISSING)
}

impl IndexedRoads {
    // The first entry where a row differs from what it ought to be.
    pub(crate) fn row_difference(
        &self,
        segment: u32,
        junction: u32,
        right: &[Entry],
    ) -> Option<(u32, u32, u32)>
        requires segment { segment < length (lists_of self.now).segments }
        requires junction { junction < (network_of (lists_of self.now)).junctions }
        ensures { result ≡ row_difference (lists_of self.now) segment junction right.now }
    {
        let (sites, times) = self.row(segment, junction)?;
        for entry in 0..self.nearest {
            let at = entry as usize;
            let listed = Entry {
                site: sites[at],
                time: times[at],
            };
            if listed != entry_at(right, at) {
                return Some((segment, junction, entry));
            }
        }
        None
    }

    fn row_agrees(&self, segment: u32, junction: u32) -> bool
        requires segment { segment < length (lists_of self.now).segments }
        requires junction { junction < (network_of (lists_of self.now)).junctions }
        ensures { let x = lists_of self.now in MatchBool result (row_difference x segment junction (offered_of x segment junction) ≡ None) (own_difference x ≡ None → ⊥) }
    {
        match self.offered_row(segment, junction) {
            Some(row) => self
                .row_difference(segment, junction, row.entries())
                .is_none(),
            None => false,
        }
    }

    // Whether every row is the row of what is offered at its junction: so it is in the index of least times, and in no other
    // lists. One pass over the arcs tells.
    pub(crate) fn agrees(&self) -> bool
        ensures { MatchBool result (own_difference (lists_of self.now) ≡ None) (own_difference (lists_of self.now) ≡ None → ⊥) }
    {
        for segment in 0..self.day.count() {
            for junction in 0..self.roads.junctions() {
                if !self.row_agrees(segment, junction) {
                    return false;
                }
            }
        }
        true
    }
}
