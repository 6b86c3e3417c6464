// What the rows of an index offer each other.
ghost use Rattle.std.specs.Prelude.{◌≡◌, ◌<◌, length, None, IfSome, IfNone, OnSome};
ghost use Rattle.rows.specs.Offering.{offer_all};
ghost use Rattle.guided.specs.Indexed.{lists_of};
ghost use Rattle.guided.specs.Lists.{network_of, arc_times, row_of};
ghost use Rattle.guided.specs.Offers.{offered_of, own_difference};

use crate::indexed::IndexedRoads;
use least::least_time;
use network::Network;
use rows::Row;

impl IndexedRoads {
    // Offers the entries of the row at an arc's head, later by the arc's time; nothing where a time does not fit, as it does
    // in the index of least times.
    fn offer_along(&self, segment: u32, arc: u32, row: &mut Row) -> Option<()>
        requires segment { segment < length (lists_of self.now).segments }
        requires arc { arc < (network_of (lists_of self.now)).arcs }
        ensures entries { let x = lists_of self.now in OnSome result (row.new.entries.items ≡ offer_all row.old.most (arc_times x segment arc) (row_of x segment ((network_of x).head arc)) row.old.entries.items) }
        ensures no_room { IfNone result (own_difference (lists_of self.now) ≡ None → ⊥) }
        ensures most { row.new.most ≡ row.old.most }
    {
        let head = self.roads.head(arc)?;
        let (sites, times) = self.row(segment, head)?;
        let by = least_time(&self.roads, &self.day, segment, arc)?;
        row.offer_later(sites, times, by)
    }

    // The row of what is offered at a junction.
    pub(crate) fn offered_row(&self, segment: u32, junction: u32) -> Option<Row>
        requires segment { segment < length (lists_of self.now).segments }
        requires junction { junction < (network_of (lists_of self.now)).junctions }
        ensures entries { IfSome result (λ r. r.entries.items ≡ offered_of (lists_of self.now) segment junction) }
        ensures no_room { IfNone result (own_difference (lists_of self.now) ≡ None → ⊥) }
    {
        let mut row = Row::standing(&self.roads, self.nearest, junction)?;
        let mut from = 0;
        while let Some(arc) = self.roads.next_arc(junction, from) {
            self.offer_along(segment, arc, &mut row)?;
            from = arc + 1;
        }
        Some(row)
    }
}
