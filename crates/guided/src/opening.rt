// Raw tables become roads with lists of the shape of an index, and the other way round.
ghost use Rattle.std.specs.Prelude.{◌≡◌, true, length, None};
ghost use Rattle.clock.specs.Held.{table_lists};
ghost use Rattle.clock.specs.Points.{table_refusal};
ghost use Rattle.laying.specs.Admitted.{lists_fit};
ghost use Rattle.least.specs.Held.{day_firsts};
ghost use Rattle.guided.specs.Held.{guided_lists, index_lists};
ghost use Rattle.guided.specs.Indexed.{lists_of};
ghost use Rattle.guided.specs.Lists.{network_of};

use crate::indexed::IndexedRoads;
use crate::raw::IndexTables;
use crate::roads::GuidedRoads;
use clock::{ClockRoads, ClockTables};
use least::Day;

impl IndexTables {
    // What was checked, opened.
    pub(crate) fn open(self, day: Day) -> IndexedRoads
        requires tables { table_refusal (table_lists self.tables) ≡ None }
        requires lists { let x = index_lists self in lists_fit (length x.segments) (network_of x).junctions x.nearest (length x.sites) (length x.times) ≡ true }
        requires day { day_firsts day ≡ self.segments.items }
        ensures { lists_of result ≡ index_lists self }
    {
        let IndexTables {
            tables,
            segments,
            nearest,
            sites,
            times,
        } = self;
        let Ok(roads) = ClockRoads::try_from(tables) else {
            unreachable!()
        };
        IndexedRoads {
            roads,
            segments,
            day,
            nearest,
            sites,
            times,
        }
    }
}

impl From<IndexedRoads> for IndexTables {
    ghost from_gives = { λ roads tables. index_lists tables ≡ lists_of roads };

    fn from(indexed: IndexedRoads) -> IndexTables {
        let IndexedRoads {
            roads,
            segments,
            day: _,
            nearest,
            sites,
            times,
        } = indexed;
        IndexTables {
            tables: ClockTables::from(roads),
            segments,
            nearest,
            sites,
            times,
        }
    }
}

// Everything that was loaded, as it was.
impl From<GuidedRoads> for IndexTables {
    ghost from_gives = { λ roads tables. index_lists tables ≡ guided_lists roads };

    fn from(roads: GuidedRoads) -> IndexTables {
        let GuidedRoads { indexed } = roads;
        IndexTables::from(indexed)
    }
}
