// Examining turns raw tables into length roads, or says what is wrong with them.
ghost use Rattle.std.specs.Prelude.{◌≡◌, None};
ghost use Rattle.length.specs.Faults.{length_fault};
ghost use Rattle.length.specs.Held.{table_lists, road_lists, handed_back, examined};
ghost use Rattle.length.specs.Metres.{measured, table_refusal};
ghost use Rattle.network.specs.Refused.{refused};
ghost use Rattle.std.specs.Result.{result_map_both};

use crate::faults::LengthFault;
use crate::roads::LengthRoads;
use crate::tables::LengthTables;
use network::{Returned, Streets, check_arcs, check_sites};

const MOST_ARC_METRES: u32 = 1_000_000;

fn metres_fit(arcs: usize, metres: &[u32]) -> bool
    ensures { result ≡ measured arcs metres.now }
{
    metres.len() == arcs
        && metres
            .iter()
            .all(|long| (1..=MOST_ARC_METRES).contains(long))
}

impl LengthTables {
    // The first fault, in the order of the checks: arcs, metres, sites.
    #[tactic(auto, unfolding(crate::specs::Metres::table_refusal))]
    pub fn check(&self) -> Result<(), LengthFault>
        ensures { refused length_fault result ≡ table_refusal (table_lists self.now) }
    {
        check_arcs(&self.starts, &self.heads)?;
        if !metres_fit(self.heads.len(), &self.metres) {
            return Err(LengthFault::Metres);
        }
        check_sites(self.starts.len() - 1, &self.sites)?;
        Ok(())
    }
}

// Refused tables are handed back as they were.
impl TryFrom<LengthTables> for LengthRoads {
    type Error = Returned<LengthTables, LengthFault>;

    ghost try_from_gives = { λ tables result. result_map_both road_lists handed_back result ≡ examined (table_lists tables) };

    fn try_from(tables: LengthTables) -> Result<LengthRoads, Returned<LengthTables, LengthFault>> {
        if let Err(fault) = tables.check() {
            return Err(Returned {
                fault,
                value: tables,
            });
        }
        let LengthTables {
            starts,
            heads,
            metres,
            sites,
        } = tables;
        let streets = Streets {
            starts,
            heads,
            sites,
        };
        Ok(LengthRoads { streets, metres })
    }
}

// The tables, as they were examined.
impl From<LengthRoads> for LengthTables {
    ghost from_gives = { λ roads tables. table_lists tables ≡ road_lists roads };

    fn from(roads: LengthRoads) -> LengthTables {
        let LengthRoads { streets, metres } = roads;
        let Streets {
            starts,
            heads,
            sites,
        } = streets;
        LengthTables {
            starts,
            heads,
            metres,
            sites,
        }
    }
}
