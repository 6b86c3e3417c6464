// Examining turns raw tables into clock roads, or says what is wrong with them.
ghost use Rattle.std.specs.Prelude.{◌≡◌};
ghost use Rattle.clock.specs.Faults.{table_fault};
ghost use Rattle.clock.specs.Held.{table_lists, road_lists, handed_back, examined};
ghost use Rattle.clock.specs.Points.{table_refusal};
ghost use Rattle.network.specs.Refused.{refused};
ghost use Rattle.std.specs.Result.{result_map_both};

use crate::faults::TableFault;
use crate::points::Points;
use crate::roads::ClockRoads;
use crate::tables::ClockTables;
use network::{Returned, Streets, check_arcs, check_sites};

impl ClockTables {
    // The first fault, in the order of the checks: arcs, points, sites.
    #[tactic(auto, unfolding(crate::specs::Points::table_refusal))]
    pub fn check(&self) -> Result<(), TableFault>
        ensures { refused table_fault result ≡ table_refusal (table_lists self.now) }
    {
        check_arcs(&self.starts, &self.heads)?;
        let points = Points {
            starts: &self.points,
            departures: &self.departures,
            arrivals: &self.arrivals,
        };
        points.check(self.heads.len())?;
        check_sites(self.starts.len() - 1, &self.sites)?;
        Ok(())
    }
}

// Refused tables are handed back as they were.
impl TryFrom<ClockTables> for ClockRoads {
    type Error = Returned<ClockTables, TableFault>;

    ghost try_from_gives = { λ tables result. result_map_both road_lists handed_back result ≡ examined (table_lists tables) };

    fn try_from(tables: ClockTables) -> Result<ClockRoads, Returned<ClockTables, TableFault>> {
        if let Err(fault) = tables.check() {
            return Err(Returned {
                fault,
                value: tables,
            });
        }
        let ClockTables {
            starts,
            heads,
            points,
            departures,
            arrivals,
            sites,
        } = tables;
        let streets = Streets {
            starts,
            heads,
            sites,
        };
        Ok(ClockRoads {
            streets,
            points,
            departures,
            arrivals,
        })
    }
}

// The tables, as they were examined.
impl From<ClockRoads> for ClockTables {
    ghost from_gives = { λ roads tables. table_lists tables ≡ road_lists roads };

    fn from(roads: ClockRoads) -> ClockTables {
        let ClockRoads {
            streets,
            points,
            departures,
            arrivals,
        } = roads;
        let Streets {
            starts,
            heads,
            sites,
        } = streets;
        ClockTables {
            starts,
            heads,
            points,
            departures,
            arrivals,
            sites,
        }
    }
}
