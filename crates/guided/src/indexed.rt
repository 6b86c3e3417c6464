// Clock roads with two flat lists that have the shape of an index: by segment of the day, then junction, then entry.
ghost use Rattle.std.specs.Prelude.{◌≡◌, ◌*◌, ◌≤◌, length};
ghost use Rattle.clock.specs.Held.{road_lists};
ghost use Rattle.clock.specs.Model.{clock_roads};
ghost use Rattle.least.specs.Held.{day_firsts};

use clock::ClockRoads;
use least::Day;

// The segments as they were given, the day that they cut, how many entries a row has, and the entries' sites and times.
#[derive(Drop)]
pub struct IndexedRoads {
    pub(crate) roads: ClockRoads,
    pub(crate) segments: Vec<u32>,
    pub(crate) day: Day,
    pub(crate) nearest: u32,
    pub(crate) sites: Vec<u32>,
    pub(crate) times: Vec<u32>,
    ghost cut: { day_firsts day ≡ segments.items },
    ghost some: { 1 ≤ nearest },
    ghost few: { nearest ≤ 8 },
    ghost sites_count: { length sites.items ≡ length segments.items * (clock_roads (road_lists roads)).junctions * nearest },
    ghost times_count: { length times.items ≡ length segments.items * (clock_roads (road_lists roads)).junctions * nearest },
}
