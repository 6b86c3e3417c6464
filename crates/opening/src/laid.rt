// Guided roads of a depot: the index is laid over its clock roads, and loaded with their tables.
ghost use Rattle.std.specs.Prelude.{◌≡◌, ◌*◌, ◌≤◌, IfOk, None, length};
ghost use Rattle.clock.specs.Held.{road_lists};
ghost use Rattle.clock.specs.Model.{clock_roads};
ghost use Rattle.clock.specs.Points.{table_refusal};
ghost use Rattle.opening.specs.Guided.{guided_refusal, index_refusal, Laid, OfDepot};
ghost use Rattle.console.specs.Kinds.{clock_tables};
ghost use Rattle.depot.specs.Reads.{seen};
ghost use Rattle.guided.specs.Faults.{load_fault};
ghost use Rattle.guided.specs.Held.{guided_lists, index_lists};
ghost use Rattle.laying.specs.Faults.{lay_fault};
ghost use Rattle.network.specs.Refused.{refused};

use clock::{ClockRoads, ClockTables};
use console::clock_tables;
use depot::Depot;
use guided::{GuidedRoads, IndexTables, LoadFault, load};
use laying::{LayFault, lay};
use network::{Network, Returned};
use queue::{Key, Slot};
use rows::MOST_ENTRIES;
use std::alloc::{AllocError, Global};

const MOST_SEGMENTS: usize = 8;

// More than the most is refused, and needs no room.
fn room_for(count: usize, most: usize) -> usize
    ensures few { result ≤ most }
    ensures enough { count ≤ most → result ≡ count }
{
    if count > most { 0 } else { count }
}

// The tables of roads with the index that is laid over them.
fn laid(
    heap: Global,
    roads: ClockRoads,
    depot: &Depot,
    work: &mut [Slot<Key>],
) -> Result<Result<IndexTables, LayFault>, AllocError>
    requires tables { road_lists roads ≡ clock_tables (seen depot.now) }
    requires accepted { table_refusal (clock_tables (seen depot.now)) ≡ None }
    requires few { length work.old ≤ 32768 }
    requires enough { depot.now.nearest ≤ 8 → length work.old ≡ (clock_roads (road_lists roads)).junctions * depot.now.nearest }
    ensures refusal { IfOk result (λ r. refused lay_fault r ≡ index_refusal (seen depot.now).segments depot.now.nearest) }
    ensures tables { IfOk result (λ r. IfOk r (λ t. Laid (seen depot.now) (index_lists t) (length work.new))) }
{
    let entries = room_for(depot.segments.len(), MOST_SEGMENTS) * work.len();
    let mut sites = vec![in heap; 0u32; entries]?;
    let mut times = vec![in heap; 0u32; entries]?;
    let segments = depot.segments.clone()?;
    let nearest = depot.nearest;
    if let Err(fault) = lay(
        &roads,
        segments.as_slice(),
        nearest,
        sites.as_mut_slice(),
        times.as_mut_slice(),
        work,
    ) {
        return Ok(Err(fault));
    }
    Ok(Ok(IndexTables {
        tables: ClockTables::from(roads),
        segments,
        nearest,
        sites,
        times,
    }))
}

// That their index is the right one stands in the type. Else what the tables, the segments or the entries are refused by.
pub fn guided_roads(
    heap: Global,
    depot: &Depot,
) -> Result<Result<GuidedRoads, LoadFault>, AllocError>
    ensures refusal { IfOk result (λ r. refused load_fault r ≡ guided_refusal (seen depot.now)) }
    ensures roads { IfOk result (λ r. IfOk r (λ g. OfDepot (seen depot.now) (guided_lists g))) }
{
    let roads = match ClockRoads::try_from(clock_tables(depot)?) {
        Ok(roads) => roads,
        Err(Returned { fault, value: _ }) => return Ok(Err(LoadFault::from(fault))),
    };
    let records = roads.junctions() as usize * room_for(depot.nearest as usize, MOST_ENTRIES);
    let nothing = Key {
        height: 0,
        junction: 0,
    };
    let mut work = vec![in heap; Slot::new(nothing); records]?;
    let tables = match laid(heap, roads, depot, work.as_mut_slice())? {
        Ok(tables) => tables,
        Err(fault) => return Ok(Err(LoadFault::from(fault))),
    };
    match load(tables, work.as_mut_slice()) {
        Ok(roads) => Ok(Ok(roads)),
        Err(_) => unreachable!(),
    }
}
