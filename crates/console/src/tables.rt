// The tables of each kind of roads, copied from a depot.
ghost use Rattle.std.specs.Prelude.{◌≡◌, IfOk};
ghost use Rattle.clock.specs.Held as clocks;
ghost use Rattle.length.specs.Held as lengths;
ghost use Rattle.console.specs.Kinds.{clock_tables, length_tables};
ghost use Rattle.depot.specs.Reads.{seen};

use clock::ClockTables;
use depot::Depot;
use length::LengthTables;
use std::alloc::AllocError;

pub fn clock_tables(depot: &Depot) -> Result<ClockTables, AllocError>
    ensures { IfOk result (λ t. clocks.table_lists t ≡ clock_tables (seen depot.now)) }
{
    Ok(ClockTables {
        starts: depot.arc_starts.clone()?,
        heads: depot.heads.clone()?,
        points: depot.point_starts.clone()?,
        departures: depot.departures.clone()?,
        arrivals: depot.arrivals.clone()?,
        sites: depot.sites.clone()?,
    })
}

pub fn length_tables(depot: &Depot) -> Result<LengthTables, AllocError>
    ensures { IfOk result (λ t. lengths.table_lists t ≡ length_tables (seen depot.now)) }
{
    Ok(LengthTables {
        starts: depot.arc_starts.clone()?,
        heads: depot.heads.clone()?,
        metres: depot.metres.clone()?,
        sites: depot.sites.clone()?,
    })
}
