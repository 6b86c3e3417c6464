// Tables copied from the plain lists of a depot, and told from them.
use crate::plain::Depot;
use clock::ClockTables;
use length::LengthTables;
use std::alloc::AllocError;

pub(crate) fn clock_tables(depot: &Depot) -> Result<ClockTables, AllocError> {
    Ok(ClockTables {
        starts: depot.starts.clone()?,
        heads: depot.heads.clone()?,
        points: depot.points.clone()?,
        departures: depot.departures.clone()?,
        arrivals: depot.arrivals.clone()?,
        sites: depot.sites.clone()?,
    })
}

pub(crate) fn length_tables(depot: &Depot) -> Result<LengthTables, AllocError> {
    Ok(LengthTables {
        starts: depot.starts.clone()?,
        heads: depot.heads.clone()?,
        metres: depot.metres.clone()?,
        sites: depot.sites.clone()?,
    })
}

// Whether these are the lists that clock tables were copied from.
pub(crate) fn is_clock(depot: &Depot, tables: &ClockTables) -> bool {
    depot.starts.as_slice() == tables.starts.as_slice()
        && depot.heads.as_slice() == tables.heads.as_slice()
        && depot.points.as_slice() == tables.points.as_slice()
        && depot.departures.as_slice() == tables.departures.as_slice()
        && depot.arrivals.as_slice() == tables.arrivals.as_slice()
        && depot.sites.as_slice() == tables.sites.as_slice()
}

pub(crate) fn is_length(depot: &Depot, tables: &LengthTables) -> bool {
    depot.starts.as_slice() == tables.starts.as_slice()
        && depot.heads.as_slice() == tables.heads.as_slice()
        && depot.metres.as_slice() == tables.metres.as_slice()
        && depot.sites.as_slice() == tables.sites.as_slice()
}
