// Tables whose lists are as long as they may be, and one longer.
use crate::plain::Depot;
use crate::seeded::{Bench, Sort, Trouble};
use crate::tables::examine_both;
use std::alloc::{AllocError, Global};

// So many junctions, and at the first of them so many arcs with so many points each.
fn depot_of(heap: Global, starts: u32, arcs: u32, points: u32) -> Result<Depot, AllocError> {
    let mut depot = Depot::empty(heap);
    for place in 0..starts {
        depot.starts.push(if place == 0 { 0 } else { arcs })?;
    }
    depot.points.push(0)?;
    for arc in 0..arcs {
        depot.heads.push(0)?;
        depot.metres.push(1)?;
        for place in 1..=points {
            let departure = if place == points {
                86_400
            } else {
                place.saturating_sub(1)
            };
            depot.departures.push(departure)?;
            depot.arrivals.push(departure.saturating_add(1))?;
        }
        let end = arc.saturating_add(1).saturating_mul(points);
        depot.points.push(end)?;
    }
    Ok(depot)
}

fn compare_long(
    bench: &mut Bench,
    starts: u32,
    arcs: u32,
    points: u32,
    sites: usize,
) -> Result<(), Trouble> {
    let mut depot = depot_of(bench.heap, starts, arcs, points)?;
    depot.sites.resize(sites, 0)?;
    examine_both(bench, &depot, Sort::Long)
}

pub(crate) fn compare_edges(bench: &mut Bench) -> Result<(), Trouble> {
    for starts in [0, 1, 2, 4_096, 4_097, 4_098] {
        compare_long(bench, starts, 0, 2, 0)?;
    }
    for arcs in [16_384, 16_385] {
        compare_long(bench, 2, arcs, 2, 0)?;
    }
    for points in [1, 2, 65_536, 65_537] {
        compare_long(bench, 2, 1, points, 0)?;
    }
    for sites in [63, 64, 65] {
        compare_long(bench, 2, 1, 2, sites)?;
    }
    Ok(())
}
