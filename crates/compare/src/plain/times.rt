// Least travel times, by looking at every second.
use crate::plain::arrivals::between;
use crate::plain::depots::Depot;
use crate::plain::lists::{at, count};
use crate::plain::segments::segment_end;
use std::alloc::{AllocError, Global};
use std::ops::Range;

// The least of arrival minus departure over the seconds from first to before end that lie between two points, and of `least`.
fn least_between(depot: &Depot, after: u32, first: u32, end: u32, least: u32) -> u32 {
    let before = after.saturating_sub(1);
    let d = at(&depot.departures, before);
    let a = at(&depot.arrivals, before);
    let e = at(&depot.departures, after);
    let b = at(&depot.arrivals, after);
    let mut found = least;
    for second in d.max(first)..e.saturating_add(1).min(end) {
        if let Some(arrives) = between(d, a, e, b, second) {
            found = found.min(arrives.saturating_sub(second));
        }
    }
    found
}

// Over all seconds of a segment: each lies between two points of the arc.
fn least_travel_time(depot: &Depot, firsts: &[u32], segment: u32, arc: u32) -> u32 {
    let first = at(firsts, segment);
    let end = segment_end(firsts, segment);
    let mut least = u32::MAX;
    for after in at(&depot.points, arc).saturating_add(1)..at(
        &depot.points,
        arc.saturating_add(1),
    ) {
        least = least_between(depot, after, first, end, least);
    }
    least
}

fn points_of(depot: &Depot, arc: u32) -> Range<usize> {
    let first = at(&depot.points, arc) as usize;
    let end = at(&depot.points, arc.saturating_add(1)) as usize;
    first..end
}

// Whether two arcs have the same points, and so take equally long.
fn are_alike(depot: &Depot, one: u32, other: u32) -> bool {
    depot.departures.get(points_of(depot, one)) == depot.departures.get(points_of(depot, other))
        && depot.arrivals.get(points_of(depot, one)) == depot.arrivals.get(points_of(depot, other))
}

// Of each arc, in a segment; the seconds are looked at once for all arcs with the same points.
fn times_in(
    heap: Global,
    depot: &Depot,
    firsts: &[u32],
    segment: u32,
) -> Result<Vec<u32>, AllocError> {
    let mut times = Vec::new(heap);
    for arc in 0..depot.arcs() {
        let alike = (0..arc).find(|earlier| are_alike(depot, *earlier, arc));
        let time = match alike {
            Some(earlier) => at(&times, earlier),
            None => least_travel_time(depot, firsts, segment, arc),
        };
        times.push(time)?;
    }
    Ok(times)
}

// Of each arc, in each segment of the day.
pub(crate) fn travel_times(
    heap: Global,
    depot: &Depot,
    firsts: &[u32],
) -> Result<Vec<Vec<u32>>, AllocError> {
    let mut times = Vec::new(heap);
    for segment in 0..count(firsts.len()) {
        times.push(times_in(heap, depot, firsts, segment)?)?;
    }
    Ok(times)
}
