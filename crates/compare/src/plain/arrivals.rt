// Arrivals on clock roads by the rules: the pair of points about a second, and the line between them.
use crate::plain::depots::Depot;
use crate::plain::lists::at;

// What arrives at second t between two points, if it lies between them.
pub(crate) fn between(d: u32, a: u32, e: u32, b: u32, t: u32) -> Option<u32> {
    if d > t || t > e || d >= e || a > b {
        return None;
    }
    let share = u64::from(t - d) * u64::from(b - a) / u64::from(e - d);
    u32::try_from(u64::from(a) + share).ok()
}

// By the first pair of points between which the second lies.
pub(crate) fn arrival(depot: &Depot, arc: u32, t: u32) -> Option<u32> {
    if t > 86_400 {
        return None;
    }
    let first = at(&depot.points, arc);
    let end = at(&depot.points, arc.saturating_add(1));
    for after in first.saturating_add(1)..end {
        let before = after.saturating_sub(1);
        let here = between(
            at(&depot.departures, before),
            at(&depot.arrivals, before),
            at(&depot.departures, after),
            at(&depot.arrivals, after),
            t,
        );
        if here.is_some() {
            return here;
        }
    }
    None
}
