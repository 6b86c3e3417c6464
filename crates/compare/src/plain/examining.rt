// Examining tables by the rules, list by list.
use crate::plain::depots::Depot;
use crate::plain::lists::{at, count};
use crate::plain::refused::Refused;

// Whether a list runs from 0 to the last in steps of at least so much.
fn runs(list: &[u32], last: usize, step: u64) -> bool {
    let mut before = 0;
    for (place, number) in list.iter().enumerate() {
        let now = u64::from(*number);
        if place == 0 {
            if now != 0 {
                return false;
            }
        } else if now < u64::saturating_add(before, step) {
            return false;
        }
        before = now;
    }
    !list.is_empty() && before == last as u64
}

// Refusals 1, 2 and 3.
fn arcs_refusal(depot: &Depot) -> Option<Refused> {
    let starts = depot.starts.len();
    if starts < 2 || starts > 4_097 {
        return Some(Refused::call(1));
    }
    let arcs = depot.heads.len();
    if arcs > 16_384 || !runs(&depot.starts, arcs, 0) {
        return Some(Refused::call(2));
    }
    for (arc, head) in depot.heads.iter().enumerate() {
        if *head >= depot.junctions() {
            return Some(Refused::one(3, count(arc)));
        }
    }
    None
}

// Refusals 4 to 7.
fn points_refusal(depot: &Depot) -> Option<Refused> {
    let points = depot.departures.len();
    if depot.points.len() != depot.heads.len().saturating_add(1)
        || depot.arrivals.len() != points
        || points > 65_536
        || !runs(&depot.points, points, 2)
    {
        return Some(Refused::call(4));
    }
    for arc in 0..depot.arcs() {
        let first = at(&depot.points, arc);
        let end = at(&depot.points, arc.saturating_add(1));
        for place in first..end {
            if let Some(number) = point_refusal(depot, first, end, place) {
                return Some(Refused::two(number, arc, place));
            }
        }
    }
    None
}

// The refusal of one point among those from first to before end.
fn point_refusal(depot: &Depot, first: u32, end: u32, place: u32) -> Option<u32> {
    let departure = at(&depot.departures, place);
    let arrival = at(&depot.arrivals, place);
    let before = place.saturating_sub(1);
    let last = place.saturating_add(1) == end;
    if place == first && departure != 0 {
        return Some(5);
    }
    if place != first && departure <= at(&depot.departures, before) {
        return Some(5);
    }
    if departure > 86_400 || (last && departure < 86_400) {
        return Some(5);
    }
    if arrival <= departure || arrival > 172_800 {
        return Some(6);
    }
    if place != first && arrival < at(&depot.arrivals, before) {
        return Some(7);
    }
    None
}

// Refusal 12.
fn metres_refusal(depot: &Depot) -> Option<Refused> {
    let fit = depot
        .metres
        .iter()
        .all(|long| *long != 0 && *long <= 1_000_000);
    if !fit || depot.metres.len() != depot.heads.len() {
        return Some(Refused::call(12));
    }
    None
}

// Refusal 8.
fn sites_refusal(depot: &Depot) -> Option<Refused> {
    if depot.sites.len() > 64 {
        return Some(Refused::one(8, 64));
    }
    for (site, place) in depot.sites.iter().enumerate() {
        if *place >= depot.junctions() {
            return Some(Refused::one(8, count(site)));
        }
    }
    None
}

pub(crate) fn clock_refusal(depot: &Depot) -> Option<Refused> {
    arcs_refusal(depot)
        .or_else(|| points_refusal(depot))
        .or_else(|| sites_refusal(depot))
}

pub(crate) fn length_refusal(depot: &Depot) -> Option<Refused> {
    arcs_refusal(depot)
        .or_else(|| metres_refusal(depot))
        .or_else(|| sites_refusal(depot))
}
