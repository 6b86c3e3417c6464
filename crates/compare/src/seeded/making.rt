// Making depots at random, with good tables.
use crate::plain::{Depot, at, count};
use crate::seeded::random::Random;
use crate::seeded::shapes::Shape;
use std::alloc::{AllocError, Global};

const MIDNIGHT: u32 = 86_400;

const LAST_ARRIVAL: u32 = 172_800;

// A good depot of the shape.
pub(crate) fn make_depot(
    heap: Global,
    random: &mut Random,
    shape: Shape,
) -> Result<Depot, AllocError> {
    let mut depot = Depot::empty(heap);
    depot.starts.push(0)?;
    depot.points.push(0)?;
    let last = shape.junctions.saturating_sub(1);
    for tail in 0..shape.junctions {
        let leaving = random.between(u32::from(shape.line), shape.leaving);
        for arc in 0..leaving {
            let head = any_head(random, shape, &depot, tail, arc == 0);
            add_arc(&mut depot, random, shape, head)?;
        }
        let arcs = depot.arcs();
        depot.starts.push(arcs)?;
    }
    for _ in 0..shape.sites {
        let place = random.below(shape.sited.min(shape.junctions));
        let junction = shape.sited_from.saturating_add(place).min(last);
        depot.sites.push(junction)?;
    }
    Ok(depot)
}

// Onward along a line, back to the tail itself, where the arc before leads, or anywhere.
fn any_head(random: &mut Random, shape: Shape, depot: &Depot, tail: u32, is_first: bool) -> u32 {
    let last = shape.junctions.saturating_sub(1);
    if shape.line && (is_first || random.once_in(2)) {
        return tail.saturating_add(1).min(last);
    }
    if shape.knotted {
        match random.below(5) {
            0 => return tail,
            1 => return at(&depot.heads, depot.arcs().saturating_sub(1)),
            _ => {}
        }
    }
    random.between(0, last)
}

fn add_arc(
    depot: &mut Depot,
    random: &mut Random,
    shape: Shape,
    head: u32,
) -> Result<(), AllocError> {
    let metres = if shape.level {
        shape.metres
    } else {
        random.between(1, shape.metres)
    };
    depot.heads.push(head)?;
    depot.metres.push(metres)?;
    if depot.arcs() > shape.kinds {
        add_points_of(depot, random.below(shape.kinds))?;
    } else {
        add_points(depot, random, shape)?;
    }
    let all = count(depot.departures.len());
    depot.points.push(all)?;
    Ok(())
}

// The points of an earlier arc once more.
fn add_points_of(depot: &mut Depot, arc: u32) -> Result<(), AllocError> {
    let first = at(&depot.points, arc);
    let end = at(&depot.points, arc.saturating_add(1));
    for place in first..end {
        let departure = at(&depot.departures, place);
        let arrival = at(&depot.arrivals, place);
        depot.departures.push(departure)?;
        depot.arrivals.push(arrival)?;
    }
    Ok(())
}

fn add_points(depot: &mut Depot, random: &mut Random, shape: Shape) -> Result<(), AllocError> {
    let points = random.between(2, shape.points);
    let mut departure = 0;
    let mut arrival = 0;
    for place in 1..=points {
        if place > 1 {
            departure = later_departure(random, departure, points.saturating_sub(place));
        }
        arrival = later_arrival(random, departure, arrival, shape);
        depot.departures.push(departure)?;
        depot.arrivals.push(arrival)?;
    }
    Ok(())
}

// A departure after this one, which leaves room for so many more; the last is midnight.
fn later_departure(random: &mut Random, departure: u32, more: u32) -> u32 {
    if more == 0 {
        return MIDNIGHT;
    }
    let room = MIDNIGHT.saturating_sub(more).saturating_sub(departure);
    let near = match random.below(3) {
        0 => 2,
        1 => room / 4,
        _ => room,
    };
    let by = random.below(near.clamp(1, room.max(1)));
    departure.saturating_add(1).saturating_add(by)
}

// Now and then as early as may be, which makes flat pieces; now and then far later, which makes steep ones.
fn later_arrival(random: &mut Random, departure: u32, before: u32, shape: Shape) -> u32 {
    let least = before.max(departure.saturating_add(1));
    let takes = match random.below(8) {
        _ if shape.level => shape.seconds,
        0 => 1,
        1 => shape.seconds.saturating_mul(10),
        2 => shape.seconds,
        _ => random.between(1, shape.seconds),
    };
    departure.saturating_add(takes).max(least).min(LAST_ARRIVAL)
}
