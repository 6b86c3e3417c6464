// Following ways back and driving the arcs, by the rules.
use crate::plain::lists::at;
use crate::plain::readings::Far;
use crate::plain::refused::Refused;
use crate::plain::roads::Roads;
use std::alloc::{AllocError, Global};

// From where, with which start number, and to where; how long the list of arcs is.
#[derive(Clone, Copy)]
pub(crate) struct Drive {
    pub(crate) from: u32,
    pub(crate) number: u32,
    pub(crate) to: u32,
    pub(crate) arcs: u32,
}

// The arcs in driving order, and what arrives by them; or what is refused.
#[derive(Drop)]
pub(crate) struct Driven {
    pub(crate) arcs: Vec<u32>,
    pub(crate) arrived: Result<Far, Refused>,
}

// Whether the ways lead from the start to the junction; the arcs so far, in driving order.
fn follow(
    roads: &Roads,
    drive: Drive,
    ways: &[u32],
    trail: &mut Vec<u32>,
) -> Result<bool, AllocError> {
    let mut junction = drive.to;
    for _ in 0..roads.depot.junctions() {
        if junction == drive.from {
            trail.reverse();
            return Ok(true);
        }
        let arc = at(ways, junction);
        if roads.head(arc) != Some(junction) {
            return Ok(false);
        }
        let Some(tail) = roads.tail(arc) else {
            return Ok(false);
        };
        trail.push(arc)?;
        junction = tail;
    }
    Ok(false)
}

// 14, 15 and 17, else the start reading.
fn begin(roads: &Roads, drive: Drive, ways: usize) -> Result<Far, Refused> {
    let n = roads.depot.junctions();
    if drive.from >= n || drive.to >= n {
        return Err(Refused::call(14));
    }
    let Some(start) = roads.kind.start(drive.number) else {
        return Err(Refused::call(15));
    };
    if ways < n as usize || drive.arcs.saturating_add(1) < n {
        return Err(Refused::call(17));
    }
    Ok(start)
}

pub(crate) fn drive_plainly(
    heap: Global,
    roads: &Roads,
    drive: Drive,
    ways: &[u32],
) -> Result<Driven, AllocError> {
    let mut arcs = Vec::new(heap);
    let mut arrived = begin(roads, drive, ways.len());
    if arrived.is_ok() && !follow(roads, drive, ways, &mut arcs)? {
        arrived = Err(Refused::call(38));
    }
    for arc in arcs.iter() {
        let Ok(reading) = arrived else {
            break;
        };
        arrived = roads.carry(*arc, reading).ok_or(Refused::call(39));
    }
    Ok(Driven { arcs, arrived })
}
