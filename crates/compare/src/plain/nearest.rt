// The least reading at every junction, with no queue: readings are lowered along all arcs until none falls any more.
use crate::plain::asking::Listed;
use crate::plain::lists::{at, count};
use crate::plain::readings::Far;
use crate::plain::roads::Roads;
use std::alloc::{AllocError, Global};

fn reading_at(readings: &[Option<Far>], junction: u32) -> Option<Far> {
    *readings.get(junction as usize)?
}

// Along each arc once; whether any reading fell.
fn lower(roads: &Roads, readings: &mut [Option<Far>]) -> bool {
    let mut fell = false;
    for tail in 0..roads.depot.junctions() {
        let (first, end) = roads.depot.leaving(tail);
        for arc in first..end {
            let entered = reading_at(readings, tail);
            let arrived = entered.and_then(|reading| roads.carry(arc, reading));
            let head = at(&roads.depot.heads, arc);
            let Some(there) = readings.get_mut(head as usize) else {
                continue;
            };
            if let Some(reading) = arrived {
                if there.is_none_or(|before| reading < before) {
                    *there = arrived;
                    fell = true;
                }
            }
        }
    }
    fell
}

pub(crate) fn least_readings(
    heap: Global,
    roads: &Roads,
    junction: u32,
    start: Far,
) -> Result<Vec<Option<Far>>, AllocError> {
    let n = roads.depot.junctions();
    let mut readings = Vec::from_elem(heap, None, n as usize)?;
    if let Some(there) = readings.get_mut(junction as usize) {
        *there = Some(start);
    }
    for _ in 0..=n {
        if !lower(roads, readings.as_mut_slice()) {
            break;
        }
    }
    Ok(readings)
}

// Whether no free site that is left out is reached, or the list is full and none is sooner than its last.
fn none_sooner(
    roads: &Roads,
    readings: &[Option<Far>],
    free: &[bool],
    listed: &[Listed],
    full: bool,
) -> bool {
    for (site, is_free) in free.iter().enumerate() {
        let site = count(site);
        let left_out = *is_free && !listed.iter().any(|one| one.site == site);
        let least = reading_at(readings, at(&roads.depot.sites, site));
        if let (true, Some(reading)) = (left_out, least) {
            let later = listed.last().is_some_and(|last| last.reading <= reading);
            if !full || !later {
                return false;
            }
        }
    }
    true
}

// Whether the listed sites are free ones, no one twice, each with its least reading, and in order of these.
fn well_listed(roads: &Roads, readings: &[Option<Far>], free: &[bool], listed: &[Listed]) -> bool {
    for (place, one) in listed.iter().enumerate() {
        let is_free = free.get(one.site as usize).copied().unwrap_or(false);
        let least = reading_at(readings, at(&roads.depot.sites, one.site));
        if !is_free || least != Some(one.reading) {
            return false;
        }
        for later in listed.iter().skip(place.saturating_add(1)) {
            if later.site == one.site || later.reading < one.reading {
                return false;
            }
        }
    }
    true
}

// Whether the listed sites are k that are reached soonest, or all that are reached.
pub(crate) fn are_soonest(
    roads: &Roads,
    readings: &[Option<Far>],
    free: &[bool],
    listed: &[Listed],
    k: u32,
) -> bool {
    let full = listed.len() == k as usize;
    listed.len() <= k as usize
        && well_listed(roads, readings, free, listed)
        && none_sooner(roads, readings, free, listed, full)
}
