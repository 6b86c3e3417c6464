// The least sum of travel times over all chains to a junction: sums are lowered along all arcs until none falls any more.
use crate::plain::depots::Depot;
use crate::plain::lists::at;
use std::alloc::{AllocError, Global};

pub(crate) fn sum_at(sums: &[Option<u32>], junction: u32) -> Option<u32> {
    *sums.get(junction as usize)?
}

// The chain that begins with an arc has the sum at the arc's head, and the arc's time; whether that is less at the arc's tail.
fn lower_at(depot: &Depot, times: &[u32], sums: &mut [Option<u32>], tail: u32, arc: u32) -> bool {
    let Some(onward) = sum_at(sums, at(&depot.heads, arc)) else {
        return false;
    };
    let sum = onward.saturating_add(at(times, arc));
    if let Some(before) = sum_at(sums, tail) {
        if before <= sum {
            return false;
        }
    }
    if let Some(there) = sums.get_mut(tail as usize) {
        *there = Some(sum);
    }
    true
}

// Along each arc once; whether any sum fell.
fn lower(depot: &Depot, times: &[u32], sums: &mut [Option<u32>]) -> bool {
    let mut fell = false;
    for tail in 0..depot.junctions() {
        let (first, end) = depot.leaving(tail);
        for arc in first..end {
            if lower_at(depot, times, sums, tail, arc) {
                fell = true;
            }
        }
    }
    fell
}

// From each junction; none where no chain leads there.
pub(crate) fn sums_to(
    heap: Global,
    depot: &Depot,
    times: &[u32],
    place: u32,
) -> Result<Vec<Option<u32>>, AllocError> {
    let n = depot.junctions();
    let mut sums = Vec::from_elem(heap, None, n as usize)?;
    if let Some(there) = sums.get_mut(place as usize) {
        *there = Some(0);
    }
    for _ in 0..n {
        if !lower(depot, times, sums.as_mut_slice()) {
            break;
        }
    }
    Ok(sums)
}
