// The index by the rules: of each junction's sites those of least sum, by sum and then by number.
use crate::plain::depots::Depot;
use crate::plain::index::{Index, NO_SITE};
use crate::plain::lists::{at, count};
use crate::plain::refused::Refused;
use crate::plain::segments::cuts_the_day;
use crate::plain::sums::{sum_at, sums_to};
use std::alloc::{AllocError, Global};

// How long the lists of an index are, and the work list.
#[derive(Clone, Copy)]
pub(crate) struct IndexRoom {
    pub(crate) sites: usize,
    pub(crate) times: usize,
    pub(crate) work: usize,
}

// 9, 10, 17.
pub(crate) fn laying_refusal(
    junctions: u32,
    segments: &[u32],
    most: u32,
    room: IndexRoom,
) -> Option<Refused> {
    let rows = u64::from(junctions).saturating_mul(u64::from(most));
    let all = rows.saturating_mul(segments.len() as u64);
    let number = if !cuts_the_day(segments) {
        9
    } else if most < 1 || most > 8 || room.sites as u64 != all || room.times as u64 != all {
        10
    } else if (room.work as u64) < rows {
        17
    } else {
        return None;
    };
    Some(Refused::call(number))
}

// A site that a chain leads to, and the least sum.
#[derive(Clone, Copy)]
struct Near {
    time: u32,
    site: u32,
}

impl Near {
    fn is_before(self, other: Near) -> bool {
        self.time < other.time || (self.time == other.time && self.site < other.site)
    }
}

// Whether one is left to take after another, and is before what was found so far.
fn comes_next(near: Near, after: Option<Near>, least: Option<Near>) -> bool {
    if let Some(taken) = after {
        if !taken.is_before(near) {
            return false;
        }
    }
    match least {
        Some(other) => near.is_before(other),
        None => true,
    }
}

// The least after one that was taken; `sums` has, for each site, the sums from each junction.
fn next_near(sums: &[Vec<Option<u32>>], junction: u32, after: Option<Near>) -> Option<Near> {
    let mut least: Option<Near> = None;
    for (site, from) in sums.iter().enumerate() {
        let Some(time) = sum_at(from, junction) else {
            continue;
        };
        let site = count(site);
        let near = Near { time, site };
        if comes_next(near, after, least) {
            least = Some(near);
        }
    }
    least
}

// An index, and of each of its rows whether it leaves out a site that is as near as its last.
#[derive(Drop)]
pub(crate) struct PlainlyLaid {
    pub(crate) index: Index,
    pub(crate) cut: Vec<bool>,
}

// Whether what comes next is as near as the last that was taken.
fn is_cut(last: Option<Near>, next: Option<Near>) -> bool {
    match (last, next) {
        (Some(last), Some(next)) => last.time == next.time,
        _ => false,
    }
}

// The row of a junction is put behind those that are there; whether it is cut.
fn add_row(
    index: &mut Index,
    sums: &[Vec<Option<u32>>],
    junction: u32,
) -> Result<bool, AllocError> {
    let mut taken = None;
    let mut ended = false;
    for _ in 0..index.most {
        let next = next_near(sums, junction, taken);
        ended = ended || next.is_none();
        let near = match next {
            Some(near) if !ended => near,
            _ => Near {
                time: 0,
                site: NO_SITE,
            },
        };
        taken = Some(near);
        index.sites.push(near.site)?;
        index.times.push(near.time)?;
    }
    let cut = !ended && is_cut(taken, next_near(sums, junction, taken));
    Ok(cut)
}

// Of each site, the sums from each junction, by the arcs' travel times.
fn sums_by(
    heap: Global,
    depot: &Depot,
    times: &[u32],
) -> Result<Vec<Vec<Option<u32>>>, AllocError> {
    let mut sums = Vec::new(heap);
    for site in 0..depot.site_count() {
        let place = at(&depot.sites, site);
        sums.push(sums_to(heap, depot, times, place)?)?;
    }
    Ok(sums)
}

// The index of a depot whose tables are not refused, by the arcs' least travel times in each segment.
pub(crate) fn lay_plainly(
    heap: Global,
    depot: &Depot,
    segments: &[u32],
    times: &[Vec<u32>],
    most: u32,
) -> Result<PlainlyLaid, AllocError> {
    let mut laid = PlainlyLaid {
        index: Index::empty(heap),
        cut: Vec::new(heap),
    };
    laid.index.most = most;
    laid.index.segments.extend_from_slice(segments)?;
    for in_segment in times {
        let sums = sums_by(heap, depot, in_segment)?;
        for junction in 0..depot.junctions() {
            let cut = add_row(&mut laid.index, &sums, junction)?;
            laid.cut.push(cut)?;
        }
    }
    Ok(laid)
}

// The same without what it leaves out.
pub(crate) fn index_of(
    heap: Global,
    depot: &Depot,
    segments: &[u32],
    times: &[Vec<u32>],
    most: u32,
) -> Result<Index, AllocError> {
    let laid = lay_plainly(heap, depot, segments, times, most)?;
    Ok(laid.index)
}
