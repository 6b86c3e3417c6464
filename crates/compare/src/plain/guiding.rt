// The estimate of guided roads by the rules.
use crate::plain::depots::Depot;
use crate::plain::index::{Index, NO_SITE};
use crate::plain::lists::{at, has};
use crate::plain::segments::{segment_end, segment_of};

fn wanted_at(depot: &Depot, wanted: &[bool], junction: u32) -> bool {
    (0..depot.site_count()).any(|site| at(&depot.sites, site) == junction && has(wanted, site))
}

// The time of the first wanted entry of a row; else nothing where an entry is missing; else the time of the last.
fn time_to(index: &Index, wanted: &[bool], first: u32) -> Option<u32> {
    let end = first.saturating_add(index.most);
    for place in first..end {
        if has(wanted, at(&index.sites, place)) {
            return Some(at(&index.times, place));
        }
    }
    if (first..end).any(|place| at(&index.sites, place) == NO_SITE) {
        return None;
    }
    Some(at(&index.times, end.saturating_sub(1)))
}

// At a junction that is there.
pub(crate) fn guided_estimate(
    depot: &Depot,
    index: &Index,
    junction: u32,
    second: u32,
    wanted: &[bool],
) -> Option<u32> {
    let Some(segment) = segment_of(&index.segments, second) else {
        return wanted_at(depot, wanted, junction).then_some(second);
    };
    let first = index.place(depot.junctions(), segment, junction, 0);
    let time = time_to(index, wanted, first)?;
    let end = segment_end(&index.segments, segment);
    Some(second.saturating_add(time).min(end))
}
