// The segments of the day, by the first second of each.
use crate::plain::lists::{at, count};

// The first is 0, they rise, none is past 86,400, and there are 1 to 8.
pub(crate) fn cuts_the_day(firsts: &[u32]) -> bool {
    if firsts.is_empty() || firsts.len() > 8 || at(firsts, 0) != 0 {
        return false;
    }
    for place in 1..count(firsts.len()) {
        if at(firsts, place) <= at(firsts, place.saturating_sub(1)) {
            return false;
        }
    }
    firsts.iter().all(|first| *first <= 86_400)
}

// The first second of the next segment, and 86,401 for the last one.
pub(crate) fn segment_end(firsts: &[u32], segment: u32) -> u32 {
    let next = segment.saturating_add(1);
    firsts.get(next as usize).copied().unwrap_or(86_401)
}

pub(crate) fn segment_of(firsts: &[u32], second: u32) -> Option<u32> {
    (0..count(firsts.len())).find(|one| at(firsts, *one) <= second
        && second < segment_end(firsts, *one))
}
