// Days cut at random into segments.
use crate::plain::{Depot, at, count};
use crate::seeded::damaging::damage_list;
use crate::seeded::random::Random;
use std::alloc::{AllocError, Global};

// A second after this one: the next, one at which a point of the depot departs, the last of the day, or any.
fn later_second(random: &mut Random, depot: &Depot, second: u32) -> u32 {
    let next = second.saturating_add(1);
    match random.below(6) {
        0 => next,
        1 if random.once_in(6) => 86_400,
        2 => {
            let point = random.below(count(depot.departures.len()));
            at(&depot.departures, point)
        }
        3 => random.between(next, next.saturating_add(1_000)),
        _ => random.between(next, 86_400),
    }
}

// One to eight segments that cut the day.
pub(crate) fn any_day(
    heap: Global,
    random: &mut Random,
    depot: &Depot,
) -> Result<Vec<u32>, AllocError> {
    let mut firsts = Vec::new(heap);
    firsts.push(0)?;
    let mut last = 0;
    for _ in 0..random.below(10) {
        let second = later_second(random, depot, last);
        if last < second && second <= 86_400 && firsts.len() < 8 {
            firsts.push(second)?;
            last = second;
        }
    }
    Ok(firsts)
}

// Segments that may cut no day: some, a ninth, or a list that is changed.
pub(crate) fn damage_day(random: &mut Random, firsts: &mut Vec<u32>) -> Result<(), AllocError> {
    match random.below(6) {
        0 => firsts.clear(),
        1 => {
            for second in 86_000..86_009 {
                firsts.push(second)?;
            }
        }
        _ => damage_list(random, firsts, 0)?,
    }
    Ok(())
}
