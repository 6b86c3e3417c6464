// Damaging the lists of a depot.
use crate::plain::{Depot, Part, at, count, put};
use crate::seeded::random::Random;
use std::alloc::AllocError;

const PARTS: [Part; 10] = [
    Part::Starts,
    Part::Heads,
    Part::Points,
    Part::Departures,
    Part::Departures,
    Part::Arrivals,
    Part::Arrivals,
    Part::Arrivals,
    Part::Metres,
    Part::Sites,
];

// Numbers at which a check turns.
const EDGES: [u32; 14] = [
    0,
    1,
    2,
    64,
    4_096,
    65_535,
    86_399,
    86_400,
    86_401,
    172_800,
    172_801,
    1_000_000,
    1_000_001,
    u32::MAX,
];

// A number that may do harm in the place of another.
fn harmful(random: &mut Random, number: u32, junctions: u32) -> u32 {
    match random.below(6) {
        0 => number.wrapping_sub(1),
        1 => number.wrapping_add(1),
        2 => junctions,
        3 => random.between(0, number),
        _ => random.one_of(&EDGES),
    }
}

// One number is written, added, taken away, or trades places with another.
pub(crate) fn damage_list(
    random: &mut Random,
    list: &mut Vec<u32>,
    junctions: u32,
) -> Result<(), AllocError> {
    let length = count(list.len());
    let one = random.below(length);
    let other = random.below(length);
    let number = at(list, one);
    match random.below(12) {
        0 => {
            let last = at(list, length.saturating_sub(1));
            list.push(harmful(random, last, junctions))?;
        }
        1 => {
            let _ = list.pop();
        }
        2 | 3 => {
            let exchanged = at(list, other);
            put(list, one, exchanged);
            put(list, other, number);
        }
        4 => list.truncate(one as usize),
        _ => put(list, one, harmful(random, number, junctions)),
    }
    Ok(())
}

// Two lists at most.
pub(crate) fn damage(random: &mut Random, depot: &mut Depot) -> Result<(), AllocError> {
    let junctions = depot.junctions();
    for _ in 0..random.between(1, 2) {
        let which = random.below(count(PARTS.len()));
        let part = PARTS.get(which as usize).copied().unwrap_or(Part::Arrivals);
        damage_list(random, depot.part(part), junctions)?;
    }
    Ok(())
}
