// Many carryings, over arcs and seconds at random.
use crate::random::Random;
use clock::{ClockRoads, LAST_DEPARTURE, Seconds};
use network::Network;
use std::alloc::{AllocError, Global};

const SEED: u64 = 88_172_645_463_325_253;

// An arc, and when it is entered.
#[derive(Clone, Copy)]
pub(crate) struct Entering {
    arc: u32,
    at: Seconds,
}

pub(crate) fn enterings(
    heap: Global,
    arcs: u32,
    carryings: u32,
) -> Result<Vec<Entering>, AllocError> {
    let mut random = Random::seeded(SEED);
    let mut made = Vec::with_capacity(heap, carryings as usize)?;
    for _ in 0..carryings {
        let arc = random.below(arcs);
        if let Some(at) = Seconds::new(random.below(LAST_DEPARTURE + 1)) {
            made.push(Entering { arc, at })?;
        }
    }
    Ok(made)
}

// The sum of what arrives.
pub(crate) fn carry_all(roads: &ClockRoads, enterings: &[Entering]) -> u64 {
    let mut sum = 0u64;
    for entering in enterings {
        if let Some(arrived) = roads.carry(entering.arc, entering.at) {
            sum = sum.wrapping_add(arrived.value() as u64);
        }
    }
    sum
}
