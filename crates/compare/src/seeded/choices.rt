// Numbers at random for what is asked.
use crate::plain::{Far, Kind, Roads, at, count, segment_end};
use crate::seeded::random::Random;
use std::alloc::{AllocError, Global};

// A number below the bound, and now and then one that is not.
pub(crate) fn any_below(random: &mut Random, bound: u32) -> u32 {
    match random.below(16) {
        0 => bound,
        1 => random.word(),
        _ => random.below(bound),
    }
}

pub(crate) fn any_reading(random: &mut Random, kind: Kind) -> Far {
    let most = kind.most();
    let far = match random.below(8) {
        0 => random.one_of(&[0, 86_399, 86_400, 86_401, most]),
        1 => most.saturating_sub(random.below(2_000_000)),
        2 => random.between(0, most),
        _ => random.between(0, 90_000),
    };
    let passed = match kind {
        Kind::Clock => 0,
        Kind::Length if random.once_in(3) => random.one_of(&[65_534, 65_535]),
        Kind::Length => random.below(65_536),
    };
    Far { far, passed }
}

// The first or the last second of a segment, or its end.
fn segment_edge(random: &mut Random, segments: &[u32]) -> u32 {
    let segment = random.below(count(segments.len()));
    match random.below(3) {
        0 => at(segments, segment),
        1 => segment_end(segments, segment),
        _ => segment_end(segments, segment).saturating_sub(1),
    }
}

// A start number, and now and then one that has no start reading; over an index often at the edge of a segment.
pub(crate) fn any_start(random: &mut Random, roads: &Roads) -> u32 {
    let last = roads.kind.last_start();
    match random.below(10) {
        0 => 0,
        1 => last,
        2 if random.once_in(4) => last.saturating_add(1),
        3 if random.once_in(4) => random.word(),
        4 | 5 | 6 => match roads.index {
            Some(index) => segment_edge(random, &index.segments),
            None => random.between(0, last),
        },
        _ => random.between(0, last),
    }
}

// Which sites are wanted: all, none, or some; and now and then some that are not there.
pub(crate) fn any_wanted(
    heap: Global,
    random: &mut Random,
    sites: u32,
) -> Result<Vec<bool>, AllocError> {
    let all = random.one_of(&[sites, sites, sites, 64]);
    let rarity = random.one_of(&[1, 2, 2, 4, 16]);
    let mut wanted = Vec::new(heap);
    for _ in 0..all {
        wanted.push(random.once_in(rarity))?;
    }
    Ok(wanted)
}
