// The shapes of depots that are made at random.
use crate::seeded::random::Random;

// More kinds of arcs than a depot has arcs.
const EACH_ITS_OWN: u32 = u32::MAX;

// How many there are of each, at most; how long an arc takes on clock roads, and how far it is on length roads; at how many
// junctions the sites stand, from which one on; whether an arc leads from each junction to the next; whether all arcs are
// equally long; whether arcs often lead back to their tail or run side by side; how many arcs have points of their own, which
// the others share.
#[derive(Clone, Copy)]
pub(crate) struct Shape {
    pub(crate) junctions: u32,
    pub(crate) leaving: u32,
    pub(crate) points: u32,
    pub(crate) seconds: u32,
    pub(crate) metres: u32,
    pub(crate) sites: u32,
    pub(crate) sited: u32,
    pub(crate) sited_from: u32,
    pub(crate) line: bool,
    pub(crate) level: bool,
    pub(crate) knotted: bool,
    pub(crate) kinds: u32,
}

// The first of so many junctions in a row.
fn any_first(random: &mut Random, junctions: u32, sited: u32) -> u32 {
    random.between(0, junctions.saturating_sub(sited))
}

impl Shape {
    // Mostly small; now and then one junction alone, many points, many sites, all sites at few junctions, or most arcs along
    // a line.
    pub(crate) fn random(random: &mut Random) -> Shape {
        let junctions = match random.below(12) {
            0 => 1,
            1 => 2,
            2 => random.between(20, 60),
            3 if random.once_in(4) => random.between(100, 400),
            _ => random.between(3, 12),
        };
        Shape {
            junctions,
            leaving: random.between(1, 5),
            points: if random.once_in(12) {
                random.between(20, 90)
            } else {
                random.between(2, 6)
            },
            seconds: random.one_of(&[1, 3, 20, 600, 5_000, 40_000, 100_000]),
            metres: random.one_of(&[1, 3, 50, 5_000, 1_000_000]),
            sites: random.one_of(&[0, 1, 2, 4, 8, 20, 64]),
            sited: if random.once_in(4) {
                random.between(1, 2)
            } else {
                junctions
            },
            sited_from: 0,
            line: random.once_in(4),
            level: random.once_in(6),
            knotted: false,
            kinds: EACH_ITS_OWN,
        }
    }

    // A few junctions and arcs, since every second of the day is looked at for each arc.
    pub(crate) fn small(random: &mut Random) -> Shape {
        let junctions = random.one_of(&[1, 2, 3, 4, 5, 6, 8, 10]);
        let sited = if random.once_in(3) {
            random.between(1, 2)
        } else {
            junctions
        };
        Shape {
            junctions,
            leaving: random.between(1, 3),
            points: random.one_of(&[2, 3, 4, 8]),
            seconds: random.one_of(&[1, 3, 20, 600, 5_000, 40_000]),
            metres: 1,
            sites: random.one_of(&[0, 1, 2, 3, 5, 8, 9, 12, 64]),
            sited,
            sited_from: any_first(random, junctions, sited),
            line: random.once_in(2),
            level: random.once_in(5),
            knotted: random.once_in(4),
            kinds: EACH_ITS_OWN,
        }
    }

    // More junctions, with arcs of a few kinds, so that many chains take equally long; and often about as many sites at a
    // junction as a row has entries.
    pub(crate) fn alike(random: &mut Random) -> Shape {
        let junctions = if random.once_in(20) {
            100
        } else {
            random.one_of(&[2, 6, 11, 12, 16, 20, 25, 32, 36, 40])
        };
        let sited = random.one_of(&[1, 2, 2, 3, 6, junctions, junctions, junctions]);
        Shape {
            junctions,
            leaving: random.between(1, 4),
            points: random.one_of(&[2, 2, 3, 5]),
            seconds: random.one_of(&[1, 2, 2, 3, 60, 20_000]),
            metres: 1,
            sites: random.one_of(&[1, 2, 3, 4, 5, 6, 7, 8, 9, 10, 12, 16, 24, 64, 64]),
            sited,
            sited_from: any_first(random, junctions, sited),
            line: random.below(3) > 0,
            level: random.once_in(3),
            knotted: random.once_in(2),
            kinds: random.between(1, 3),
        }
    }

    // As many junctions as there may be.
    pub(crate) fn largest(random: &mut Random) -> Shape {
        Shape {
            junctions: 4_096,
            leaving: 4,
            points: 3,
            seconds: random.one_of(&[20, 600, 5_000]),
            metres: random.one_of(&[3, 5_000, 1_000_000]),
            sites: 64,
            sited: 4_096,
            sited_from: 0,
            line: random.once_in(2),
            level: random.once_in(2),
            knotted: false,
            kinds: EACH_ITS_OWN,
        }
    }
}
