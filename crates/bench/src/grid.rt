// The depot that is measured: a square of junctions with a street to each neighbour, slow in the morning and less so in the
// evening, each by its own pace; and sites at random.
ghost use Rattle.std.specs.Prelude.{◌≤◌};

use crate::random::Random;
use crate::sizes::Sizes;
use clock::{ClockTables, LAST_DEPARTURE};
use std::alloc::{AllocError, Global};

pub(crate) const MOST_SIDE: u32 = 64;

const SEED: u64 = 0x9e37_79b9_7f4a_7c15;

// The tables so far, and what the rest of them comes from.
#[derive(Drop)]
struct Making {
    random: Random,
    tables: ClockTables,
}

fn count(list: &[u32]) -> u32 {
    u32::try_from(list.len()).unwrap_or(u32::MAX)
}

impl Making {
    fn begun(heap: Global) -> Result<Making, AllocError> {
        Ok(Making {
            random: Random::seeded(SEED),
            tables: ClockTables {
                starts: vec![in heap; 0u32]?,
                heads: Vec::new(heap),
                points: vec![in heap; 0u32]?,
                departures: Vec::new(heap),
                arrivals: Vec::new(heap),
                sites: Vec::new(heap),
            },
        })
    }

    fn add_street(&mut self, head: u32) -> Result<(), AllocError> {
        let tables = &mut self.tables;
        let random = &mut self.random;
        tables.heads.push(head)?;
        let pace = 40 + random.below(60);
        let rush = 25_200 + random.below(7_200);
        let morning = pace + random.below(120);
        let evening = pace + random.below(90);
        for (departure, time) in [
            (0, pace),
            (rush, morning),
            (rush + 10_800, evening),
            (LAST_DEPARTURE, pace),
        ] {
            tables.departures.push(departure)?;
            tables.arrivals.push(departure.saturating_add(time))?;
        }
        tables.points.push(count(&tables.departures))?;
        Ok(())
    }

    // The streets that leave a junction of a square with sides of this length.
    fn add_junction(&mut self, side: u32, here: u32) -> Result<(), AllocError>
        requires side { side ≤ 64 }
        requires here { here ≤ 4096 }
    {
        if here >= side {
            self.add_street(here - side)?;
        }
        if side > 0 && here % side > 0 {
            self.add_street(here - 1)?;
        }
        if side > 0 && here % side + 1 < side {
            self.add_street(here + 1)?;
        }
        if here + side < side * side {
            self.add_street(here + side)?;
        }
        self.tables.starts.push(count(&self.tables.heads))?;
        Ok(())
    }
}

pub(crate) fn grid(heap: Global, sizes: Sizes) -> Result<ClockTables, AllocError> {
    let mut making = Making::begun(heap)?;
    let side = sizes.side;
    let junctions = side * side;
    for here in 0..junctions {
        making.add_junction(side, here)?;
    }
    for _ in 0..sizes.sites {
        let place = making.random.below(junctions);
        making.tables.sites.push(place)?;
    }
    let Making { random: _, tables } = making;
    Ok(tables)
}
