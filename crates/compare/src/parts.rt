// Parts of the library that need no roads: queues, sets of sites, desks and the texts of depots.
mod desks;
mod queues;
mod sets;
mod texts;

use crate::seeded::{Bench, Trouble};
use desks::compare_desk;
use queues::compare_queues;
use sets::compare_set;
use texts::compare_text;

const TEXTS: usize = 8;

pub(crate) fn compare_round(bench: &mut Bench) -> Result<(), Trouble> {
    compare_queues(bench)?;
    compare_set(bench)?;
    compare_desk(bench)?;
    for _ in 0..TEXTS {
        compare_text(bench)?;
    }
    Ok(())
}
