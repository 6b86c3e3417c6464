// What the programs that compare share: numbers and depots made at random, and the count of what was compared.
mod bench;
mod choices;
mod damaging;
mod days;
mod making;
mod random;
mod report;
mod running;
mod shapes;
mod sorts;
mod texts;
mod trouble;

pub(crate) use bench::Bench;
pub(crate) use choices::{any_below, any_reading, any_start, any_wanted};
pub(crate) use damaging::{damage, damage_list};
pub(crate) use days::{any_day, damage_day};
pub(crate) use making::make_depot;
pub(crate) use random::Random;
pub(crate) use report::Report;
pub(crate) use running::{end, first_bench, rounds_and_seed, show};
pub(crate) use shapes::Shape;
pub(crate) use sorts::Sort;
pub(crate) use texts::any_text;
pub(crate) use trouble::Trouble;
