// The index of least times as lists of near sites, one for each junction, over networks as their answers.
#![tactic(auto)]

mod entry;
mod offering;
mod ordering;
mod padded;
mod row;
mod together;

pub use entry::Entry;
pub use padded::{NO_SITE, least_to};
pub use row::{MOST_ENTRIES, Row};
