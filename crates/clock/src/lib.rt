// Clock roads: how long a street takes depends on when it is entered.
#![tactic(auto)]

mod answers;
mod arc_points;
mod carrying;
mod examining;
mod faults;
mod own_points;
mod points;
mod roads;
mod seconds;
mod shown;
mod tables;

pub use faults::TableFault;
pub use roads::ClockRoads;
pub use seconds::{LAST_DEPARTURE, Seconds};
pub use tables::ClockTables;
