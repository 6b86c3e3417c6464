// The day's segments, and the least time that an arc takes in each.
#![tactic(auto)]

mod day;
mod faults;
mod making;
mod segments;
mod times;

pub use day::Day;
pub use faults::DayFault;
pub use times::least_time;
