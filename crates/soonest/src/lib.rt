// What asking for the soonest sites means, with the theorem about it, over networks as their answers.
#![tactic(auto)]

mod faults;

pub use faults::{AskFault, TraceFault};
