// Holds that are kept beside their board, each under a number of its own.
#![tactic(auto)]

mod desk;
mod faults;
mod keeping;
mod kept;
mod opening;

pub use desk::Desk;
pub use faults::DeskFault;
