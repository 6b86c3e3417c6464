// A board of bays, and the holds on them.
#![tactic(auto)]

mod bays;
mod board;
mod faults;
mod hold;
mod holding;
mod making;

pub use board::Board;
pub use faults::{BackFault, BoardFault, HoldFault};
pub use hold::Hold;
