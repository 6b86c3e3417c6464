// Length roads: how far a van has come, in metres and arcs passed.
#![tactic(auto)]

mod answers;
mod examining;
mod faults;
mod roads;
mod shown;
mod tables;
mod travelled;

pub use faults::LengthFault;
pub use roads::LengthRoads;
pub use tables::LengthTables;
pub use travelled::Travelled;
