// Laying the index of least times over bare clock roads.
#![tactic(auto)]

mod admission;
mod costs;
mod faults;
mod incoming;
mod index;
mod nearest;
mod search;
mod timing;
mod writing;

pub use admission::{Room, admit};
pub use costs::Costs;
pub use faults::LayFault;
pub use index::lay;
pub use nearest::NearestRows;
