// Clock roads with an index of least times, which guides an asking towards the wanted sites.
#![tactic(auto)]

mod answers;
mod checks;
mod comparing;
mod estimate;
mod faults;
mod index_lists;
mod indexed;
mod loading;
mod naming;
mod offers;
mod opening;
mod raw;
mod roads;

pub use faults::LoadFault;
pub use loading::load;
pub use raw::IndexTables;
pub use roads::GuidedRoads;
