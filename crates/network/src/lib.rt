// Roads of any kind: junctions joined by arcs, sites at junctions, and what a van's reading becomes along an arc.
#![tactic(auto)]

mod bounds;
mod checks;
mod lists;
mod questions;
mod refusals;
mod returned;
mod shown;
mod sites;
mod streets;

pub use bounds::lower_bound;
pub use checks::{MOST_JUNCTIONS, check_arcs, check_sites, runs_to};
pub use lists::Streets;
pub use questions::{Guide, Network};
pub use refusals::{Places, Refusal, StreetFault};
pub use returned::Returned;
pub use sites::{MOST_SITES, SiteSet};
