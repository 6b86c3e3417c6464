// Opens the guided roads of a depot: the index is laid over its clock roads, and loaded with their tables.
#![tactic(auto)]

mod laid;

pub use laid::guided_roads;
