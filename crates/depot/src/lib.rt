// Reads the text of a depot file, and of a command line.
#![tactic(auto)]

mod cut;
mod depots;
mod entry;
mod fault;
mod line;
mod listing;
mod message;
mod named;
mod number;
mod part;

pub use cut::first_word;
pub use depots::{Depot, read_depot};
pub use entry::{read_numbers, split_name};
pub use fault::{EntryFault, LineFault, ReadFault, TextFault, What, WordFault};
pub use named::{Listed, Named, by_name, find_named};
