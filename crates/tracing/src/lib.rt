// Following ways back to the start of a drive, and driving the arcs that they give.
#![tactic(auto)]

mod admission;
mod drive;
mod follow;
mod front;
mod traced;

pub use traced::{Traced, trace};
