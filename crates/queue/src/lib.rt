// A priority queue over a lent slice: of what waits, each under its handle, the least is taken first.
#![tactic(auto)]

mod calls;
mod edits;
mod entry;
mod key;
mod keyed;
mod moves;
mod queue;
mod room;
mod slot;

pub use entry::Entry;
pub use key::Key;
pub use keyed::Keyed;
pub use queue::Queue;
pub use slot::Slot;
