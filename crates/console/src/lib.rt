// What the program answers: which command a line asks for, and what each command computes.
#![tactic(auto)]

mod commands;
mod drives;
mod estimates;
mod faults;
mod kinds;
mod messages;
mod start;
mod tables;
mod times;
mod verbs;

pub use commands::{Command, CommandFault, read_command};
pub use drives::{carry_from, drive, start_of};
pub use estimates::estimate_from;
pub use faults::StartFault;
pub use kinds::Kind;
pub use messages::{Misuse, Misused};
pub use start::Options;
pub use tables::{clock_tables, length_tables};
pub use times::ClockTime;
pub use verbs::Verb;
