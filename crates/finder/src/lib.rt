// Asking for the sites that are reached soonest.
#![tactic(auto)]

mod admission;
mod answers;
mod asking;
mod beginning;
mod keys;
mod labels;
mod marks;
mod question;
mod taking;
mod travel;
mod trying;

pub use answers::{Answer, Listing};
pub use asking::ask;
pub use marks::Mark;
pub use question::{MOST_ASKED, Question};
