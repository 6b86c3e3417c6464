// The library beside the plain rules: its calls are made, and what they answer is told in plain numbers and compared.
mod answers;
mod askings;
mod boards;
mod lent;
mod piles;
mod tables;
mod told;

pub(crate) use answers::compare_answers;
pub(crate) use askings::{Answered, compare_asking};
pub(crate) use boards::{any_bays, make_board, says_the_same};
pub(crate) use lent::{Lent, front};
pub(crate) use piles::{Pile, change_pile, pile_over, uncovered};
pub(crate) use tables::{clock_tables, is_clock, is_length, length_tables};
pub(crate) use told::{Told, refused_by, told_fault, told_refusal};
