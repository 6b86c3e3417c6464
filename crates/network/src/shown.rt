// How a refusal is printed: its number, and then its places.
use crate::refusals::{Places, Refusal};
use std::fmt;

impl fmt::Display for Refusal {
    fn fmt<W: fmt::Write>(&self, f: &mut fmt::Formatter<W>) -> fmt::Result {
        let number = self.number;
        match self.places {
            Places::Call => write!(f, "refused {number}"),
            Places::One(a) => write!(f, "refused {number} {a}"),
            Places::Two(a, b) => write!(f, "refused {number} {a} {b}"),
            Places::Three(a, b, c) => write!(f, "refused {number} {a} {b} {c}"),
        }
    }
}
