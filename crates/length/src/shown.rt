// How a reading is printed: its metres, and its arcs passed.
use crate::travelled::Travelled;
use std::fmt;

impl fmt::Display for Travelled {
    fn fmt<W: fmt::Write>(&self, f: &mut fmt::Formatter<W>) -> fmt::Result {
        let metres = self.metres();
        let passed = self.passed();
        write!(f, "{metres} {passed}")
    }
}
