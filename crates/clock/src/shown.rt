// How a reading is printed: its seconds.
use crate::seconds::Seconds;
use std::fmt;

impl fmt::Display for Seconds {
    fn fmt<W: fmt::Write>(&self, f: &mut fmt::Formatter<W>) -> fmt::Result {
        let seconds = self.value();
        write!(f, "{seconds}")
    }
}
