// The order of entries.
ghost use Rattle.std.specs.Prelude.{◌≡◌};
ghost use Rattle.rows.specs.Offering.{comes_before};

use crate::entry::Entry;

impl Entry {
    // Whether this entry comes before the other, by time and then number.
    pub fn comes_before(&self, other: &Entry) -> bool
        ensures { result ≡ comes_before self.now other.now }
    {
        self.time < other.time || (self.time == other.time && self.site < other.site)
    }
}
