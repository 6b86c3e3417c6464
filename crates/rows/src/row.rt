// A row while it is put together.
ghost use Rattle.std.specs.Prelude.{◌≡◌, ◌≤◌, [], true, length};
ghost use Rattle.rows.specs.Offering.{is_in_order};

use crate::entry::Entry;
use arrayvec::ArrayVec;

/// How many entries a row has at most.
pub const MOST_ENTRIES: usize = 8;

/// At most so many entries, by time and then number.
#[derive(Drop)]
pub struct Row {
    pub(crate) most: u32,
    pub(crate) entries: ArrayVec<Entry, MOST_ENTRIES>,
    ghost few: { most ≤ 8 },
    ghost room: { length entries.items ≤ most },
    ghost in_order: { is_in_order entries.items ≡ true },
}

// A list of fixed room fills the room behind its elements with this.
impl Default for Row {
    fn default() -> Row
        ensures most { result.most ≡ 0 }
        ensures entries { result.entries.items ≡ [] }
    {
        Row {
            most: 0,
            entries: ArrayVec::new(),
        }
    }
}
