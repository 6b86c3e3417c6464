// Offering entries to a row, which keeps the nearest.
ghost use Rattle.std.specs.Prelude.{◌≡◌, ◌≢◌, ◌+◌, ◌≤◌, ◌<◌, ◌↔◌, ◌==◌, true, false, [], ◌++◌, All, IsSome, IfSome, IfNone, drop, length, position, take};
ghost use Rattle.rows.specs.Offering.{is_in_order, is_full_before, put, offer, first_change, Keeps, GivesWay, IsPutAt};
ghost use Rattle.rows.specs.declared.entry.Entry.{Entry};

use crate::entry::Entry;
use crate::row::{MOST_ENTRIES, Row};
use arrayvec::ArrayVec;

// Where the first entry of a site stands.
fn place_of(entries: &[Entry], site: u32) -> Option<usize>
    ensures { result ≡ position (λ e. e.site == site) entries.now }
{
    entries.iter().position(|entry| entry.site == site)
}

// Puts the offered entry before those below the place that come after it, where it would stand in
// order. The entry at the place gives way.
fn put_before(entries: &mut [Entry], at: usize, offered: Entry) -> usize
    requires inside { at < length entries.old }
    requires order { is_in_order (take at entries.old) ≡ true }
    requires apart { All (λ e. e.site ≢ offered.site) (take at entries.old) }
    ensures entries { entries.new ≡ put offered (take at entries.old) ++ drop (at + 1) entries.old }
    ensures place { IsPutAt offered at result entries.old entries.new }
{
    let mut place = at;
    while place > 0 && offered.comes_before(&entries[place - 1]) {
        entries[place] = entries[place - 1];
        place -= 1;
    }
    entries[place] = offered;
    place
}

impl Row {
    /// A row of at most so many entries, with none yet; nothing where that is more than it can hold.
    pub fn new(most: u32) -> Option<Row>
        ensures variant { IsSome result ↔ (most ≤ 8) }
        ensures most { IfSome result (λ r. r.most ≡ most) }
        ensures entries { IfSome result (λ r. r.entries.items ≡ []) }
    {
        if most as usize > MOST_ENTRIES {
            return None;
        }
        Some(Row {
            most,
            entries: ArrayVec::new(),
        })
    }

    /// Its entries in order.
    pub fn entries(&self) -> &[Entry]
        ensures { result.now ≡ self.now.entries.items }
    {
        &self.entries
    }

    fn is_full(&self) -> bool
        ensures { result ≡ (length self.now.entries.items == self.now.most) }
    {
        self.entries.len() == self.most as usize
    }

    // Whether the row is full of entries that come before the offered one.
    fn is_full_before(&self, offered: &Entry) -> bool
        ensures { result ≡ is_full_before self.now.most self.now.entries.items offered.now }
    {
        match self.entries.last() {
            Some(last) => self.is_full() && last.comes_before(offered),
            None => self.is_full(),
        }
    }

    // The place of what gives way to the offered entry: the entry of its site, the last of a full row,
    // or the room behind all. Nothing where the entry of its site does not come after it.
    fn place_given(&self, offered: Entry) -> Option<usize>
        requires { is_full_before self.now.most self.now.entries.items offered ≡ false }
        ensures kept { IfNone result (Keeps self.now.most self.now.entries.items offered) }
        ensures given { IfSome result (GivesWay self.now.most self.now.entries.items offered) }
    {
        let entries: &[Entry] = &self.entries;
        match place_of(entries, offered.site) {
            Some(at) if offered.comes_before(&entries[at]) => Some(at),
            Some(_) => None,
            None if self.is_full() => Some(entries.len() - 1),
            None => Some(entries.len()),
        }
    }

    /// The offered entry is left out where one of its site does not come after it, or where the row is full of entries that
    /// come before it. Answers the first place at which the row has changed.
    #[inline(always)]
    pub fn offer(&mut self, offered: Entry) -> Option<usize>
        ensures entries { let old = self.old.entries.items in
            self.new.entries.items ≡ offer self.old.most old offered }
        ensures most { self.new.most ≡ self.old.most }
        ensures place { result ≡ first_change self.old.entries.items self.new.entries.items }
    {
        if self.is_full_before(&offered) {
            return None;
        }
        let at = self.place_given(offered)?;
        if at == self.entries.len() {
            self.entries.push(offered);
        }
        Some(put_before(&mut self.entries, at, offered))
    }
}
