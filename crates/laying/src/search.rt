// A search from all sites at once, against the direction of travel.
ghost use Rattle.std.specs.Prelude.{◌≡◌, ◌≢◌, ℕ, ◌+◌, ◌<◌, ◌≤◌, [], length};
ghost use Rattle.queue.specs.Queues.{capacity};
ghost use Rattle.queue.specs.Waiting.{Updated};
ghost use Rattle.rows.specs.Index.{place_at};
ghost use Rattle.rows.specs.Offering.{first_change};
ghost use Rattle.laying.specs.Costs.{TimesWithin, cost_by};
ghost use Rattle.laying.specs.Incoming.{Links};
ghost use Rattle.laying.specs.Places.{SameElsewhere, Stands, segment_at};
ghost use Rattle.laying.specs.Search.{HasSoonest, IsFilled, IsIdle, IsQueued, IsSized, Rests};
ghost use Rattle.laying.specs.Search.{TakesOffer, key_for, keys_of, next_of, rows_of, settled_of};

use crate::incoming::IncomingArcs;
use crate::writing::{place_of, write_row};
use arrayvec::ArrayVec;
use network::{MOST_JUNCTIONS, Network};
use queue::{Key, Queue, Slot};
use rows::{Entry, Row};

/// Entries are settled by rising time, and a settled one is relaxed: offered, later by the arc's time, to the tail of each
/// arc that leads into its junction.
#[derive(Drop)]
pub(crate) struct Search<'q> {
    // the sites found so far, for each junction
    pub(crate) rows: ArrayVec<Row, MOST_JUNCTIONS>,
    // how many entries of each row are settled
    pub(crate) settled: [u32; MOST_JUNCTIONS],
    // each junction waits by the time of its first entry that is not settled
    pub(crate) queue: Queue<'q, Key>,
    // how many entries a row has at most
    pub(crate) most: u32,
}

impl<'q> Search<'q> {
    /// Room for a search: a row for each junction, and nothing that waits.
    pub(crate) fn new(junctions: u32, most: u32, slots: &'q mut [Slot<Key>]) -> Search<'q>
        requires short { most ≤ 8 }
        requires few { junctions ≤ 4096 }
        requires room { length slots.old ≡ junctions }
        ensures sized { IsSized junctions result }
        ensures most { result.most ≡ most }
        ensures idle { IsIdle result }
    {
        let mut rows = ArrayVec::new();
        for made in 0..junctions {
            let Some(row) = Row::new(most) else {
                unreachable!();
            };
            rows.push(row);
        }
        Search {
            rows,
            settled: [0; MOST_JUNCTIONS],
            queue: Queue::new(slots),
            most,
        }
    }

    /// Leaves a junction's row without an entry.
    fn clear_row(&mut self, junction: u32)
        requires sized { IsSized (length self.old.rows.items) self.old }
        requires there { junction < length self.old.rows.items }
        ensures sized { IsSized (length self.old.rows.items) self.new }
        ensures most { self.new.most ≡ self.old.most }
        ensures rows { Updated (rows_of self.old) (rows_of self.new) junction [] }
        ensures settled { self.new.settled ≡ self.old.settled }
        ensures keys { (v : ℕ) → keys_of self.new v ≡ keys_of self.old v }
    {
        let Some(row) = Row::new(self.most) else {
            unreachable!();
        };
        self.rows[junction as usize] = row;
    }

    /// Leaves rows without an entry, of which none is settled.
    fn clear(&mut self)
        requires sized { IsSized (length self.old.rows.items) self.old }
        requires idle { IsIdle self.old }
        ensures sized { IsSized (length self.old.rows.items) self.new }
        ensures most { self.new.most ≡ self.old.most }
        ensures rows { (v : ℕ) → rows_of self.new v ≡ [] }
        ensures settled { (v : ℕ) → settled_of self.new v ≡ 0 }
        ensures queued { IsQueued self.new }
    {
        self.settled = [0; MOST_JUNCTIONS];
        let count = self.rows.len() as u32;
        for junction in 0..count {
            self.clear_row(junction);
        }
    }

    /// The first entry of a junction's row that is not settled.
    fn next_entry(&self, junction: u32) -> Option<Entry>
        requires row { junction < length self.now.rows.items }
        requires count { junction < 4096 }
        ensures { result ≡ next_of self.now junction }
    {
        let at = junction as usize;
        let settled = self.settled[at] as usize;
        self.rows[at].entries().get(settled).copied()
    }

    /// The junction waits by its next entry, whatever it waited by; where it has none it does not wait.
    fn enqueue(&mut self, junction: u32)
        requires sized { IsSized (length self.old.rows.items) self.old }
        requires there { junction < length self.old.rows.items }
        ensures rows { self.new.rows.items ≡ self.old.rows.items }
        ensures settled { self.new.settled ≡ self.old.settled }
        ensures capacity { capacity self.new.queue ≡ capacity self.old.queue }
        ensures most { self.new.most ≡ self.old.most }
        ensures queued { let key = key_for self.old junction in
            Updated (keys_of self.old) (keys_of self.new) junction key }
    {
        match self.next_entry(junction) {
            Some(entry) => self.queue.set(Key {
                height: entry.time as u64,
                junction,
            }),
            None => self.queue.remove(junction),
        }
    }

    /// Offers an entry to a junction's row, and answers where that changed first.
    #[inline(always)]
    fn offer_to_row(&mut self, junction: u32, entry: Entry) -> Option<usize>
        requires sized { IsSized (length self.old.rows.items) self.old }
        requires there { junction < length self.old.rows.items }
        ensures sized { IsSized (length self.old.rows.items) self.new }
        ensures most { self.new.most ≡ self.old.most }
        ensures rows { TakesOffer self.old self.new junction entry }
        ensures settled { self.new.settled ≡ self.old.settled }
        ensures keys { (v : ℕ) → keys_of self.new v ≡ keys_of self.old v }
        ensures place { let row = rows_of self.old junction in
            result ≡ first_change row (rows_of self.new junction) }
    {
        self.rows[junction as usize].offer(entry)
    }

    /// Offers an entry to a junction's row. The junction waits anew only where its next entry may be another.
    fn offer(&mut self, junction: u32, entry: Entry)
        requires sized { IsSized (length self.old.rows.items) self.old }
        requires there { junction < length self.old.rows.items }
        requires queued { IsQueued self.old }
        ensures sized { IsSized (length self.old.rows.items) self.new }
        ensures most { self.new.most ≡ self.old.most }
        ensures rows { TakesOffer self.old self.new junction entry }
        ensures settled { self.new.settled ≡ self.old.settled }
        ensures queued { IsQueued self.new }
    {
        let Some(changed) = self.offer_to_row(junction, entry) else {
            return;
        };
        if changed <= self.settled[junction as usize] as usize {
            self.enqueue(junction);
        }
    }

    /// Each site offers itself at its junction, at time 0.
    fn offer_sites<N: Network>(&mut self, roads: &N)
        requires sized { IsSized (N.roads roads.now).junctions self.old }
        requires rows { (v : ℕ) → rows_of self.old v ≡ [] }
        requires settled { (v : ℕ) → settled_of self.old v ≡ 0 }
        requires queued { IsQueued self.old }
        ensures sized { IsSized (N.roads roads.now).junctions self.new }
        ensures most { self.new.most ≡ self.old.most }
        ensures rest { (f : ℕ → ℕ) → Rests (N.roads roads.now) f self.new }
        ensures queued { IsQueued self.new }
    {
        for site in 0..roads.sites() {
            if let Some(junction) = roads.place(site) {
                self.offer(junction, Entry { site, time: 0 });
            }
        }
    }

    /// Settles the next entry of a junction, and relaxes it.
    fn settle<N: Network>(
        &mut self,
        roads: &N,
        costs: &[u32],
        incoming: &IncomingArcs,
        junction: u32,
    )
        requires sized { IsSized (N.roads roads.now).junctions self.old }
        requires costs { TimesWithin (N.roads roads.now).arcs costs.now }
        requires links { Links (N.roads roads.now) incoming.now }
        requires there { junction < (N.roads roads.now).junctions }
        requires rest { Rests (N.roads roads.now) (cost_by costs.now) self.old }
        requires next { HasSoonest self.old junction }
        requires queued { (v : ℕ) → v ≢ junction → keys_of self.old v ≡ key_for self.old v }
        ensures sized { IsSized (N.roads roads.now).junctions self.new }
        ensures most { self.new.most ≡ self.old.most }
        ensures rest { Rests (N.roads roads.now) (cost_by costs.now) self.new }
        ensures queued { IsQueued self.new }
        ensures settled { let settled = settled_of self.old in
            Updated settled (settled_of self.new) junction (settled junction + 1) }
    {
        let at = junction as usize;
        let settled = self.settled[at];
        let entry = self.rows[at].entries()[settled as usize];
        self.settled[at] = settled + 1;
        self.enqueue(junction);
        let mut next = incoming.last[at];
        while let Some(arc) = next {
            let into = incoming.arcs[arc as usize];
            let time = entry.time + costs[arc as usize];
            self.offer(
                into.tail,
                Entry {
                    site: entry.site,
                    time,
                },
            );
            next = into.before;
        }
    }

    /// Settles all entries, the soonest first.
    fn settle_all<N: Network>(&mut self, roads: &N, costs: &[u32], incoming: &IncomingArcs)
        requires sized { IsSized (N.roads roads.now).junctions self.old }
        requires costs { TimesWithin (N.roads roads.now).arcs costs.now }
        requires links { Links (N.roads roads.now) incoming.now }
        requires rest { Rests (N.roads roads.now) (cost_by costs.now) self.old }
        requires queued { IsQueued self.old }
        ensures sized { IsSized (N.roads roads.now).junctions self.new }
        ensures most { self.new.most ≡ self.old.most }
        ensures rows { IsFilled (N.roads roads.now) (cost_by costs.now) self.new }
        ensures idle { IsIdle self.new }
    {
        while let Some(key) = self.queue.take_least() {
            self.settle(roads, costs, incoming, key.junction);
        }
    }

    /// Fills the rows with the sites of least time, whatever they held.
    pub(crate) fn fill<N: Network>(&mut self, roads: &N, costs: &[u32], incoming: &IncomingArcs)
        requires sized { IsSized (N.roads roads.now).junctions self.old }
        requires idle { IsIdle self.old }
        requires costs { TimesWithin (N.roads roads.now).arcs costs.now }
        requires links { Links (N.roads roads.now) incoming.now }
        ensures sized { IsSized (N.roads roads.now).junctions self.new }
        ensures most { self.new.most ≡ self.old.most }
        ensures rows { IsFilled (N.roads roads.now) (cost_by costs.now) self.new }
        ensures idle { IsIdle self.new }
    {
        self.clear();
        self.offer_sites(roads);
        self.settle_all(roads, costs, incoming);
    }

    /// Writes the rows into the lists of an index, in their segment.
    pub(crate) fn write(&self, segment: u32, sites: &mut [u32], times: &mut [u32])
        requires sized { IsSized (length self.now.rows.items) self.now }
        requires segment { segment < 8 }
        requires sites { let n = length self.now.rows.items in
            segment_at n self.now.most (segment + 1) ≤ length sites.old }
        requires times { let n = length self.now.rows.items in
            segment_at n self.now.most (segment + 1) ≤ length times.old }
        ensures rows { let n = length self.now.rows.items in
            let C = self.now.most in
            (v : ℕ) → v < n
            → Stands (rows_of self.now v) C (place_at n C segment v 0) sites.new times.new }
        ensures rest { let n = length self.now.rows.items in
            SameElsewhere n self.now.most segment sites.old times.old sites.new times.new }
    {
        let junctions = self.rows.len() as u32;
        for junction in 0..junctions {
            let place = place_of(junctions, self.most, segment, junction);
            let row = self.rows[junction as usize].entries();
            write_row(row, self.most as usize, place, sites, times);
        }
    }
}
