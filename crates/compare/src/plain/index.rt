// An index of least times as its lists: by segment, then junction, then entry.
use crate::plain::lists::at;
use std::alloc::Global;

// What stands where an entry is missing, with time 0.
pub(crate) const NO_SITE: u32 = 65_535;

// The first second of each segment, how many entries a row has, and the entries' sites and times.
#[derive(Drop)]
pub(crate) struct Index {
    pub(crate) segments: Vec<u32>,
    pub(crate) most: u32,
    pub(crate) sites: Vec<u32>,
    pub(crate) times: Vec<u32>,
}

impl Index {
    pub(crate) fn empty(heap: Global) -> Index {
        Index {
            segments: Vec::new(heap),
            most: 0,
            sites: Vec::new(heap),
            times: Vec::new(heap),
        }
    }

    // Where an entry stands, among so many junctions.
    pub(crate) fn place(&self, junctions: u32, segment: u32, junction: u32, entry: u32) -> u32 {
        segment
            .saturating_mul(junctions)
            .saturating_add(junction)
            .saturating_mul(self.most)
            .saturating_add(entry)
    }

    // The site and the time of the entry at a place.
    pub(crate) fn entry(&self, place: u32) -> (u32, u32) {
        (at(&self.sites, place), at(&self.times, place))
    }
}
