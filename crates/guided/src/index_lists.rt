// The rows of an index, and its shape.
ghost use Rattle.std.specs.Prelude.{◌≡◌, ◌+◌, ◌<◌, ◌≤◌, length};
ghost use Rattle.std.specs.Option.{option_map};
ghost use Rattle.rows.specs.Index.{place_at};
ghost use Rattle.guided.specs.Held.{guided_lists};
ghost use Rattle.guided.specs.Indexed.{lists_of};
ghost use Rattle.guided.specs.Lists.{HoldsIndex, network_of, row_lists};

use crate::indexed::IndexedRoads;
use crate::roads::GuidedRoads;
use network::Network;

impl IndexedRoads {
    // Where a row starts; all of it is within both lists.
    fn row_start(&self, segment: u32, junction: u32) -> usize
        requires segment { segment < length (lists_of self.now).segments }
        requires junction { junction < (network_of (lists_of self.now)).junctions }
        ensures start { let x = lists_of self.now in result ≡ place_at (network_of x).junctions x.nearest segment junction 0 }
        ensures sites { result + self.now.nearest ≤ length self.now.sites.items }
        ensures times { result + self.now.nearest ≤ length self.now.times.items }
    {
        let row = segment as usize * self.roads.junctions() as usize + junction as usize;
        row * self.nearest as usize
    }

    // The sites of a junction's entries in a segment, and their times; nothing where there is no such row.
    pub(crate) fn row(&self, segment: u32, junction: u32) -> Option<(&[u32], &[u32])>
        ensures { option_map (λ r. (r.0.now, r.1.now)) result ≡ row_lists (lists_of self.now) segment junction }
    {
        if segment >= self.day.count() || junction >= self.roads.junctions() {
            return None;
        }
        let first = self.row_start(segment, junction);
        let end = first + self.nearest as usize;
        Some((&self.sites[first..end], &self.times[first..end]))
    }
}

impl GuidedRoads {
    // The sites of a junction's entries in a segment, and their times; site 65,535 and time 0 where one is missing, and
    // nothing where there is no such row.
    pub fn index_row(&self, segment: u32, junction: u32) -> Option<(&[u32], &[u32])>
        ensures row { option_map (λ r. (r.0.now, r.1.now)) result ≡ row_lists (guided_lists self.now) segment junction }
        ensures index { HoldsIndex (guided_lists self.now) }
    {
        self.indexed.row(segment, junction)
    }

    // The first second of each segment of the day.
    pub fn segments(&self) -> &[u32]
        ensures { result.now ≡ (guided_lists self.now).segments }
    {
        &self.indexed.segments
    }

    // How many entries a row has.
    pub fn nearest(&self) -> u32
        ensures { result ≡ (guided_lists self.now).nearest }
    {
        self.indexed.nearest
    }
}
