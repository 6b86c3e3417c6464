// What the index says of a reading.
ghost use Rattle.std.specs.Prelude.{◌≡◌, ◌+◌, ◌<◌, length, min};
ghost use Rattle.std.specs.Option.{option_map};
ghost use Rattle.least.specs.Segments.{segment_end};
ghost use Rattle.network.specs.Sets.{has};
ghost use Rattle.rows.specs.Guided.{least_to, wanted_at};
ghost use Rattle.guided.specs.Indexed.{lists_of};
ghost use Rattle.guided.specs.Lists.{network_of, row_of};

use crate::indexed::IndexedRoads;
use network::{Network, SiteSet};
use rows::least_to;

impl IndexedRoads {
    // A second of the segment and the time to a wanted site more, but at most the segment's end.
    pub(crate) fn by_day(
        &self,
        segment: u32,
        junction: u32,
        second: u32,
        wanted: &SiteSet,
    ) -> Option<u32>
        requires segment { segment < length (lists_of self.now).segments }
        requires junction { junction < (network_of (lists_of self.now)).junctions }
        ensures { let x = lists_of self.now in result ≡ option_map (λ t. min (second + t) (segment_end x.segments segment)) (least_to x.nearest (has wanted.now) (row_of x segment junction)) }
    {
        let (_, end) = self.day.span(segment)?;
        let (sites, times) = self.row(segment, junction)?;
        let time = least_to(sites, times, wanted)?;
        Some(second.saturating_add(time).min(end))
    }

    // Whether a wanted site stands at the junction.
    pub(crate) fn has_wanted(&self, junction: u32, wanted: &SiteSet) -> bool
        ensures { result ≡ wanted_at (network_of (lists_of self.now)) (has wanted.now) junction }
    {
        for site in 0..self.roads.sites() {
            if self.roads.place(site) == Some(junction) && wanted.has(site) {
                return true;
            }
        }
        false
    }
}
