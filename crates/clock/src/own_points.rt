// An arc's own points, to read; none where there is no such arc.
ghost use Rattle.std.specs.Prelude.{◌≡◌, ◌+◌, ◌<◌, ◌≤◌, length, slice_index};
ghost use Rattle.clock.specs.Held.{road_lists};
ghost use Rattle.clock.specs.Tables.{own_points};

use crate::roads::ClockRoads;

impl ClockRoads {
    pub fn departures(&self, arc: u32) -> &[u32]
        ensures { result.now ≡ own_points (road_lists self.now) self.now.departures.items arc }
    {
        if arc as usize >= self.streets.heads.len() {
            return &[];
        }
        let (first, end) = self.own_places(arc as usize);
        &self.departures[first..end]
    }

    pub fn arrivals(&self, arc: u32) -> &[u32]
        ensures { result.now ≡ own_points (road_lists self.now) self.now.arrivals.items arc }
    {
        if arc as usize >= self.streets.heads.len() {
            return &[];
        }
        let (first, end) = self.own_places(arc as usize);
        &self.arrivals[first..end]
    }

    // Where an arc's points start and end.
    fn own_places(&self, arc: usize) -> (usize, usize)
        requires { arc < length self.now.streets.heads.items }
        ensures first { result.0 ≡ slice_index self.now.points.items arc }
        ensures end { result.1 ≡ slice_index self.now.points.items (arc + 1) }
        ensures forward { result.0 ≤ result.1 }
        ensures departing { result.1 ≤ length self.now.departures.items }
        ensures arriving { result.1 ≤ length self.now.arrivals.items }
    {
        (self.points[arc] as usize, self.points[arc + 1] as usize)
    }
}
