// What arrives at the end of an arc, by its pair of points around the second of entering.
ghost use Rattle.std.specs.Prelude.{◌≡◌, ◌+◌, ◌-◌, ◌*◌, ◌<◌, ◌≤◌, Some, slice_index};
ghost use Rattle.clock.specs.Arrivals.{between, entered};
ghost use Rattle.clock.specs.Held.{road_lists};
ghost use Rattle.clock.specs.Model.{clock_carry};
ghost use Rattle.clock.specs.Points.{Open};
ghost use Rattle.std.specs.Option.{option_map};

use crate::points::Points;
use crate::roads::ClockRoads;
use crate::seconds::{LAST_DEPARTURE, Seconds};
use network::lower_bound;

// On the straight line between (d, a) and (e, b), the fraction dropped.
#[tactic(auto, using(crate::specs::Lines::share_le))]
fn interpolate(d: u32, a: u32, e: u32, b: u32, t: u32) -> u32
    requires after { d ≤ t }
    requires before { t ≤ e }
    requires apart { d < e }
    requires rising { a ≤ b }
    ensures { result ≡ between d a e b t }
{
    let share = (t - d) as u64 * (b - a) as u64 / (e - d) as u64;
    a + share as u32
}

impl Points<'_> {
    // By the first pair of the arc's points whose second departure is not before t; finding it takes O(log points) steps.
    fn enter(&self, arc: usize, t: u32) -> u32
        requires open_arc { Open self.now.starts.now self.now.departures.now self.now.arrivals.now arc }
        requires early { t ≤ 86400 }
        ensures { entered self.now.departures.now self.now.arrivals.now (slice_index self.now.starts.now arc) (slice_index self.now.starts.now (arc + 1) - slice_index self.now.starts.now arc) t ≡ Some result }
    {
        let first = self.starts[arc] as usize;
        let end = self.starts[arc + 1] as usize;
        let after = first + lower_bound(&self.departures[first..end], t).max(1);
        interpolate(
            self.departures[after - 1],
            self.arrivals[after - 1],
            self.departures[after],
            self.arrivals[after],
            t,
        )
    }
}

impl ClockRoads {
    // Nothing is carried above 86,400.
    pub fn arrival(&self, arc: u32, entering: Seconds) -> Option<Seconds>
        ensures { option_map (λ s. s.value) result ≡ clock_carry (road_lists self.now) arc entering.value }
    {
        let t = entering.value();
        if arc as usize >= self.streets.heads.len() || t > LAST_DEPARTURE {
            return None;
        }
        let points = Points {
            starts: &self.points,
            departures: &self.departures,
            arrivals: &self.arrivals,
        };
        Seconds::new(points.enter(arc as usize, t))
    }
}
