// The least time that an arc takes in a segment of the day.
ghost use Rattle.std.specs.Prelude.{◌≡◌, ℕ, ◌-◌, ◌<◌, ◌≤◌, length, slice_index};
ghost use Rattle.std.specs.Option.{option_map};
ghost use Rattle.clock.specs.Held.{road_lists};
ghost use Rattle.clock.specs.Model.{clock_carry};
ghost use Rattle.least.specs.Held.{day_firsts};
ghost use Rattle.least.specs.Points.{LeastAtPoints};
ghost use Rattle.least.specs.Times.{least_travel_time};

use crate::day::Day;
use clock::{ClockRoads, Seconds};

// How long an arc takes that is entered at a second; nothing where it is not carried.
fn travel_time(roads: &ClockRoads, arc: u32, second: u32) -> Option<u32>
    ensures { result ≡ option_map (λ q. q - second) (clock_carry (road_lists roads.now) arc second) }
{
    let arrival = roads.arrival(arc, Seconds::new(second)?)?;
    Some(arrival.value() - second)
}

// The least of `start` and what the points from `first` to `last` take.
fn least_at_points(departures: &[u32], arrivals: &[u32], first: u32, last: u32, start: u32) -> u32
    requires alike { length arrivals.now ≡ length departures.now }
    requires later { (k : ℕ) → k < length departures.now → slice_index departures.now k ≤ slice_index arrivals.now k }
    ensures { LeastAtPoints departures.now arrivals.now first last start (length departures.now) result }
{
    let mut least = start;
    for (departure, arrival) in departures.iter().zip(arrivals) {
        if first <= *departure && *departure <= last {
            least = least.min(*arrival - *departure);
        }
    }
    least
}

// On the line between two points travel time only falls or only rises, so the ends of the lines within the segment tell
// its least.
pub fn least_time(roads: &ClockRoads, day: &Day, segment: u32, arc: u32) -> Option<u32>
    ensures { result ≡ least_travel_time (road_lists roads.now) (day_firsts day.now) segment arc }
{
    let (first, end) = day.span(segment)?;
    let last = end - 1;
    let start = travel_time(roads, arc, first)?.min(travel_time(roads, arc, last)?);
    Some(least_at_points(
        roads.departures(arc),
        roads.arrivals(arc),
        first,
        last,
        start,
    ))
}
