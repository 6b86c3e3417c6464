// Examined clock tables: bare clock roads.
ghost use Rattle.std.specs.Prelude.{◌≡◌, false, length, is_some};
ghost use Rattle.clock.specs.Points.{points_refusal};

use network::Streets;

#[derive(Drop)]
pub struct ClockRoads {
    pub(crate) streets: Streets,
    pub(crate) points: Vec<u32>,
    pub(crate) departures: Vec<u32>,
    pub(crate) arrivals: Vec<u32>,
    ghost timed: { is_some (points_refusal (length streets.heads.items) points.items departures.items arrivals.items) ≡ false },
}
