// The segments of a day, and the seconds that each holds.
ghost use Rattle.std.specs.Prelude.{◌≡◌, length};
ghost use Rattle.least.specs.Held.{day_firsts};
ghost use Rattle.least.specs.Segments.{segment_at, segment_span};

use crate::day::Day;
use clock::LAST_DEPARTURE;
use network::lower_bound;

impl Day {
    pub fn count(&self) -> u32
        ensures { result ≡ length (day_firsts self.now) }
    {
        self.firsts.len() as u32
    }

    // A segment's first second, and its end, which lies outside.
    pub fn span(&self, segment: u32) -> Option<(u32, u32)>
        ensures { result ≡ segment_span (day_firsts self.now) segment }
    {
        let first = *self.firsts.get(segment as usize)?;
        let end = self
            .firsts
            .get(segment as usize + 1)
            .map_or(LAST_DEPARTURE + 1, |next| *next);
        Some((first, end))
    }

    // The segment that holds a second; nothing past 86,400.
    pub fn segment_of(&self, second: u32) -> Option<u32>
        ensures { result ≡ segment_at (day_firsts self.now) second }
    {
        if second > LAST_DEPARTURE {
            return None;
        }
        let after = lower_bound(&self.firsts, second + 1);
        Some(after as u32 - 1)
    }
}
