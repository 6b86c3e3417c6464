// A number of seconds as a clock shows it.
ghost use Rattle.std.specs.Prelude.{◌<◌};

use std::fmt;

// Past midnight the hours go on: 24 is the midnight after.
#[derive(Clone, Copy, Debug)]
pub struct ClockTime {
    pub hours: u32,
    pub minutes: u32,
    pub seconds: u32,
    ghost minutes_of_an_hour: { minutes < 60 },
    ghost seconds_of_a_minute: { seconds < 60 },
}

impl ClockTime {
    ghost use Rattle.std.specs.Prelude.{◌≡◌};
    ghost use Rattle.console.specs.Times.{seconds_of};

    pub fn of(seconds: u32) -> ClockTime
        ensures { seconds_of result ≡ seconds }
    {
        ClockTime {
            hours: seconds / 3600,
            minutes: seconds / 60 % 60,
            seconds: seconds % 60,
        }
    }
}

impl fmt::Display for ClockTime {
    fn fmt<W: fmt::Write>(&self, f: &mut fmt::Formatter<W>) -> fmt::Result {
        let ClockTime {
            hours,
            minutes,
            seconds,
        } = *self;
        write!(f, "{hours:02}:{minutes:02}:{seconds:02}")
    }
}
