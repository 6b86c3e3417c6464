// Readings as a command gives them and as its answer shows them.
use clock::Seconds;
use console::ClockTime;
use length::Travelled;
use std::fmt;

pub trait Given: fmt::Display + Drop {
    // The reading that the first numbers give, nothing for an impossible one, and the numbers after it. Nothing at all where
    // numbers are missing.
    fn given(numbers: &[u32]) -> Option<(Option<Self>, &[u32])>;

    // What a clock shows then, where the reading is a moment of the day.
    fn clock_time(&self) -> Option<ClockTime>;
}

impl Given for Seconds {
    fn given(numbers: &[u32]) -> Option<(Option<Seconds>, &[u32])> {
        match numbers {
            [seconds, rest @ ..] => Some((Seconds::new(*seconds), rest)),
            _ => None,
        }
    }

    fn clock_time(&self) -> Option<ClockTime> {
        Some(ClockTime::of(self.value()))
    }
}

impl Given for Travelled {
    fn given(numbers: &[u32]) -> Option<(Option<Travelled>, &[u32])> {
        match numbers {
            [metres, passed, rest @ ..] => Some((Travelled::new(*metres, *passed), rest)),
            _ => None,
        }
    }

    fn clock_time(&self) -> Option<ClockTime> {
        None
    }
}
