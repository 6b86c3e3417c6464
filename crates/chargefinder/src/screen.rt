// Where answers are printed, and whether clock times stand beside their seconds.
use crate::readings::Given;
use console::ClockTime;
use network::Refusal;
use std::fmt;

#[derive(Clone, Copy)]
pub struct Screen<'a> {
    pub rt: &'a HostRuntime,
    pub times: bool,
}

impl Screen<'_> {
    // A reading as an answer shows it.
    pub(crate) fn reading<R: Given>(self, reading: R) -> Shown<R> {
        let time = if self.times {
            reading.clock_time()
        } else {
            None
        };
        Shown {
            value: reading,
            time,
        }
    }

    // The same of a time that something takes.
    pub(crate) fn seconds(self, seconds: u32) -> Shown<u32> {
        let time = self.times.then(|| ClockTime::of(seconds));
        Shown {
            value: seconds,
            time,
        }
    }

    pub(crate) fn refusal(self, fault: impl Into<Refusal>) -> anyhow::Result<()> {
        let refusal: Refusal = fault.into();
        Ok(println!(self.rt; "{refusal}")?)
    }
}

#[derive(Drop)]
pub struct Shown<T> {
    value: T,
    time: Option<ClockTime>,
}

impl<T: fmt::Display> fmt::Display for Shown<T> {
    fn fmt<W: fmt::Write>(&self, f: &mut fmt::Formatter<W>) -> fmt::Result {
        write!(f, "{}", self.value)?;
        match self.time {
            Some(time) => write!(f, " ({time})"),
            None => Ok(()),
        }
    }
}
