// Readings of either kind as two numbers, with the rules on them.
// Seconds and 0, or metres and arcs passed.
#[derive(Clone, Copy, PartialEq, Eq, PartialOrd)]
pub(crate) struct Far {
    pub(crate) far: u32,
    pub(crate) passed: u32,
}

#[derive(Clone, Copy)]
pub(crate) enum Kind {
    Clock,
    Length,
}

impl Kind {
    pub(crate) fn most(self) -> u32 {
        match self {
            Kind::Clock => 172_800,
            Kind::Length => 4_000_000_000,
        }
    }

    pub(crate) fn last_start(self) -> u32 {
        match self {
            Kind::Clock => 86_400,
            Kind::Length => 1_000_000,
        }
    }

    pub(crate) fn start(self, number: u32) -> Option<Far> {
        (number <= self.last_start()).then_some(Far {
            far: number,
            passed: 0,
        })
    }

    pub(crate) fn lengthen(self, reading: Far, units: u32) -> Option<Far> {
        let far = reading.far.checked_add(units)?;
        (far <= self.most()).then_some(Far {
            far,
            passed: reading.passed,
        })
    }

    pub(crate) fn height(self, reading: Far) -> u64 {
        match self {
            Kind::Clock => u64::from(reading.far),
            Kind::Length => u64::from(reading.far) * 65_536 + u64::from(reading.passed),
        }
    }
}
