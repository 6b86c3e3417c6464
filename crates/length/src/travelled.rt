// A reading of length roads: metres, then arcs passed.
ghost use Rattle.std.specs.Prelude.{◌≡◌, ◌≤◌, ◌&&◌, nat_le};
ghost use Rattle.length.specs.Readings.{longer, one_more};
ghost use Rattle.network.specs.First.{provided};
ghost use Rattle.std.specs.Option.{option_map};

const MOST_METRES: u32 = 4_000_000_000;

const MOST_PASSED: u32 = 65_535;

#[derive(Clone, Copy, PartialEq, Eq, PartialOrd, Ord, Debug)]
pub struct Travelled {
    metres: u32,
    passed: u32,
    ghost far: { metres ≤ 4000000000 },
    ghost few: { passed ≤ 65535 },
}

impl Travelled {
    ghost use Rattle.length.specs.Travel.{told};

    // Nothing above 4,000,000,000 metres or 65,535 arcs.
    pub fn new(metres: u32, passed: u32) -> Option<Travelled>
        ensures { option_map told result ≡ provided (nat_le metres 4000000000 && nat_le passed 65535) (metres, passed) }
    {
        if metres > MOST_METRES || passed > MOST_PASSED {
            return None;
        }
        Some(Travelled { metres, passed })
    }

    pub fn metres(self) -> u32
        ensures { result ≡ self.metres }
    {
        self.metres
    }

    pub fn passed(self) -> u32
        ensures { result ≡ self.passed }
    {
        self.passed
    }

    // Nothing above 4,000,000,000 metres.
    pub fn longer(self, by: u32) -> Option<Travelled>
        ensures { option_map told result ≡ longer by (told self) }
    {
        Travelled::new(self.metres.checked_add(by)?, self.passed)
    }

    // The count stays at 65,535.
    pub fn one_more(self) -> Travelled
        ensures { told result ≡ one_more (told self) }
    {
        Travelled {
            metres: self.metres,
            passed: (self.passed + 1).min(MOST_PASSED),
        }
    }
}
