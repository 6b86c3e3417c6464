// A reading of clock roads: seconds since midnight, over two days.
ghost use Rattle.std.specs.Prelude.{◌≡◌, ◌≤◌, nat_le};
ghost use Rattle.std.specs.Option.{option_map};
ghost use Rattle.network.specs.First.{provided};

// Streets are entered up to midnight, and left up to the midnight after.
pub const LAST_DEPARTURE: u32 = 86_400;

pub(crate) const LAST_ARRIVAL: u32 = 172_800;

#[derive(Clone, Copy, PartialEq, Eq, PartialOrd, Ord, Debug)]
pub struct Seconds {
    value: u32,
    ghost within: { value ≤ 172800 },
}

impl Seconds {
    // Nothing past 172,800.
    pub fn new(value: u32) -> Option<Seconds>
        ensures { option_map (λ s. s.value) result ≡ provided (nat_le value 172800) value }
    {
        if value > LAST_ARRIVAL {
            return None;
        }
        Some(Seconds { value })
    }

    pub fn value(self) -> u32
        ensures { result ≡ self.value }
    {
        self.value
    }
}
