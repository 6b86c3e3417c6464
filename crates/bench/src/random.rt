// A generator of numbers that look random, always the same from one seed: xorshift.
ghost use Rattle.std.specs.Prelude.{◌≤◌};

#[derive(Clone, Copy)]
pub(crate) struct Random {
    state: u64,
}

impl Random {
    // From 0 no other number would follow.
    pub(crate) fn seeded(seed: u64) -> Random {
        Random { state: seed | 1 }
    }

    fn next(&mut self) -> u64 {
        let mut x = self.state;
        x ^= x << 13;
        x ^= x >> 7;
        x ^= x << 17;
        self.state = x;
        x
    }

    // A number below the bound; 0 where there is none.
    pub(crate) fn below(&mut self, bound: u32) -> u32
        ensures { result ≤ bound }
    {
        if bound == 0 {
            return 0;
        }
        (self.next() % bound as u64) as u32
    }
}
