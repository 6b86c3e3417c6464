// A generator of numbers that look random: xorshift, scrambled by a multiplication.
use crate::plain::{at, count};

#[derive(Clone, Copy)]
pub(crate) struct Random {
    state: u64,
}

impl Random {
    // The state is never 0, from which no other would follow.
    pub(crate) fn seeded(seed: u64) -> Random {
        Random {
            state: seed.wrapping_mul(0x9e37_79b9_7f4a_7c15) | 1,
        }
    }

    pub(crate) fn next(&mut self) -> u64 {
        let mut x = self.state;
        x ^= x >> 12;
        x ^= x << 25;
        x ^= x >> 27;
        self.state = x;
        x.wrapping_mul(0x2545_f491_4f6c_dd1d)
    }

    // Any number of 32 bits.
    pub(crate) fn word(&mut self) -> u32 {
        (self.next() / 4_294_967_296) as u32
    }

    // A number below the bound; 0 where there is none.
    pub(crate) fn below(&mut self, bound: u32) -> u32 {
        if bound == 0 {
            return 0;
        }
        self.word() % bound
    }

    // A number from low to high, both among them.
    pub(crate) fn between(&mut self, low: u32, high: u32) -> u32 {
        let more = self.below(high.saturating_sub(low).saturating_add(1));
        low.saturating_add(more)
    }

    // True once in so many times.
    pub(crate) fn once_in(&mut self, times: u32) -> bool {
        self.below(times) == 0
    }

    // One number of a list; 0 where it is empty.
    pub(crate) fn one_of(&mut self, numbers: &[u32]) -> u32 {
        let place = self.below(count(numbers.len()));
        at(numbers, place)
    }
}
