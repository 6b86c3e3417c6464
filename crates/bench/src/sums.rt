// A sum of a list's numbers that tells their order too, so that two programs can be compared by it.

#[derive(Clone, Copy)]
pub(crate) struct Sum(u64);

impl Sum {
    pub(crate) fn empty() -> Sum {
        Sum(0)
    }

    pub(crate) fn add(&mut self, number: u32) {
        self.0 = self.0.wrapping_mul(31).wrapping_add(number as u64);
    }

    pub(crate) fn of(list: &[u32]) -> Sum {
        let mut sum = Sum::empty();
        for number in list {
            sum.add(*number);
        }
        sum
    }

    pub(crate) fn value(self) -> u64 {
        self.0
    }
}
