// What a comparison needs at hand: memory, numbers at random, and the report.
use crate::plain::Refused;
use crate::seeded::random::Random;
use crate::seeded::report::Report;
use crate::seeded::sorts::Sort;
use crate::seeded::trouble::Trouble;
use std::alloc::Global;

#[derive(Clone, Copy)]
pub(crate) struct Bench {
    pub(crate) heap: Global,
    pub(crate) random: Random,
    pub(crate) report: Report,
}

impl Bench {
    // One more case of the sort, in which both agree or not.
    pub(crate) fn same(&mut self, sort: Sort, agree: bool) -> Result<(), Trouble> {
        self.report.same(sort, agree)
    }

    // One more case in which both refuse alike, or neither refuses.
    pub(crate) fn same_refusal(
        &mut self,
        sort: Sort,
        one: Option<Refused>,
        other: Option<Refused>,
    ) -> Result<(), Trouble> {
        self.report.same_refusal(sort, one, other)
    }
}
