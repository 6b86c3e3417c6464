// Taking the junction of least key.
ghost use Rattle.std.specs.Prelude.{◌≡◌, None, MatchOption};
ghost use Rattle.finder.specs.Labels.{key_in, WaitersRead};
ghost use Rattle.finder.specs.Takings.{TakenFrom};
ghost use Rattle.queue.specs.Queues.{capacity, waiting};
ghost use Rattle.soonest.specs.Stages.{least};

use crate::labels::Labels;

// A junction that is taken, its reading, and whether a site stands there.
#[derive(Clone, Copy)]
pub(crate) struct Taken<R> {
    pub(crate) junction: u32,
    pub(crate) reading: R,
    pub(crate) sited: bool,
}

impl<R: Copy> Labels<'_, R> {
    // It waits no more.
    #[inline(always)]
    pub(crate) fn take_least(&mut self) -> Option<Taken<R>>
        requires read { WaitersRead self.old }
        ensures marks { self.new.marks.now ≡ self.old.marks.now }
        ensures capacity { capacity self.new.queue ≡ capacity self.old.queue }
        ensures taken { MatchOption result (least (key_in (waiting self.old.queue)) (capacity self.old.queue) ≡ None) (λ t. TakenFrom self.old self.new t) }
    {
        let junction = self.queue.take_least()?.junction;
        let mark = self.marks[junction as usize];
        let Some(reading) = mark.reading else {
            unreachable!();
        };
        Some(Taken {
            junction,
            reading,
            sited: mark.sited,
        })
    }
}
