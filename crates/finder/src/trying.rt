// Trying the outgoing arcs of a junction that is taken.
ghost use Rattle.std.specs.Prelude.{◌≡◌, ℕ, ◌<◌, length};
ghost use Rattle.finder.specs.Labels.{guidance, reading_in, Becomes, Sized, SameSites};
ghost use Rattle.network.specs.Model.{arrival};
ghost use Rattle.network.specs.Sets.{has};
ghost use Rattle.soonest.specs.Stages.{below, arrive, try_all};

use crate::keys::wait;
use crate::labels::Labels;
use network::{Guide, SiteSet};

impl<R: Copy> Labels<'_, R> {
    // Whether what arrives is below the head's reading, or the head has none.
    fn improves<G: Guide<Reading = R>>(&self, guide: &G, head: u32, arrived: R) -> bool
        requires there { head < length self.now.marks.now }
        ensures { result ≡ below (G.Network.height guide.now arrived) (reading_in (G.Network.height guide.now) self.now.marks.now head) }
    {
        let mark = self.marks[head as usize];
        match mark.reading {
            Some(reading) => guide.less(arrived, reading),
            None => true,
        }
    }

    // An arc that is entered with the reading.
    #[inline(always)]
    fn try_arc<G: Guide<Reading = R>>(
        &mut self,
        guide: &G,
        arc: u32,
        reading: R,
        wanted: &SiteSet,
        ways: &mut [u32],
    )
        requires there { arc < (G.Network.roads guide.now).arcs }
        requires sized { Sized (G.Network.roads guide.now).junctions self.old }
        requires long { length ways.old ≡ (G.Network.roads guide.now).junctions }
        ensures sized { Sized (G.Network.roads guide.now).junctions self.new }
        ensures sites { SameSites self.old self.new }
        ensures stage { (k : ℕ) → Becomes (G.Network.height guide.now) (has wanted.now) (arrive (guidance (G.Network.roads guide.now) (G.guess guide.now)) k arc (arrival (G.Network.roads guide.now) arc (G.Network.height guide.now reading))) self.old self.new ways.old ways.new }
    {
        let Some(arrived) = guide.carry(arc, reading) else {
            return;
        };
        let Some(head) = guide.head(arc) else {
            return;
        };
        if !self.improves(guide, head, arrived) {
            return;
        }
        self.marks[head as usize].reading = Some(arrived);
        ways[head as usize] = arc;
        wait(guide, &mut self.queue, head, arrived, wanted);
    }

    // Each outgoing arc in turn, by rising number.
    #[inline(always)]
    pub(crate) fn try_arcs<G: Guide<Reading = R>>(
        &mut self,
        guide: &G,
        junction: u32,
        reading: R,
        wanted: &SiteSet,
        ways: &mut [u32],
    )
        requires sized { Sized (G.Network.roads guide.now).junctions self.old }
        requires long { length ways.old ≡ (G.Network.roads guide.now).junctions }
        ensures sized { Sized (G.Network.roads guide.now).junctions self.new }
        ensures sites { SameSites self.old self.new }
        ensures stage { (k : ℕ) → Becomes (G.Network.height guide.now) (has wanted.now) (try_all (guidance (G.Network.roads guide.now) (G.guess guide.now)) k junction (G.Network.height guide.now reading) (G.Network.roads guide.now).arcs) self.old self.new ways.old ways.new }
    {
        let mut from = 0;
        while let Some(arc) = guide.next_arc(junction, from) {
            self.try_arc(guide, arc, reading, wanted, ways);
            from = arc + 1;
        }
    }
}
