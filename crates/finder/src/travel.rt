// Taking one junction after the other, the one of least key first.
ghost use Rattle.std.specs.Prelude.{◌≡◌, ℕ, ◌<◌, ◌≤◌, ◌&&◌, None, length, ◌==◌};
ghost use Rattle.finder.specs.Labels.{guidance, Sized};
ghost use Rattle.finder.specs.Lists.{Shows, KeptFrom};
ghost use Rattle.network.specs.Sets.{has};
ghost use Rattle.queue.specs.Queues.{waiting};
ghost use Rattle.soonest.specs.Stages.{last_stage};

use crate::answers::{Answer, Listing};
use crate::labels::Labels;
use network::{Guide, SiteSet};

// Where an asking begins: a junction, and the reading there.
#[derive(Clone, Copy)]
pub(crate) struct Origin<R> {
    pub(crate) junction: u32,
    pub(crate) reading: R,
}

// Whether the site stands at the junction, and is wanted.
fn is_wanted_at<G: Guide>(guide: &G, site: u32, junction: u32, wanted: &SiteSet) -> bool
    requires there { site < (G.Network.roads guide.now).sites }
    ensures { result ≡ ((G.Network.roads guide.now).place site == junction && has wanted.now site) }
{
    guide.place(site) == Some(junction) && wanted.has(site)
}

impl<R: Copy> Labels<'_, R> {
    // As many sites are asked for as there are answers.
    pub(crate) fn travel<G: Guide<Reading = R>>(
        &mut self,
        guide: &G,
        origin: Origin<R>,
        free: SiteSet,
        answers: &mut [Answer<R>],
        ways: &mut [u32],
    ) -> Listing
        requires sized { Sized (G.Network.roads guide.now).junctions self.old }
        requires long { length ways.old ≡ (G.Network.roads guide.now).junctions }
        requires there { origin.junction < (G.Network.roads guide.now).junctions }
        requires none { (h : ℕ) → waiting self.old.queue h ≡ None }
        requires some { 1 ≤ length answers.old }
        requires few { length answers.old ≤ 32 }
        ensures within { result.count ≤ length answers.old }
        ensures shown { Shows (G.Network.height guide.now) result answers.new ways.new (last_stage (guidance (G.Network.roads guide.now) (G.guess guide.now)) (length answers.old) (has free) origin.junction (G.Network.height guide.now origin.reading)) }
        ensures rest { KeptFrom result.count answers.old answers.new }
    {
        let mut wanted = free;
        self.begin(guide, origin.junction, origin.reading, &wanted, ways);
        let mut count = 0;
        let mut steps = 0;
        'taking: while let Some(taken) = self.take_least() {
            steps += 1;
            let at = taken.junction;
            let reading = taken.reading;
            if taken.sited {
                for site in 0..guide.sites() {
                    if is_wanted_at(guide, site, at, &wanted) {
                        answers[count as usize] = Answer { site, reading };
                        count += 1;
                        wanted.remove(site);
                        if count as usize == answers.len() {
                            break 'taking;
                        }
                    }
                }
            }
            self.try_arcs(guide, at, reading, &wanted, ways);
        }
        Listing { count, steps }
    }
}
