// How an asking begins.
ghost use Rattle.std.specs.Prelude.{◌≡◌, ℕ, ◌<◌, ◌≤◌, false, [], None, length};
ghost use Rattle.finder.specs.Labels.{guidance, mark_in, stage_of, Sized, SitesNoted};
ghost use Rattle.network.specs.Sets.{has};
ghost use Rattle.queue.specs.Queues.{waiting};
ghost use Rattle.soonest.specs.Stages.{begin};

use crate::keys::wait;
use crate::labels::Labels;
use crate::marks::Mark;
use network::{Guide, SiteSet};

// What stands for no way.
const NO_WAY: u32 = 65_535;

// No reading anywhere, and no site noted.
fn clear<R: Copy>(marks: &mut [Mark<R>])
    ensures { (v : ℕ) → mark_in marks.new v ≡ record { reading = None; sited = false } }
{
    for mark in marks.iter_mut() {
        *mark = Mark::new();
    }
}

// Notes at which junctions a site stands, so that the sites are looked at only there.
fn note_sites<G: Guide>(guide: &G, marks: &mut [Mark<G::Reading>])
    requires long { (G.Network.roads guide.now).junctions ≤ length marks.old }
    ensures readings { (v : ℕ) → (mark_in marks.new v).reading ≡ (mark_in marks.old v).reading }
    ensures sites { SitesNoted (G.Network.roads guide.now) marks.new }
{
    for site in 0..guide.sites() {
        if let Some(place) = guide.place(site) {
            marks[place as usize].sited = true;
        }
    }
}

impl<R: Copy> Labels<'_, R> {
    // The junction waits with the start reading, and no other has a reading.
    pub(crate) fn begin<G: Guide<Reading = R>>(
        &mut self,
        guide: &G,
        junction: u32,
        start: R,
        wanted: &SiteSet,
        ways: &mut [u32],
    )
        requires sized { Sized (G.Network.roads guide.now).junctions self.old }
        requires there { junction < (G.Network.roads guide.now).junctions }
        requires none { (h : ℕ) → waiting self.old.queue h ≡ None }
        ensures sized { Sized (G.Network.roads guide.now).junctions self.new }
        ensures sites { SitesNoted (G.Network.roads guide.now) self.new.marks.now }
        ensures stage { (k : ℕ) → stage_of (G.Network.height guide.now) self.new ways.new (has wanted.now) [] 0 ≡ begin (guidance (G.Network.roads guide.now) (G.guess guide.now)) k (has wanted.now) junction (G.Network.height guide.now start) }
    {
        clear(self.marks);
        ways.fill(NO_WAY);
        note_sites(guide, self.marks);
        self.marks[junction as usize].reading = Some(start);
        wait(guide, &mut self.queue, junction, start, wanted);
    }
}
