// When a junction waits, and by which key.
ghost use Rattle.std.specs.Prelude.{◌≡◌, ◌<◌};
ghost use Rattle.finder.specs.Labels.{key_in};
ghost use Rattle.network.specs.Sets.{has};
ghost use Rattle.queue.specs.Queues.{capacity, waiting};
ghost use Rattle.soonest.specs.Stages.{upd};

use network::{Guide, SiteSet};
use queue::{Key, Queue};

// It waits by its estimate; where there is none it does not wait, even if it did.
#[inline(always)]
pub(crate) fn wait<G: Guide>(
    guide: &G,
    queue: &mut Queue<'_, Key>,
    junction: u32,
    reading: G::Reading,
    wanted: &SiteSet,
)
    requires there { junction < capacity queue.old }
    ensures capacity { capacity queue.new ≡ capacity queue.old }
    ensures keys { key_in (waiting queue.new) ≡ upd (key_in (waiting queue.old)) junction (G.guess guide.now junction (G.Network.height guide.now reading) (has wanted.now)) }
{
    let Some(estimate) = guide.estimate(junction, reading, wanted) else {
        queue.remove(junction);
        return;
    };
    queue.set(Key {
        height: guide.height(estimate),
        junction,
    });
}
