// What is refused of an asking before it begins.
ghost use Rattle.std.specs.Prelude.{◌≡◌, ◌&&◌, nat_le};
ghost use Rattle.finder.specs.Askings.{Admission, asking_of};
ghost use Rattle.finder.specs.Labels.{guidance};

use crate::question::{MOST_ASKED, Question};
use network::Guide;
use soonest::AskFault;

// How long the lent lists are.
#[derive(Clone, Copy)]
pub(crate) struct Room {
    pub(crate) answers: usize,
    pub(crate) ways: usize,
    pub(crate) marks: usize,
    pub(crate) queue: usize,
}

impl Room {
    // Whether they are long enough for k answers and n junctions.
    pub(crate) fn serves(self, k: usize, n: usize) -> bool
        ensures { result ≡ (nat_le k self.answers && nat_le n self.ways && nat_le n self.marks && nat_le n self.queue) }
    {
        k <= self.answers && n <= self.ways && n <= self.marks && n <= self.queue
    }
}

// The start reading, where nothing is refused, on a board with so many sites.
pub(crate) fn admit<G: Guide>(
    guide: &G,
    sites: u32,
    question: Question,
    room: Room,
) -> Result<G::Reading, AskFault>
    ensures { Admission (G.Network.height guide.now) (guidance (G.Network.roads guide.now) (G.guess guide.now)) sites (asking_of question room.answers room.ways room.marks room.queue) result }
{
    let junctions = guide.junctions();
    if question.junction >= junctions {
        return Err(AskFault::Junction);
    }
    let start = guide.start(question.number).ok_or(AskFault::Start)?;
    if question.k < 1 || question.k > MOST_ASKED {
        return Err(AskFault::Number);
    }
    if sites != guide.sites() {
        return Err(AskFault::Sites);
    }
    if !room.serves(question.k as usize, junctions as usize) {
        return Err(AskFault::Room);
    }
    Ok(start)
}
