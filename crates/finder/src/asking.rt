// Asking which free sites are reached soonest.
ghost use Rattle.std.specs.Prelude.{◌≡◌, [], length};
ghost use Rattle.std.specs.Result as results;
ghost use Rattle.board.specs.Calls.{asking};
ghost use Rattle.board.specs.Held.{board_table};
ghost use Rattle.board.specs.Promise.{Throughout, SoonestOr, SoonestAndFreeBaysOverEveryListOfCalls};
ghost use Rattle.board.specs.Tables.{has_free, sites_of};
ghost use Rattle.finder.specs.Askings.{asking_of, outcome, told, Answered, Led, Rests, asking_answer};
ghost use Rattle.finder.specs.Labels.{guidance};
ghost use Rattle.soonest.specs.Asking.{ask_refusal};
ghost use Rattle.soonest.specs.Faults.{ask_fault};

use crate::admission::{Room, admit};
use crate::answers::{Answer, Listing};
use crate::labels::Labels;
use crate::marks::Mark;
use crate::question::Question;
use crate::travel::Origin;
use board::Board;
use network::Guide;
use queue::{Key, Queue, Slot};
use soonest::AskFault;

// The listed sites go into the front of `answers`, and each junction's way, 65535 for none, into the front of `ways`, and
// only when nothing is refused. Marks and slots are scratch.
pub fn ask<G: Guide>(
    guide: &G,
    board: &Board,
    question: Question,
    answers: &mut [Answer<G::Reading>],
    ways: &mut [u32],
    marks: &mut [Mark<G::Reading>],
    slots: &mut [Slot<Key>],
) -> Result<Listing, AskFault>
    ensures result { results.result_map_both (λ l. (l.count, l.steps)) ask_fault result ≡ told (outcome (guidance (G.Network.roads guide.now) (G.guess guide.now)) (board_table board.now) (asking_of question (length answers.old) (length ways.old) (length marks.old) (length slots.old))) }
    ensures answers { Answered (G.Network.height guide.now) (outcome (guidance (G.Network.roads guide.now) (G.guess guide.now)) (board_table board.now) (asking_of question (length answers.old) (length ways.old) (length marks.old) (length slots.old))) answers.old answers.new }
    ensures ways { Led (G.Network.roads guide.now).junctions (outcome (guidance (G.Network.roads guide.now) (G.guess guide.now)) (board_table board.now) (asking_of question (length answers.old) (length ways.old) (length marks.old) (length slots.old))) ways.old ways.new }
    ensures rests { Rests (guidance (G.Network.roads guide.now) (G.guess guide.now)) question.k (outcome (guidance (G.Network.roads guide.now) (G.guess guide.now)) (board_table board.now) (asking_of question (length answers.old) (length ways.old) (length marks.old) (length slots.old))) }
    ensures soonest { SoonestOr (ask_refusal (guidance (G.Network.roads guide.now) (G.guess guide.now)) (sites_of (board_table board.now)) (asking_of question (length answers.old) (length ways.old) (length marks.old) (length slots.old))) (guidance (G.Network.roads guide.now) (G.guess guide.now)) (has_free (board_table board.now)) (asking_of question (length answers.old) (length ways.old) (length marks.old) (length slots.old)) (asking_answer (G.Network.height guide.now) (G.Network.roads guide.now).junctions result answers.new ways.new) }
    ensures throughout { Throughout (board_table board.now) (asking (guidance (G.Network.roads guide.now) (G.guess guide.now)) [] (asking_of question (length answers.old) (length ways.old) (length marks.old) (length slots.old))) (asking_answer (G.Network.height guide.now) (G.Network.roads guide.now).junctions result answers.new ways.new) (board_table board.now) }
    ensures promise { SoonestAndFreeBaysOverEveryListOfCalls }
{
    let room = Room {
        answers: answers.len(),
        ways: ways.len(),
        marks: marks.len(),
        queue: slots.len(),
    };
    let start = admit(guide, board.sites(), question, room)?;
    let n = guide.junctions() as usize;
    let origin = Origin {
        junction: question.junction,
        reading: start,
    };
    let queue = Queue::new(&mut slots[..n]);
    let mut labels = Labels {
        marks: &mut marks[..n],
        queue,
    };
    Ok(labels.travel(
        guide,
        origin,
        board.free_sites(),
        &mut answers[..question.k as usize],
        &mut ways[..n],
    ))
}
