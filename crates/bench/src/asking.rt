// Asking from every junction, in room that is made once.
use crate::sums::Sum;
use board::Board;
use clock::Seconds;
use finder::{Answer, MOST_ASKED, Mark, Question, ask};
use network::Guide;
use queue::{Key, Slot};
use soonest::AskFault;
use std::alloc::{AllocError, Global};

const START: u32 = 28_800;

const ASKED: u32 = 5;

#[derive(Drop)]
pub(crate) struct Room {
    answers: Vec<Answer<Seconds>>,
    ways: Vec<u32>,
    marks: Vec<Mark<Seconds>>,
    slots: Vec<Slot<Key>>,
}

pub(crate) fn slots(heap: Global, count: usize) -> Result<Vec<Slot<Key>>, AllocError> {
    let nothing = Key {
        height: 0,
        junction: 0,
    };
    vec![in heap; Slot::new(nothing); count]
}

impl Room {
    pub(crate) fn of(heap: Global, junctions: u32, reading: Seconds) -> Result<Room, AllocError> {
        let n = junctions as usize;
        Ok(Room {
            answers: vec![in heap; Answer { site: 0, reading }; MOST_ASKED as usize]?,
            ways: vec![in heap; 0u32; n]?,
            marks: vec![in heap; Mark::new(); n]?,
            slots: slots(heap, n)?,
        })
    }
}

// What all askings list together, and in how many steps.
#[derive(Clone, Copy)]
pub(crate) struct Totals {
    pub(crate) listed: u64,
    pub(crate) steps: u64,
    pub(crate) sites: Sum,
    pub(crate) readings: Sum,
}

impl Totals {
    fn empty() -> Totals {
        Totals {
            listed: 0,
            steps: 0,
            sites: Sum::empty(),
            readings: Sum::empty(),
        }
    }

    fn add(&mut self, answers: &[Answer<Seconds>], steps: u64) {
        self.steps = self.steps.wrapping_add(steps);
        for answer in answers {
            self.listed = self.listed.wrapping_add(1);
            self.sites.add(answer.site);
            self.readings.add(answer.reading.value());
        }
    }
}

pub(crate) fn ask_from_all<G: Guide<Reading = Seconds>>(
    guide: &G,
    board: &Board,
    room: &mut Room,
) -> Result<Totals, AskFault> {
    let mut totals = Totals::empty();
    for junction in 0..guide.junctions() {
        let question = Question {
            junction,
            number: START,
            k: ASKED,
        };
        let listing = ask(
            guide,
            board,
            question,
            room.answers.as_mut_slice(),
            room.ways.as_mut_slice(),
            room.marks.as_mut_slice(),
            room.slots.as_mut_slice(),
        )?;
        let listed = (listing.count as usize).min(room.answers.len());
        totals.add(&room.answers[..listed], listing.steps);
    }
    Ok(totals)
}
