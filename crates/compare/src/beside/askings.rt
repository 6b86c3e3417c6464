// Askings of the library beside plain ones.
use crate::beside::lent::{Lent, any_room, front};
use crate::beside::told::{Told, told_refusal};
use crate::plain::{
    Asked, Bays, Far, Listed, Question, Refused, Roads, Room, are_soonest, ask_plainly,
    asking_refusal, least_readings,
};
use crate::seeded::{Bench, Sort, Trouble, any_below, any_start};
use board::Board;
use finder::{Listing, ask};
use network::{Guide, Refusal};
use std::alloc::AllocError;

// A question that was answered, and how many sites were listed.
#[derive(Clone, Copy)]
pub(crate) struct Answered {
    pub(crate) question: Question,
    pub(crate) count: u32,
}

// What stands in the lists of answers and of ways.
#[derive(Drop)]
struct Seen {
    answers: Vec<Listed>,
    ways: Vec<u32>,
}

fn any_question(bench: &mut Bench, roads: &Roads) -> Question {
    let k = match bench.random.below(12) {
        0 => bench.random.one_of(&[0, 32, 33, u32::MAX]),
        1 => 32,
        2 | 3 => 1,
        4 | 5 => bench.random.between(1, 32),
        _ => bench.random.between(1, 6),
    };
    Question {
        junction: any_below(&mut bench.random, roads.depot.junctions()),
        number: any_start(&mut bench.random, roads),
        k,
    }
}

// Writes what an asking answers into the fronts of the lists.
fn write_fronts(asked: &Asked, seen: &mut Seen) {
    for (there, one) in seen.answers.iter_mut().zip(asked.listed.iter()) {
        *there = *one;
    }
    for (there, way) in seen.ways.iter_mut().zip(asked.ways.iter()) {
        *there = *way;
    }
}

// The plain asking, and the least readings beside it.
fn compare_listing(
    bench: &mut Bench,
    roads: &Roads,
    bays: &Bays,
    question: Question,
    start: Far,
    listing: Listing,
) -> Result<Asked, Trouble> {
    let free = bays.free(bench.heap)?;
    let plain = ask_plainly(bench.heap, roads, &free, question, start)?;
    let counted = plain.listed.len() == listing.count as usize && plain.steps == listing.steps;
    bench.same(Sort::Listings, counted)?;
    let least = least_readings(bench.heap, roads, question.junction, start)?;
    let soonest = are_soonest(roads, &least, &free, &plain.listed, question.k);
    bench.same(Sort::Soonest, soonest)?;
    Ok(plain)
}

// What the lists hold after an asking, beside what they ought to.
fn compare_lists(bench: &mut Bench, expected: &Seen, now: &Seen) -> Result<(), Trouble> {
    bench.same(
        Sort::Answers,
        now.answers.as_slice() == expected.answers.as_slice(),
    )?;
    bench.same(Sort::Ways, now.ways.as_slice() == expected.ways.as_slice())
}

// What was answered, where it is not refused; `seen` is what stood in the lists before, and then what ought to stand there.
fn compare_answer(
    bench: &mut Bench,
    roads: &Roads,
    bays: &Bays,
    question: Question,
    room: Room,
    answer: Result<Listing, Refused>,
    seen: &mut Seen,
) -> Result<Option<Answered>, Trouble> {
    let refused = asking_refusal(roads, bays.bays.len(), question, room);
    bench.same_refusal(Sort::Asked, refused, answer.err())?;
    let (Ok(listing), Some(start)) = (answer, roads.kind.start(question.number)) else {
        return Ok(None);
    };
    let plain = compare_listing(bench, roads, bays, question, start, listing)?;
    write_fronts(&plain, seen);
    Ok(Some(Answered {
        question,
        count: listing.count,
    }))
}

fn see<R: Told + Drop>(bench: &Bench, lent: &Lent<R>) -> Result<Seen, AllocError> {
    Ok(Seen {
        answers: lent.told_answers(bench.heap)?,
        ways: lent.ways.clone()?,
    })
}

// With the fronts of the lent lists.
fn ask_with<G: Guide>(
    guide: &G,
    board: &Board,
    question: Question,
    room: Room,
    lent: &mut Lent<G::Reading>,
) -> Result<Listing, Refused>
where
    G::Reading: Drop,
{
    let asked = ask(
        guide,
        board,
        finder::Question {
            junction: question.junction,
            number: question.number,
            k: question.k,
        },
        front(&mut lent.answers, room.answers),
        front(&mut lent.ways, room.ways),
        front(&mut lent.marks, room.marks),
        front(&mut lent.slots, room.slots),
    );
    asked.map_err(|fault| told_refusal(Refusal::from(fault)))
}

// One asking; what was answered, where it is not refused.
pub(crate) fn compare_asking<G: Guide>(
    bench: &mut Bench,
    guide: &G,
    roads: &Roads,
    board: &Board,
    bays: &Bays,
    lent: &mut Lent<G::Reading>,
) -> Result<Option<Answered>, Trouble>
where
    G::Reading: Told + Drop,
{
    let question = any_question(bench, roads);
    let room = any_room(bench, question.k, roads.depot.junctions());
    let mut seen = see(bench, lent)?;
    let answer = ask_with(guide, board, question, room, lent);
    let answered = compare_answer(bench, roads, bays, question, room, answer, &mut seen)?;
    let now = see(bench, lent)?;
    compare_lists(bench, &seen, &now)?;
    Ok(answered)
}
