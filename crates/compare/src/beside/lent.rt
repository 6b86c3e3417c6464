// The lists that calls are lent, and what stands in them before and after.
use crate::beside::told::Told;
use crate::plain::{Kind, Listed, Room};
use crate::seeded::{Bench, any_reading};
use finder::{Answer, Mark};
use queue::{Key, Slot};
use std::alloc::{AllocError, Global};

const ANSWERS: u32 = 36;

// More than any asking needs; what is lent is a front of each.
#[derive(Drop)]
pub(crate) struct Lent<R: Drop> {
    pub(crate) answers: Vec<Answer<R>>,
    pub(crate) ways: Vec<u32>,
    pub(crate) marks: Vec<Mark<R>>,
    pub(crate) slots: Vec<Slot<Key>>,
    pub(crate) arcs: Vec<u32>,
}

// The front of a list, of so many entries if there are as many.
pub(crate) fn front<T>(list: &mut [T], length: u32) -> &mut [T] {
    let end = list.len().min(length as usize);
    &mut list[..end]
}

// Numbers at random.
fn any_numbers(bench: &mut Bench, count: u32) -> Result<Vec<u32>, AllocError> {
    let mut numbers = Vec::new(bench.heap);
    for _ in 0..count {
        numbers.push(bench.random.word())?;
    }
    Ok(numbers)
}

// Slots that hold anything.
fn any_slots(bench: &mut Bench, count: u32) -> Result<Vec<Slot<Key>>, AllocError> {
    let mut slots = Vec::new(bench.heap);
    for _ in 0..count {
        let key = Key {
            height: bench.random.next(),
            junction: bench.random.word(),
        };
        slots.push(Slot::new(key))?;
    }
    Ok(slots)
}

fn any_answers<R: Told + Drop>(
    bench: &mut Bench,
    kind: Kind,
) -> Result<Vec<Answer<R>>, AllocError> {
    let mut answers = Vec::new(bench.heap);
    for _ in 0..ANSWERS {
        let site = bench.random.word();
        if let Some(reading) = R::made(any_reading(&mut bench.random, kind)) {
            answers.push(Answer { site, reading })?;
        }
    }
    Ok(answers)
}

fn no_marks<R: Told + Drop>(heap: Global, count: u32) -> Result<Vec<Mark<R>>, AllocError> {
    let mut marks = Vec::new(heap);
    for _ in 0..count {
        marks.push(Mark::new())?;
    }
    Ok(marks)
}

impl<R: Told + Drop> Lent<R> {
    // Four more of each than n junctions need, holding anything.
    pub(crate) fn holding_anything(
        bench: &mut Bench,
        kind: Kind,
        n: u32,
    ) -> Result<Lent<R>, AllocError> {
        let count = n.saturating_add(4);
        Ok(Lent {
            answers: any_answers(bench, kind)?,
            ways: any_numbers(bench, count)?,
            marks: no_marks(bench.heap, count)?,
            slots: any_slots(bench, count)?,
            arcs: any_numbers(bench, count)?,
        })
    }

    pub(crate) fn told_answers(&self, heap: Global) -> Result<Vec<Listed>, AllocError> {
        let mut told = Vec::new(heap);
        for answer in self.answers.iter() {
            told.push(Listed {
                site: answer.site,
                reading: answer.reading.told(),
            })?;
        }
        Ok(told)
    }
}

// A length that is enough, or now and then one too short.
fn any_length(bench: &mut Bench, needed: u32) -> u32 {
    if bench.random.once_in(40) {
        return needed.saturating_sub(1);
    }
    needed.saturating_add(bench.random.below(4))
}

pub(crate) fn any_room(bench: &mut Bench, k: u32, n: u32) -> Room {
    Room {
        answers: any_length(bench, k.min(32)),
        ways: any_length(bench, n),
        marks: any_length(bench, n),
        slots: any_length(bench, n),
    }
}
