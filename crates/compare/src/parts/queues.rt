// The priority queue beside a plain list, with one place for each handle.
use crate::plain::count;
use crate::seeded::{Bench, Random, Sort, Trouble, any_below};
use queue::{Entry, Key, Keyed, Queue, Slot};
use std::alloc::AllocError;

// What waits: a height and a junction, and perhaps a load.
#[derive(Clone, Copy, PartialEq)]
pub(crate) struct Waiter {
    height: u64,
    junction: u32,
    load: u32,
}

// An element of the library's queue, made of a waiter and told as one.
trait Waits: Keyed {
    fn made(waiter: Waiter) -> Self;

    fn told(self) -> Waiter;
}

impl Waits for Key {
    fn made(waiter: Waiter) -> Key {
        Key {
            height: waiter.height,
            junction: waiter.junction,
        }
    }

    fn told(self) -> Waiter {
        Waiter {
            height: self.height,
            junction: self.junction,
            load: 0,
        }
    }
}

impl Waits for Entry<u32> {
    fn made(waiter: Waiter) -> Entry<u32> {
        Entry {
            key: Key::made(waiter),
            load: waiter.load,
        }
    }

    fn told(self) -> Waiter {
        Waiter {
            height: self.key.height,
            junction: self.key.junction,
            load: self.load,
        }
    }
}

fn told<T: Waits>(waiting: Option<T>) -> Option<Waiter> {
    Some(waiting?.told())
}

// What waits under each handle.
#[derive(Drop)]
struct Places {
    places: Vec<Option<Waiter>>,
}

impl Places {
    fn waiting(&self, handle: u32) -> Option<Waiter> {
        *self.places.get(handle as usize)?
    }

    fn write(&mut self, handle: u32, waiter: Option<Waiter>) {
        if let Some(place) = self.places.get_mut(handle as usize) {
            *place = waiter;
        }
    }

    fn count(&self) -> usize {
        self.places.iter().filter(|place| place.is_some()).count()
    }

    // The least height, and of equal heights the first handle.
    fn least(&self) -> Option<Waiter> {
        let mut least: Option<Waiter> = None;
        for waiter in self.places.iter().copied().flatten() {
            if least.is_none_or(|other| waiter.height < other.height) {
                least = Some(waiter);
            }
        }
        least
    }

    fn take_least(&mut self) -> Option<Waiter> {
        let least = self.least()?;
        self.write(least.junction, None);
        Some(least)
    }
}

fn any_waiter(random: &mut Random, handles: u32, loaded: bool) -> Waiter {
    let height = match random.below(4) {
        0 => random.next(),
        1 => u64::from(random.below(3)),
        _ => u64::from(random.below(100)),
    };
    Waiter {
        height,
        junction: any_below(random, handles),
        load: if loaded { random.word() } else { 0 },
    }
}

// One call on both.
fn call_both<T: Waits>(
    bench: &mut Bench,
    queue: &mut Queue<T>,
    places: &mut Places,
    handles: u32,
    loaded: bool,
) -> Result<(), Trouble> {
    let waiter = any_waiter(&mut bench.random, handles, loaded);
    match bench.random.below(6) {
        0 => {
            let taken = told(queue.take_least());
            bench.same(Sort::Taken, taken == places.take_least())?;
        }
        1 => {
            queue.remove(waiter.junction);
            places.write(waiter.junction, None);
        }
        _ => {
            queue.set(T::made(waiter));
            places.write(waiter.junction, Some(waiter));
        }
    }
    let handle = any_below(&mut bench.random, handles);
    let there = told(queue.waiting(handle));
    bench.same(Sort::Waiting, there == places.waiting(handle))?;
    let count = places.count();
    let counted = queue.len() == count && queue.is_empty() == (count == 0);
    bench.same(Sort::Waiting, counted)
}

// A queue over slots that hold anything, filled, changed and emptied.
fn compare_queue<T: Waits>(
    bench: &mut Bench,
    slots: &mut [Slot<T>],
    loaded: bool,
) -> Result<(), Trouble> {
    let handles = count(slots.len());
    let mut places = Places {
        places: Vec::from_elem(bench.heap, None, slots.len())?,
    };
    let mut queue = Queue::new(slots);
    bench.same(
        Sort::Waiting,
        queue.capacity() == handles as usize && queue.is_empty(),
    )?;
    for _ in 0..bench.random.one_of(&[3, 20, 120]) {
        call_both(bench, &mut queue, &mut places, handles, loaded)?;
    }
    for _ in 0..=places.count() {
        let taken = told(queue.take_least());
        bench.same(Sort::Taken, taken == places.take_least())?;
    }
    Ok(())
}

fn any_slots<T: Waits>(bench: &mut Bench, handles: u32) -> Result<Vec<Slot<T>>, AllocError> {
    let mut slots = Vec::new(bench.heap);
    for _ in 0..handles {
        let waiter = any_waiter(&mut bench.random, handles, true);
        slots.push(Slot::new(T::made(waiter)))?;
    }
    Ok(slots)
}

// Twice over the same slots, with what the first queue left in them.
fn compare_twice<T: Waits>(bench: &mut Bench, loaded: bool) -> Result<(), Trouble> {
    let handles = bench.random.one_of(&[0, 1, 2, 3, 7, 16, 60]);
    let mut slots = any_slots::<T>(bench, handles)?;
    compare_queue(bench, slots.as_mut_slice(), loaded)?;
    compare_queue(bench, slots.as_mut_slice(), loaded)
}

pub(crate) fn compare_queues(bench: &mut Bench) -> Result<(), Trouble> {
    compare_twice::<Key>(bench, false)?;
    compare_twice::<Entry<u32>>(bench, true)
}
