// Texts of depots, read by the library and by the plain rules.
use crate::plain::{Said, Unread, Wrong, at, read_plainly};
use crate::seeded::{Bench, Sort, Trouble, any_text};
use depot::{Depot, LineFault, ReadFault, TextFault, What, read_depot};

fn numbers(lists: &[Vec<u32>], place: usize) -> &[u32] {
    match lists.get(place) {
        Some(list) => list.as_slice(),
        None => &[],
    }
}

// Whether the first lists are those of the streets and of clock roads.
fn has_clock_lists(depot: &Depot, lists: &[Vec<u32>]) -> bool {
    depot.arc_starts.as_slice() == numbers(lists, 0)
        && depot.heads.as_slice() == numbers(lists, 1)
        && depot.point_starts.as_slice() == numbers(lists, 2)
        && depot.departures.as_slice() == numbers(lists, 3)
        && depot.arrivals.as_slice() == numbers(lists, 4)
        && depot.sites.as_slice() == numbers(lists, 5)
}

// Whether the others are the rest; a number that is missing is 0.
fn has_other_lists(depot: &Depot, lists: &[Vec<u32>]) -> bool {
    depot.metres.as_slice() == numbers(lists, 6)
        && depot.segments.as_slice() == numbers(lists, 7)
        && depot.nearest == at(numbers(lists, 8), 0)
        && depot.bays.as_slice() == numbers(lists, 9)
        && depot.board == at(numbers(lists, 10), 0)
}

fn wrong_of(what: What) -> Wrong {
    match what {
        What::UnknownWord => Wrong::NoList,
        What::NotANumber => Wrong::NoNumber,
        What::TooLarge => Wrong::TooLarge,
        What::SecondNumber => Wrong::OneTooMany,
    }
}

fn is_blamed(said: &LineFault, unread: &Unread) -> bool {
    said.line == unread.line as usize
        && said.fault.word.as_slice() == unread.word.as_slice()
        && wrong_of(said.fault.what) == unread.wrong
}

fn compare_read(bench: &mut Bench, depot: &Depot, said: &Said) -> Result<(), Trouble> {
    match said {
        Said::Lists(lists) => {
            let same = has_clock_lists(depot, lists) && has_other_lists(depot, lists);
            bench.same(Sort::TextLists, same)
        }
        Said::Unread(_) => bench.same(Sort::Texts, false),
    }
}

fn compare_fault(bench: &mut Bench, fault: &ReadFault, said: &Said) -> Result<(), Trouble> {
    match (fault, said) {
        (TextFault::Memory, _) => Err(Trouble::NoMemory),
        (TextFault::Wrong(line), Said::Unread(unread)) => {
            bench.same(Sort::Blamed, is_blamed(line, unread))
        }
        (TextFault::Wrong(_), Said::Lists(_)) => bench.same(Sort::Texts, false),
    }
}

pub(crate) fn compare_text(bench: &mut Bench) -> Result<(), Trouble> {
    let text = any_text(bench.heap, &mut bench.random)?;
    let said = read_plainly(bench.heap, &text)?;
    match read_depot(bench.heap, &text) {
        Ok(depot) => compare_read(bench, &depot, &said)?,
        Err(fault) => compare_fault(bench, &fault, &said)?,
    }
    bench.same(Sort::Texts, true)
}
