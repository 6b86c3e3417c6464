// Loadings of an index, right ones and changed ones.
use crate::beside::{is_clock, told_refusal};
use crate::index::changes::{change_entries, change_shape};
use crate::index::laid_rows::is_wide;
use crate::index::lists::{any_work, copy_of, index_tables};
use crate::plain::{
    Depot, Index, LoadRefusal, Refused, early_refusal, first_difference, index_of, travel_times,
};
use crate::seeded::{Bench, Sort, Trouble, damage};
use guided::{GuidedRoads, IndexTables, LoadFault, load};
use network::{Refusal, Returned};

// Whether lists that were loaded are a depot's tables and an index.
pub(crate) fn is_same(tables: &IndexTables, depot: &Depot, index: &Index) -> bool {
    is_clock(depot, &tables.tables)
        && tables.nearest == index.most
        && tables.segments.as_slice() == index.segments.as_slice()
        && tables.sites.as_slice() == index.sites.as_slice()
        && tables.times.as_slice() == index.times.as_slice()
}

fn told(fault: LoadFault) -> LoadRefusal {
    LoadRefusal {
        of_tables: matches!(fault, LoadFault::Tables(_)),
        refused: told_refusal(Refusal::from(fault)),
    }
}

fn refused_of(refusal: Option<LoadRefusal>) -> Option<Refused> {
    Some(refusal?.refused)
}

// Whether an entry of a wide index is named, in a segment after the first.
fn is_late(depot: &Depot, refusal: LoadRefusal) -> bool {
    let [segment, _, _] = refusal.refused.places;
    refusal.refused.number == 11 && segment != Some(0) && is_wide(depot)
}

// By number and places; and where both are refused, whether that is marked as the tables' fault.
fn compare_refusal(
    bench: &mut Bench,
    depot: &Depot,
    expected: Option<LoadRefusal>,
    answer: Option<LoadRefusal>,
) -> Result<(), Trouble> {
    bench.same_refusal(Sort::Loadings, refused_of(expected), refused_of(answer))?;
    let Some(refusal) = expected else {
        return Ok(());
    };
    if is_late(depot, refusal) {
        bench.same(Sort::LateFaults, expected == answer)?;
    }
    bench.same(Sort::Marked, expected == answer)
}

// One loading; guided roads, where it is not refused.
pub(crate) fn compare_loading(
    bench: &mut Bench,
    depot: &Depot,
    index: &Index,
    work: u32,
    expected: Option<LoadRefusal>,
) -> Result<Option<GuidedRoads>, Trouble> {
    let mut slots = any_work(bench, work)?;
    match load(index_tables(depot, index)?, slots.as_mut_slice()) {
        Ok(roads) => {
            compare_refusal(bench, depot, expected, None)?;
            Ok(Some(roads))
        }
        Err(Returned { fault, value }) => {
            compare_refusal(bench, depot, expected, Some(told(fault)))?;
            bench.same(Sort::LoadedBack, is_same(&value, depot, index))?;
            Ok(None)
        }
    }
}

// The roads give everything back that they were loaded from.
pub(crate) fn compare_back(
    bench: &mut Bench,
    roads: GuidedRoads,
    depot: &Depot,
    index: &Index,
) -> Result<(), Trouble> {
    let tables = IndexTables::from(roads);
    bench.same(Sort::LoadedBack, is_same(&tables, depot, index))
}

// A work list that is long enough, and now and then one slot too short.
pub(crate) fn enough_work(bench: &mut Bench, depot: &Depot, most: u32) -> u32 {
    let needed = depot.junctions().saturating_mul(most.min(9));
    match bench.random.below(16) {
        0 => needed.saturating_sub(1),
        1 => needed.saturating_add(3),
        _ => needed,
    }
}

// What is refused of lists of which nothing is known yet: the right index is computed where nothing else is.
fn refusal_anew(
    bench: &Bench,
    depot: &Depot,
    index: &Index,
    work: u32,
) -> Result<Option<LoadRefusal>, Trouble> {
    if let Some(refusal) = early_refusal(depot, index, work as usize) {
        return Ok(Some(refusal));
    }
    let times = travel_times(bench.heap, depot, &index.segments)?;
    let right = index_of(bench.heap, depot, &index.segments, &times, index.most)?;
    Ok(first_difference(depot.junctions(), index, &right))
}

// One loading with its refusal, and everything back.
fn load_and_back(
    bench: &mut Bench,
    depot: &Depot,
    index: &Index,
    work: u32,
    expected: Option<LoadRefusal>,
) -> Result<(), Trouble> {
    match compare_loading(bench, depot, index, work, expected)? {
        Some(roads) => compare_back(bench, roads, depot, index),
        None => Ok(()),
    }
}

// Entries are changed in an index that is right for the depot.
pub(crate) fn compare_changed_entries(
    bench: &mut Bench,
    depot: &Depot,
    right: &Index,
) -> Result<(), Trouble> {
    let mut index = copy_of(right)?;
    change_entries(&mut bench.random, &mut index);
    let work = enough_work(bench, depot, index.most);
    let early = early_refusal(depot, &index, work as usize);
    let expected = early.or(first_difference(depot.junctions(), &index, right));
    load_and_back(bench, depot, &index, work, expected)
}

// The shape of an index is changed, and perhaps entries of it.
pub(crate) fn compare_changed_shape(
    bench: &mut Bench,
    depot: &Depot,
    right: &Index,
) -> Result<(), Trouble> {
    let mut index = copy_of(right)?;
    for _ in 0..bench.random.between(1, 2) {
        change_shape(&mut bench.random, &mut index)?;
    }
    if bench.random.once_in(3) {
        change_entries(&mut bench.random, &mut index);
    }
    let work = enough_work(bench, depot, index.most);
    let expected = refusal_anew(bench, depot, &index, work)?;
    load_and_back(bench, depot, &index, work, expected)
}

// The tables are damaged, and perhaps the index too; a depot stays damaged.
pub(crate) fn compare_damaged(
    bench: &mut Bench,
    depot: &mut Depot,
    right: &Index,
) -> Result<(), Trouble> {
    let mut index = copy_of(right)?;
    damage(&mut bench.random, depot)?;
    if bench.random.once_in(3) {
        change_shape(&mut bench.random, &mut index)?;
    }
    let work = enough_work(bench, depot, index.most);
    let expected = refusal_anew(bench, depot, &index, work)?;
    load_and_back(bench, depot, &index, work, expected)
}
