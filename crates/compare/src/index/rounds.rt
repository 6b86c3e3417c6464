// One round: a depot and a day of its own, and all that is compared on them.
use crate::beside::clock_tables;
use crate::index::guiding::compare_guided;
use crate::index::layings::{any_most, compare_laying, compare_laying_anew};
use crate::index::least_times::{compare_day, compare_times};
use crate::index::loadings::{
    compare_back, compare_changed_entries, compare_changed_shape, compare_damaged, compare_loading,
};
use crate::plain::{Depot, Index, index_of, travel_times};
use crate::seeded::{Bench, Shape, Sort, Trouble, any_day, damage_day, make_depot};
use clock::ClockRoads;
use network::Returned;

// The clock roads of a good depot.
fn open(bench: &mut Bench, depot: &Depot) -> Result<ClockRoads, Trouble> {
    match ClockRoads::try_from(clock_tables(depot)?) {
        Ok(roads) => {
            bench.same(Sort::Sound, true)?;
            Ok(roads)
        }
        Err(Returned { fault: _, value: _ }) => Err(Trouble::Differs(Sort::Sound)),
    }
}

// A day that may be none, and layings over it.
fn compare_damaged_day(
    bench: &mut Bench,
    roads: &ClockRoads,
    depot: &Depot,
    firsts: &[u32],
) -> Result<(), Trouble> {
    for round in 0..4 {
        let mut damaged = Vec::from_slice(bench.heap, firsts)?;
        damage_day(&mut bench.random, &mut damaged)?;
        let _ = compare_day(bench, &damaged)?;
        if round == 0 {
            compare_laying_anew(bench, roads, depot, &damaged)?;
        }
    }
    Ok(())
}

// Right indexes are loaded and asked over, and changed ones are loaded.
fn compare_loadings(
    bench: &mut Bench,
    depot: &mut Depot,
    firsts: &[u32],
    times: &[Vec<u32>],
) -> Result<(), Trouble> {
    let most = any_most(&mut bench.random, depot);
    let right = index_of(bench.heap, depot, firsts, times, most)?;
    compare_right(bench, depot, &right)?;
    for _ in 0..6 {
        compare_changed_entries(bench, depot, &right)?;
    }
    for _ in 0..2 {
        compare_changed_shape(bench, depot, &right)?;
    }
    for _ in 0..2 {
        compare_damaged(bench, depot, &right)?;
    }
    Ok(())
}

fn compare_right(bench: &mut Bench, depot: &Depot, right: &Index) -> Result<(), Trouble> {
    let work = depot.junctions().saturating_mul(right.most);
    let Some(guide) = compare_loading(bench, depot, right, work, None)? else {
        return Ok(());
    };
    let guide = compare_guided(bench, guide, depot, right)?;
    compare_back(bench, guide, depot, right)
}

pub(crate) fn compare_round(bench: &mut Bench) -> Result<(), Trouble> {
    let shape = if bench.random.once_in(2) {
        Shape::small(&mut bench.random)
    } else {
        Shape::alike(&mut bench.random)
    };
    let mut depot = make_depot(bench.heap, &mut bench.random, shape)?;
    let firsts = any_day(bench.heap, &mut bench.random, &depot)?;
    let roads = open(bench, &depot)?;
    let times = travel_times(bench.heap, &depot, &firsts)?;
    if let Some(day) = compare_day(bench, &firsts)? {
        compare_times(bench, &roads, &day, &times, depot.arcs())?;
    }
    for _ in 0..4 {
        compare_laying(bench, &roads, &depot, &firsts, &times)?;
    }
    compare_damaged_day(bench, &roads, &depot, &firsts)?;
    compare_loadings(bench, &mut depot, &firsts, &times)
}
