// One round: a depot of its own, and all that is compared on it.
use crate::beside::{Lent, Told, change_pile, is_clock, is_length, pile_over, uncovered};
use crate::plain::{Depot, Kind, Roads, Strata};
use crate::scenes::compare_scene;
use crate::seeded::{Bench, Shape, Sort, Trouble, make_depot};
use crate::tables::{examine_clock, examine_damaged, examine_length};
use clock::ClockTables;
use length::LengthTables;
use network::Guide;

// The plain roads, with no index.
fn plain_roads<'a>(kind: Kind, depot: &'a Depot, strata: &'a Strata) -> Roads<'a> {
    Roads {
        kind,
        depot,
        strata,
        index: None,
    }
}

// All that is compared on roads that were opened, bare and below layers; the roads come back.
fn compare_roads<N: Guide + Drop>(
    bench: &mut Bench,
    guide: N,
    depot: &Depot,
    kind: Kind,
) -> Result<N, Trouble>
where
    N::Reading: Told + Drop,
{
    let mut strata = Strata::empty(bench.heap);
    let bare = plain_roads(kind, depot, &strata);
    let mut lent = Lent::holding_anything(bench, kind, depot.junctions())?;
    let mut answered = compare_scene(bench, &guide, &bare, &mut lent, None)?;
    let mut pile = pile_over(guide);
    for _ in 0..3 {
        change_pile(bench, &mut pile, &mut strata, depot.arcs())?;
        let roads = plain_roads(kind, depot, &strata);
        answered = compare_scene(bench, &pile, &roads, &mut lent, answered)?;
    }
    Ok(uncovered(pile))
}

fn compare_kinds(bench: &mut Bench, depot: &Depot) -> Result<(), Trouble> {
    if let Some(guide) = examine_clock(bench, depot, Sort::Sound)? {
        let tables = ClockTables::from(compare_roads(bench, guide, depot, Kind::Clock)?);
        bench.same(Sort::GivenBack, is_clock(depot, &tables))?;
    }
    if let Some(guide) = examine_length(bench, depot, Sort::Sound)? {
        let tables = LengthTables::from(compare_roads(bench, guide, depot, Kind::Length)?);
        bench.same(Sort::GivenBack, is_length(depot, &tables))?;
    }
    Ok(())
}

// Each sixty-fourth round is on a large depot.
pub(crate) fn compare_round(bench: &mut Bench, seed: u64) -> Result<(), Trouble> {
    let shape = if seed % 64 == 0 {
        Shape::largest(&mut bench.random)
    } else {
        Shape::random(&mut bench.random)
    };
    let mut depot = make_depot(bench.heap, &mut bench.random, shape)?;
    compare_kinds(bench, &depot)?;
    examine_damaged(bench, &mut depot)
}
