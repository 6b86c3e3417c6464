// Guided roads: what they answer, and askings over them, bare and below layers.
use crate::beside::{
    Lent, change_pile, compare_answers, compare_asking, make_board, pile_over, uncovered,
};
use crate::plain::{Depot, Index, Kind, Roads, Strata, count};
use crate::seeded::{Bench, Sort, Trouble, any_below};
use clock::Seconds;
use guided::GuidedRoads;
use network::Guide;

// A row of the index, or that there is none.
fn compare_row(
    bench: &mut Bench,
    guide: &GuidedRoads,
    depot: &Depot,
    index: &Index,
    segment: u32,
    junction: u32,
) -> Result<(), Trouble> {
    let is_there = segment < count(index.segments.len()) && junction < depot.junctions();
    let Some((sites, times)) = guide.index_row(segment, junction) else {
        return bench.same(Sort::Rows, !is_there);
    };
    let first = index.place(depot.junctions(), segment, junction, 0) as usize;
    let end = first.saturating_add(index.most as usize);
    let same = index.sites.get(first..end) == Some(sites)
        && index.times.get(first..end) == Some(times);
    bench.same(Sort::Rows, is_there && same)
}

// What guided roads tell of their index.
fn compare_index(
    bench: &mut Bench,
    guide: &GuidedRoads,
    depot: &Depot,
    index: &Index,
) -> Result<(), Trouble> {
    let told = guide.nearest() == index.most && guide.segments() == index.segments.as_slice();
    bench.same(Sort::Rows, told)?;
    for _ in 0..12 {
        let segment = any_below(&mut bench.random, count(index.segments.len()));
        let junction = any_below(&mut bench.random, depot.junctions());
        compare_row(bench, guide, depot, index, segment, junction)?;
    }
    Ok(())
}

// Some askings on a board, with everything else that the roads answer.
fn compare_askings<G: Guide<Reading = Seconds>>(
    bench: &mut Bench,
    guide: &G,
    roads: &Roads,
    lent: &mut Lent<Seconds>,
) -> Result<(), Trouble> {
    compare_answers(bench, guide, roads)?;
    let number = bench.random.word();
    let Some((board, bays)) = make_board(bench, number, roads.depot.site_count())? else {
        return Ok(());
    };
    for _ in 0..6 {
        let _ = compare_asking(bench, guide, roads, &board, &bays, lent)?;
    }
    Ok(())
}

// Bare, and below layers that change; the roads come back.
pub(crate) fn compare_guided(
    bench: &mut Bench,
    guide: GuidedRoads,
    depot: &Depot,
    index: &Index,
) -> Result<GuidedRoads, Trouble> {
    compare_index(bench, &guide, depot, index)?;
    let mut strata = Strata::empty(bench.heap);
    let mut lent = Lent::holding_anything(bench, Kind::Clock, depot.junctions())?;
    let bare = Roads {
        kind: Kind::Clock,
        depot,
        strata: &strata,
        index: Some(index),
    };
    compare_askings(bench, &guide, &bare, &mut lent)?;
    let mut pile = pile_over(guide);
    for _ in 0..3 {
        change_pile(bench, &mut pile, &mut strata, depot.arcs())?;
        let roads = Roads {
            kind: Kind::Clock,
            depot,
            strata: &strata,
            index: Some(index),
        };
        compare_askings(bench, &pile, &roads, &mut lent)?;
    }
    Ok(uncovered(pile))
}
