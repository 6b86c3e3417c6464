// Layings of an index beside the plain one.
use crate::beside::refused_by;
use crate::index::laid_rows::{compare_rows, is_wide};
use crate::index::lists::{any_list, any_work, copy_of};
use crate::plain::{
    Depot, Index, IndexRoom, PlainlyLaid, Refused, at, count, cuts_the_day, lay_plainly,
    laying_refusal, travel_times,
};
use crate::seeded::{Bench, Random, Sort, Trouble};
use clock::ClockRoads;
use laying::lay;
use std::alloc::AllocError;

// A call that lays: the index is what it is lent, and how long the work list is.
#[derive(Drop)]
struct Laying {
    index: Index,
    work: u32,
}

// A length, or now and then one more or one fewer.
fn near(bench: &mut Bench, length: u32) -> u32 {
    match bench.random.below(24) {
        0 => length.saturating_add(1),
        1 => length.saturating_sub(1),
        _ => length,
    }
}

// How many sites stand where one of them does.
fn any_crowd(random: &mut Random, depot: &Depot) -> u32 {
    let site = random.below(depot.site_count());
    let junction = at(&depot.sites, site);
    count(
        depot
            .sites
            .iter()
            .filter(|place| **place == junction)
            .count(),
    )
}

// How many entries a row has: often as many as sites stand together, or one fewer or more.
pub(crate) fn any_most(random: &mut Random, depot: &Depot) -> u32 {
    if random.once_in(3) {
        let near = any_crowd(random, depot).saturating_add(random.below(3));
        return near.saturating_sub(1).clamp(1, 8);
    }
    random.between(1, 8)
}

fn any_laying(bench: &mut Bench, depot: &Depot, segments: &[u32]) -> Result<Laying, AllocError> {
    let most = if bench.random.once_in(12) {
        bench.random.one_of(&[0, 9, u32::MAX])
    } else {
        any_most(&mut bench.random, depot)
    };
    let row = depot.junctions().saturating_mul(most.min(9));
    let all = row.saturating_mul(count(segments.len()));
    let sites = near(bench, all);
    let times = near(bench, all);
    let more = bench.random.below(3);
    Ok(Laying {
        index: Index {
            segments: Vec::from_slice(bench.heap, segments)?,
            most,
            sites: any_list(bench, sites)?,
            times: any_list(bench, times)?,
        },
        work: near(bench, row.saturating_add(more)),
    })
}

// What is refused of a laying by the rules.
fn refusal_of(laying: &Laying, junctions: u32) -> Option<Refused> {
    let index = &laying.index;
    let room = IndexRoom {
        sites: index.sites.len(),
        times: index.times.len(),
        work: laying.work as usize,
    };
    laying_refusal(junctions, &index.segments, index.most, room)
}

// What the lists ought to hold after: what they held, or the index.
fn expected_lists(
    bench: &Bench,
    depot: &Depot,
    times: &[Vec<u32>],
    lent: &Index,
    refused: bool,
) -> Result<PlainlyLaid, AllocError> {
    if !refused {
        return lay_plainly(bench.heap, depot, &lent.segments, times, lent.most);
    }
    Ok(PlainlyLaid {
        index: copy_of(lent)?,
        cut: Vec::new(bench.heap),
    })
}

// What the lists hold after a laying, and row by row where it is not refused.
fn compare_laid(
    bench: &mut Bench,
    depot: &Depot,
    laid: &Index,
    expected: &PlainlyLaid,
    refused: bool,
) -> Result<(), Trouble> {
    let same_sites = laid.sites.as_slice() == expected.index.sites.as_slice();
    let same_times = laid.times.as_slice() == expected.index.times.as_slice();
    bench.same(Sort::Laid, same_sites)?;
    bench.same(Sort::Laid, same_times)?;
    if refused {
        return Ok(());
    }
    if is_wide(depot) {
        bench.same(Sort::WideLaid, same_sites && same_times)?;
    }
    compare_rows(bench, depot, laid, expected)
}

// One laying, with its lists after it.
pub(crate) fn compare_laying(
    bench: &mut Bench,
    roads: &ClockRoads,
    depot: &Depot,
    segments: &[u32],
    times: &[Vec<u32>],
) -> Result<(), Trouble> {
    let mut laying = any_laying(bench, depot, segments)?;
    let refused = refusal_of(&laying, depot.junctions());
    let expected = expected_lists(bench, depot, times, &laying.index, refused.is_some())?;
    let mut work = any_work(bench, laying.work)?;
    let answer = refused_by(lay(
        roads,
        segments,
        laying.index.most,
        laying.index.sites.as_mut_slice(),
        laying.index.times.as_mut_slice(),
        work.as_mut_slice(),
    ));
    bench.same_refusal(Sort::Layings, refused, answer)?;
    compare_laid(bench, depot, &laying.index, &expected, refused.is_some())
}

// Over segments that may cut no day.
pub(crate) fn compare_laying_anew(
    bench: &mut Bench,
    roads: &ClockRoads,
    depot: &Depot,
    segments: &[u32],
) -> Result<(), Trouble> {
    let times = if cuts_the_day(segments) {
        travel_times(bench.heap, depot, segments)?
    } else {
        Vec::new(bench.heap)
    };
    compare_laying(bench, roads, depot, segments, &times)
}
