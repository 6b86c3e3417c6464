// The questions that roads answer, asked of the library and of plain lists.
use crate::beside::told::Told;
use crate::plain::{Far, Roads, count};
use crate::seeded::{Bench, Sort, Trouble, any_below, any_reading, any_start, any_wanted};
use network::{Guide, Network, SiteSet};

fn told<R: Told>(reading: Option<R>) -> Option<Far> {
    Some(reading?.told())
}

// What is there, and how it is joined.
fn ask_of_map<N: Network>(bench: &mut Bench, network: &N, roads: &Roads) -> Result<(), Trouble> {
    let depot = roads.depot;
    let counts = (network.junctions(), network.arcs(), network.sites());
    bench.same(
        Sort::Questions,
        counts == (depot.junctions(), depot.arcs(), depot.site_count()),
    )?;
    for _ in 0..6 {
        let arc = any_below(&mut bench.random, depot.arcs());
        let junction = any_below(&mut bench.random, depot.junctions());
        let site = any_below(&mut bench.random, depot.site_count());
        bench.same(Sort::Questions, network.tail(arc) == roads.tail(arc))?;
        bench.same(Sort::Questions, network.head(arc) == roads.head(arc))?;
        bench.same(Sort::Questions, network.place(site) == roads.place(site))?;
        let next = network.next_arc(junction, arc);
        bench.same(Sort::Questions, next == roads.next_arc(junction, arc))?;
    }
    Ok(())
}

// Two readings, how they are ordered and lengthened, and a start reading.
fn ask_of_readings<N: Guide>(bench: &mut Bench, guide: &N, roads: &Roads) -> Result<(), Trouble>
where
    N::Reading: Told,
{
    let kind = roads.kind;
    let number = any_start(&mut bench.random, roads);
    let start = told(guide.start(number));
    bench.same(Sort::Starts, start == kind.start(number))?;
    let one = any_reading(&mut bench.random, kind);
    let other = any_reading(&mut bench.random, kind);
    let (Some(a), Some(b)) = (N::Reading::made(one), N::Reading::made(other)) else {
        return bench.same(Sort::Ordered, false);
    };
    bench.same(Sort::Ordered, guide.less(a, b) == (one < other))?;
    bench.same(Sort::Ordered, guide.height(a) == kind.height(one))?;
    let units = match bench.random.below(3) {
        0 => bench.random.word(),
        1 => kind.most().saturating_sub(one.far),
        _ => bench.random.between(0, 3_600),
    };
    let longer = told(guide.lengthen(a, units));
    bench.same(Sort::Lengthened, longer == kind.lengthen(one, units))
}

fn ask_to_carry<N: Guide>(bench: &mut Bench, guide: &N, roads: &Roads) -> Result<(), Trouble>
where
    N::Reading: Told,
{
    let arc = any_below(&mut bench.random, roads.depot.arcs());
    let reading = any_reading(&mut bench.random, roads.kind);
    let Some(entered) = N::Reading::made(reading) else {
        return bench.same(Sort::Carried, false);
    };
    let arrived = told(guide.carry(arc, entered));
    bench.same(Sort::Carried, arrived == roads.carry(arc, reading))
}

// The same sites as a set of the library.
fn set_of(wanted: &[bool]) -> SiteSet {
    let mut set = SiteSet::none();
    for (site, is_wanted) in wanted.iter().enumerate() {
        if *is_wanted {
            set.insert(count(site));
        }
    }
    set
}

// A reading, now and then one at the edge of a segment.
fn any_moment(bench: &mut Bench, roads: &Roads) -> Far {
    if roads.index.is_some() && bench.random.once_in(2) {
        let number = any_start(&mut bench.random, roads);
        return roads
            .kind
            .start(number)
            .unwrap_or(Far { far: 0, passed: 0 });
    }
    any_reading(&mut bench.random, roads.kind)
}

fn ask_for_estimate<N: Guide>(bench: &mut Bench, guide: &N, roads: &Roads) -> Result<(), Trouble>
where
    N::Reading: Told,
{
    let junction = any_below(&mut bench.random, roads.depot.junctions());
    let reading = any_moment(bench, roads);
    let wanted = any_wanted(bench.heap, &mut bench.random, roads.depot.site_count())?;
    let Some(entered) = N::Reading::made(reading) else {
        return bench.same(Sort::Estimated, false);
    };
    let estimate = told(guide.estimate(junction, entered, &set_of(&wanted)));
    let expected = roads.estimate(junction, reading, &wanted);
    bench.same(Sort::Estimated, estimate == expected)
}

pub(crate) fn compare_answers<N: Guide>(
    bench: &mut Bench,
    guide: &N,
    roads: &Roads,
) -> Result<(), Trouble>
where
    N::Reading: Told,
{
    ask_of_map(bench, guide, roads)?;
    for _ in 0..8 {
        ask_of_readings(bench, guide, roads)?;
    }
    for _ in 0..30 {
        ask_to_carry(bench, guide, roads)?;
        ask_for_estimate(bench, guide, roads)?;
    }
    Ok(())
}
