// Tracings of the library beside plain ones.
use crate::beside::{Told, front, told_fault};
use crate::plain::{Drive, Far, Question, Roads, at, drive_plainly};
use crate::seeded::{Bench, Sort, Trouble, any_below, any_start};
use network::Network;
use std::alloc::AllocError;
use tracing::trace;

const NO_WAY: u32 = 65_535;

// One tracing, by the ways; the reading that arrives, where it is not refused.
fn compare_tracing<N: Network>(
    bench: &mut Bench,
    network: &N,
    roads: &Roads,
    drive: Drive,
    ways: &[u32],
    arcs: &mut [u32],
) -> Result<Option<Far>, Trouble>
where
    N::Reading: Told,
{
    let mut expected = arcs.to_vec(bench.heap)?;
    let lent = front(arcs, drive.arcs);
    let result = trace(network, drive.from, drive.number, drive.to, ways, lent);
    let plain = drive_plainly(bench.heap, roads, drive, ways)?;
    let said = told_fault(result.err());
    let refused = plain.arrived.err();
    bench.same_refusal(Sort::Traced, refused, said)?;
    let (Ok(traced), Ok(arrived)) = (result, plain.arrived) else {
        bench.same(Sort::Arcs, &*arcs == expected.as_slice())?;
        return Ok(None);
    };
    let count = traced.count as usize;
    let same = count == plain.arcs.len() && traced.reading.told() == arrived;
    bench.same(Sort::Drives, same)?;
    for (there, arc) in expected.iter_mut().zip(plain.arcs.iter()) {
        *there = *arc;
    }
    bench.same(Sort::Arcs, &*arcs == expected.as_slice())?;
    Ok(Some(arrived))
}

fn any_drive(bench: &mut Bench, roads: &Roads) -> Drive {
    let n = roads.depot.junctions();
    let needed = n.saturating_sub(1);
    Drive {
        from: any_below(&mut bench.random, n),
        number: any_start(&mut bench.random, roads),
        to: any_below(&mut bench.random, n),
        arcs: if bench.random.once_in(20) {
            needed.saturating_sub(1)
        } else {
            needed.saturating_add(bench.random.below(3))
        },
    }
}

// An arc into the junction, the first from some arc on; none where none is there.
fn arc_into(bench: &mut Bench, roads: &Roads, junction: u32) -> u32 {
    let arcs = roads.depot.arcs();
    let from = bench.random.below(arcs);
    for arc in (from..arcs).chain(0..from) {
        if at(&roads.depot.heads, arc) == junction {
            return arc;
        }
    }
    NO_WAY
}

// Ways at random: most by arcs into their junctions, which may lead in a circle.
fn any_ways(bench: &mut Bench, roads: &Roads) -> Result<Vec<u32>, AllocError> {
    let mut ways = Vec::new(bench.heap);
    for junction in 0..roads.depot.junctions() {
        let way = match bench.random.below(24) {
            0 => NO_WAY,
            1 => bench.random.word(),
            2 => any_below(&mut bench.random, roads.depot.arcs()),
            _ => arc_into(bench, roads, junction),
        };
        ways.push(way)?;
    }
    Ok(ways)
}

// Ways that no asking left.
pub(crate) fn compare_by_any_ways<N: Network>(
    bench: &mut Bench,
    network: &N,
    roads: &Roads,
    arcs: &mut [u32],
) -> Result<(), Trouble>
where
    N::Reading: Told,
{
    if roads.depot.is_large() {
        return Ok(());
    }
    let mut ways = any_ways(bench, roads)?;
    if bench.random.once_in(20) {
        let _ = ways.pop();
    }
    for _ in 0..3 {
        let drive = any_drive(bench, roads);
        compare_tracing(bench, network, roads, drive, &ways, arcs)?;
    }
    Ok(())
}

// The ways that an asking left, from where it began; arcs may be closed since.
pub(crate) fn compare_by_asking<N: Network>(
    bench: &mut Bench,
    network: &N,
    roads: &Roads,
    question: Question,
    ways: &[u32],
    arcs: &mut [u32],
) -> Result<(), Trouble>
where
    N::Reading: Told,
{
    let drives = if roads.depot.is_large() { 4 } else { 16 };
    for _ in 0..drives {
        let mut drive = any_drive(bench, roads);
        drive.from = question.junction;
        drive.number = question.number;
        compare_tracing(bench, network, roads, drive, ways, arcs)?;
    }
    Ok(())
}

// The site that is listed first arrives, by the ways, with its reading.
pub(crate) fn compare_listed<N: Network>(
    bench: &mut Bench,
    network: &N,
    roads: &Roads,
    question: Question,
    ways: &[u32],
    arcs: &mut [u32],
    listed: (u32, Far),
) -> Result<(), Trouble>
where
    N::Reading: Told,
{
    let (site, reading) = listed;
    let drive = Drive {
        from: question.junction,
        number: question.number,
        to: at(&roads.depot.sites, site),
        arcs: roads.depot.junctions(),
    };
    let arrived = compare_tracing(bench, network, roads, drive, ways, arcs)?;
    bench.same(Sort::ListedDrives, arrived == Some(reading))
}
