// Laying the index over the grid's roads, and loading it.
use crate::asking::slots;
use crate::sizes::Sizes;
use crate::sums::Sum;
use crate::timing::Timing;
use clock::{ClockRoads, ClockTables};
use guided::{GuidedRoads, IndexTables, load};
use laying::lay;
use network::Network;
use queue::{Key, Slot};

pub(crate) const SEGMENTS: [u32; 8] = [0, 21_600, 32_400, 57_600, 68_400, 72_000, 75_600, 79_200];

pub(crate) const MOST_NEAREST: u32 = 8;

// The tables with their index, and the work list.
pub(crate) fn lay_index(
    rt: &HostRuntime,
    roads: ClockRoads,
    sizes: Sizes,
) -> anyhow::Result<(IndexTables, Vec<Slot<Key>>)> {
    let heap = rt.alloc();
    let segments = &SEGMENTS[..sizes.segments];
    let rows = roads.junctions() as usize * sizes.nearest as usize;
    let entries = rows * segments.len();
    let mut sites = vec![in heap; 0u32; entries]?;
    let mut times = vec![in heap; 0u32; entries]?;
    let mut work = slots(heap, rows)?;
    let timing = Timing::begun(rt)?;
    let laid = lay(
        &roads,
        segments,
        sizes.nearest,
        sites.as_mut_slice(),
        times.as_mut_slice(),
        work.as_mut_slice(),
    );
    timing.show(rt, "lay")?;
    if laid.is_err() {
        anyhow::bail!("laying is refused")
    }
    show_index(rt, &sites, &times)?;
    let index = IndexTables {
        tables: ClockTables::from(roads),
        segments: segments.to_vec(heap)?,
        nearest: sizes.nearest,
        sites,
        times,
    };
    Ok((index, work))
}

fn show_index(rt: &HostRuntime, sites: &[u32], times: &[u32]) -> anyhow::Result<()> {
    let entries = sites.len();
    let sites = Sum::of(sites).value();
    let times = Sum::of(times).value();
    Ok(println!(rt; "lay entries {entries} sites {sites} times {times}")?)
}

pub(crate) fn load_index(
    rt: &HostRuntime,
    index: IndexTables,
    work: &mut [Slot<Key>],
) -> anyhow::Result<GuidedRoads> {
    let timing = Timing::begun(rt)?;
    let loaded = load(index, work);
    timing.show(rt, "load")?;
    let Ok(roads) = loaded else {
        anyhow::bail!("loading is refused")
    };
    println!(rt; "load accepted")?;
    Ok(roads)
}
