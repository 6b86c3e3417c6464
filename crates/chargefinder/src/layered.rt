// The roads that commands are answered on: closures over detours over the kind chosen, and the ways known on them.
use crate::screen::Screen;
use clock::ClockRoads;
use console::{Kind, clock_tables, length_tables};
use depot::Depot;
use guided::GuidedRoads;
use layers::{Closures, Detours};
use length::LengthRoads;
use network::{Refusal, Returned};
use opening::guided_roads;

// What stands for no way.
const NO_WAY: u32 = 65_535;

pub type Piled<N> = Closures<Detours<N>>;

#[derive(Drop)]
pub enum Layered {
    Clock(Piled<ClockRoads>),
    Guided(Piled<GuidedRoads>),
    Length(Piled<LengthRoads>),
}

impl Layered {
    // A row of the index, which guided roads alone have.
    pub(crate) fn index_row(&self, segment: u32, junction: u32) -> Option<(&[u32], &[u32])> {
        match self {
            Layered::Guided(roads) => roads.below.below.index_row(segment, junction),
            _ => None,
        }
    }
}

// Roads, and the way of each junction that the last asking left.
#[derive(Drop)]
pub struct Opened {
    pub roads: Layered,
    pub ways: Vec<u32>,
}

// Says which roads are open, or what they are refused by.
pub(crate) fn open_roads(
    screen: Screen,
    depot: &Depot,
    kind: Kind,
) -> anyhow::Result<Option<Opened>> {
    let rt = screen.rt;
    match layered_roads(rt, depot, kind)? {
        Ok(roads) => {
            println!(rt; "roads {kind}")?;
            // Before any asking no junction has a way.
            let junctions = depot.arc_starts.len().saturating_sub(1);
            let ways = vec![in rt.alloc(); NO_WAY; junctions]?;
            Ok(Some(Opened { roads, ways }))
        }
        Err(refusal) => {
            screen.refusal(refusal)?;
            Ok(None)
        }
    }
}

fn layered_roads(
    rt: &HostRuntime,
    depot: &Depot,
    kind: Kind,
) -> anyhow::Result<Result<Layered, Refusal>> {
    Ok(match kind {
        Kind::Clock => ClockRoads::try_from(clock_tables(depot)?)
            .map(|roads| Layered::Clock(layers_over(roads)))
            .map_err(refusal_of),
        Kind::Guided => {
            guided_roads(rt.alloc(), depot)?
                .map(|roads| Layered::Guided(layers_over(roads)))
                .map_err(Refusal::from)
        }
        Kind::Length => LengthRoads::try_from(length_tables(depot)?)
            .map(|roads| Layered::Length(layers_over(roads)))
            .map_err(refusal_of),
    })
}

// With no arc closed and no detour.
fn layers_over<R>(roads: R) -> Piled<R> {
    Closures::over(Detours::over(roads))
}

fn refusal_of<T: Drop, F: Into<Refusal>>(returned: Returned<T, F>) -> Refusal {
    let Returned { fault, value: _ } = returned;
    fault.into()
}
