// The ways that the last asking left, and the drives that are traced by them.
use crate::readings::Given;
use crate::screen::Screen;
use network::{Network, Refusal};
use tracing::{Traced, trace};

// From which junction and start number, to which junction.
#[derive(Clone, Copy)]
pub struct Trip {
    pub from: u32,
    pub number: u32,
    pub to: u32,
}

// Each junction's way, 65535 for none.
pub(crate) fn show_ways(rt: &HostRuntime, ways: &[u32]) -> anyhow::Result<()> {
    print!(rt; "ways")?;
    print_numbers(rt, ways)?;
    Ok(println!(rt)?)
}

fn print_numbers(rt: &HostRuntime, numbers: &[u32]) -> anyhow::Result<()> {
    for number in numbers {
        print!(rt; " {number}")?;
    }
    Ok(())
}

// The arcs of a trip in driving order, or why it cannot be traced, on a line that has begun.
pub(crate) fn print_way<N: Network>(
    rt: &HostRuntime,
    network: &N,
    ways: &[u32],
    trip: Trip,
) -> anyhow::Result<()> {
    let mut arcs = vec![in rt.alloc(); 0u32; network.junctions() as usize]?;
    let Trip { from, number, to } = trip;
    match trace(network, from, number, to, ways, arcs.as_mut_slice()) {
        Ok(traced) => print_arcs(rt, arcs.as_slice(), traced.count),
        Err(fault) => {
            let refusal = Refusal::from(fault);
            Ok(print!(rt; " {refusal}")?)
        }
    }
}

fn print_arcs(rt: &HostRuntime, arcs: &[u32], count: u32) -> anyhow::Result<()> {
    print!(rt; " way")?;
    for arc in arcs.iter().take(count as usize) {
        print!(rt; " {arc}")?;
    }
    Ok(())
}

pub(crate) fn show_trace<N: Network>(
    screen: Screen,
    network: &N,
    ways: &[u32],
    trip: Trip,
) -> anyhow::Result<()>
where
    N::Reading: Given,
{
    let rt = screen.rt;
    let mut arcs = vec![in rt.alloc(); 0u32; network.junctions() as usize]?;
    let Trip { from, number, to } = trip;
    match trace(network, from, number, to, ways, arcs.as_mut_slice()) {
        Ok(traced) => {
            let Traced { count, reading } = traced;
            print!(rt; "arcs {count} reading {}", screen.reading(reading))?;
            print_arcs(rt, arcs.as_slice(), count)?;
            Ok(println!(rt)?)
        }
        Err(fault) => screen.refusal(fault),
    }
}
