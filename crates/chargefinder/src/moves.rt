// What a van does on roads of any kind, and how their layers change.
use crate::readings::Given;
use crate::screen::Screen;
use console::{carry_from, drive, start_of};
use layers::LayerFault;
use network::Network;

fn show_arrival<R: Given>(screen: Screen, arrival: Option<R>) -> anyhow::Result<()> {
    let rt = screen.rt;
    match arrival {
        Some(reading) => println!(rt; "arrives {}", screen.reading(reading))?,
        None => println!(rt; "nothing")?,
    }
    Ok(())
}

pub(crate) fn show_carry<N: Network>(
    screen: Screen,
    roads: &N,
    arc: u32,
    reading: Option<N::Reading>,
) -> anyhow::Result<()>
where
    N::Reading: Given,
{
    show_arrival(screen, carry_from(roads, arc, reading))
}

pub(crate) fn show_drive<N: Network>(
    screen: Screen,
    roads: &N,
    start: u32,
    arcs: &[u32],
) -> anyhow::Result<()>
where
    N::Reading: Given,
{
    match start_of(roads, start) {
        Ok(reading) => {
            for arrival in drive(screen.rt.alloc(), roads, reading, arcs)?.iter() {
                show_arrival(screen, *arrival)?;
            }
            Ok(())
        }
        Err(fault) => screen.refusal(fault),
    }
}

// What a layer was told, or why it was not changed.
pub(crate) fn show_change(
    screen: Screen,
    done: &str,
    change: Result<(), LayerFault>,
) -> anyhow::Result<()> {
    match change {
        Ok(()) => Ok(println!(screen.rt; "{done}")?),
        Err(fault) => screen.refusal(fault),
    }
}
