// What is refused of a tracing before any way is followed.
ghost use Rattle.tracing.specs.Admitted.{Admission};
ghost use Rattle.tracing.specs.Traces.{tracing};

use network::Network;
use soonest::TraceFault;

// The start reading, where both junctions are there, the number has one and the lists are long enough.
pub(crate) fn admit<N: Network>(
    network: &N,
    from: u32,
    number: u32,
    to: u32,
    ways: usize,
    arcs: usize,
) -> Result<N::Reading, TraceFault>
    ensures { Admission (N.Network.height network.now) (N.Network.roads network.now) (tracing from number to ways arcs) result }
{
    let junctions = network.junctions();
    if from >= junctions || to >= junctions {
        return Err(TraceFault::Junction);
    }
    let start = network.start(number).ok_or(TraceFault::Start)?;
    if ways < junctions as usize || arcs < junctions as usize - 1 {
        return Err(TraceFault::Room);
    }
    Ok(start)
}
