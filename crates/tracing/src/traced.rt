// Tracing a drive: the arcs from the start to a junction, by the ways that an asking left, and what arrives by them.
ghost use Rattle.std.specs.Prelude.{◌≡◌, take, IfOk};
ghost use Rattle.soonest.specs.Faults.{trace_fault};
ghost use Rattle.std.specs.Result as results;
ghost use Rattle.tracing.specs.Traces.{traced_by, told, Written, Drives};

use crate::admission::admit;
use crate::drive::drive;
use crate::follow::follow;
use crate::front::put_in_front;
use network::Network;
use soonest::TraceFault;

// How many arcs were traced, and the reading that arrives.
#[derive(Clone, Copy, PartialEq, Eq, Debug)]
pub struct Traced<R> {
    pub count: u32,
    pub reading: R,
}

// The arcs in driving order go into the front of `arcs`, and only when nothing is refused. A way is an arc's number,
// and 65535 where a junction has none.
pub fn trace<N: Network>(
    network: &N,
    from: u32,
    number: u32,
    to: u32,
    ways: &[u32],
    arcs: &mut [u32],
) -> Result<Traced<N::Reading>, TraceFault>
    ensures result { results.result_map_both (λ t. (t.count, N.Network.height network.now t.reading)) trace_fault result ≡ told (traced_by (N.Network.roads network.now) from number to ways.now arcs.old) }
    ensures arcs { Written (traced_by (N.Network.roads network.now) from number to ways.now arcs.old) arcs.old arcs.new }
    ensures path { IfOk result (λ t. Drives (N.Network.roads network.now) from number to (take t.count arcs.new) (N.Network.height network.now t.reading)) }
{
    let start = admit(network, from, number, to, ways.len(), arcs.len())?;
    let trail = follow(network, from, to, ways).ok_or(TraceFault::NoWay)?;
    let reading = drive(network, start, trail.as_slice()).ok_or(TraceFault::Blocked)?;
    put_in_front(arcs, trail.as_slice());
    Ok(Traced {
        count: trail.len() as u32,
        reading,
    })
}
