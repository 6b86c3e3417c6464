// A drive along one arc after another.
ghost use Rattle.std.specs.Prelude.{◌≡◌, map, IfOk};
ghost use Rattle.console.specs.Drives.{driven, start_fault};
ghost use Rattle.network.specs.First.{onward};
ghost use Rattle.std.specs.Option.{option_map, ok_or};
ghost use Rattle.std.specs.Result as results;

use crate::faults::StartFault;
use network::Network;
use std::alloc::{AllocError, Global};

// The reading at the end of each arc in turn; nothing where an arc does not carry, and no more after it.
pub fn drive<N: Network>(
    heap: Global,
    network: &N,
    start: N::Reading,
    arcs: &[u32],
) -> Result<Vec<Option<N::Reading>>, AllocError>
    ensures { IfOk result (λ v. map (option_map (N.Network.height network.now)) v.items ≡ driven (N.Network.roads network.now) (N.Network.height network.now start) arcs.now) }
{
    let mut arrivals = Vec::new(heap);
    let mut reading = start;
    for arc in arcs {
        let arrival = network.carry(*arc, reading);
        arrivals.push(arrival)?;
        let Some(next) = arrival else {
            return Ok(arrivals);
        };
        reading = next;
    }
    Ok(arrivals)
}

// The start reading of a number, refused where it has none.
pub fn start_of<N: Network>(network: &N, number: u32) -> Result<N::Reading, StartFault>
    ensures { results.result_map_both (N.Network.height network.now) (λ _. start_fault) result ≡ ok_or ((N.Network.roads network.now).start number) start_fault }
{
    network.start(number).ok_or(StartFault)
}

// An impossible reading is carried to nothing.
pub fn carry_from<N: Network>(
    network: &N,
    arc: u32,
    reading: Option<N::Reading>,
) -> Option<N::Reading>
    ensures { option_map (N.Network.height network.now) result ≡ onward (option_map (N.Network.height network.now) reading) ((N.Network.roads network.now).carry arc) }
{
    network.carry(arc, reading?)
}
