// The depot that is built in, and the worked examples on it.
#![tactic(auto)]

ghost use Rattle.std.specs.Prelude.{◌≡◌, IfOk};
ghost use Rattle.depot.specs.Reads.{seen};
ghost use Rattle.town.specs.Examples.{WorkedExamples};
ghost use Rattle.town.specs.FourJunctions.{four_junctions, four_with};

use depot::Depot;
use std::alloc::{AllocError, Global};

fn four_with(heap: Global, nearest: u32, board: u32) -> Result<Depot, AllocError>
    ensures { IfOk result (λ d. seen d ≡ four_with nearest board) }
{
    Ok(Depot {
        arc_starts: Vec::from_slice(heap, &[0, 2, 3, 4, 4])?,
        heads: Vec::from_slice(heap, &[1, 2, 3, 1])?,
        point_starts: Vec::from_slice(heap, &[0, 2, 4, 6, 11])?,
        departures: Vec::from_slice(
            heap,
            &[0, 86400, 0, 86400, 0, 86400, 0, 28800, 32400, 82800, 86400],
        )?,
        arrivals: Vec::from_slice(
            heap,
            &[
                300, 86700, 100, 86500, 50, 86450, 100, 28900, 33100, 83500, 86500,
            ],
        )?,
        sites: Vec::from_slice(heap, &[1, 3])?,
        metres: Vec::from_slice(heap, &[900, 400, 100, 500])?,
        segments: Vec::from_slice(heap, &[0, 32400, 82800])?,
        nearest,
        bays: Vec::from_slice(heap, &[2, 1])?,
        board,
    })
}

pub fn four_junctions(heap: Global) -> Result<Depot, AllocError>
    ensures lists { IfOk result (λ d. seen d ≡ four_junctions) }
    ensures worked { WorkedExamples }
{
    four_with(heap, 2, 1)
}
