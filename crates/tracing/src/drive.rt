// Driving along a list of arcs.
ghost use Rattle.std.specs.Prelude.{◌≡◌};
ghost use Rattle.network.specs.Paths.{along};
ghost use Rattle.std.specs.Option.{option_map};

use network::Network;

// What arrives at the end of the arcs; nothing where one of them carries nothing.
pub(crate) fn drive<N: Network>(network: &N, start: N::Reading, arcs: &[u32]) -> Option<N::Reading>
    ensures { option_map (N.Network.height network.now) result ≡ along (N.Network.roads network.now) (N.Network.height network.now start) arcs.now }
{
    arcs.iter()
        .try_fold(start, |reading, arc| network.carry(*arc, reading))
}
