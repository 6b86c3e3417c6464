// Following ways back, each from an arc's head to its tail.
ghost use Rattle.std.specs.Prelude.{◌≡◌, ◌-◌, ◌<◌, ◌≤◌, ◌&&◌, length, ◌==◌, nat_lt};
ghost use Rattle.network.specs.First.{provided};
ghost use Rattle.soonest.specs.Ways.{back};
ghost use Rattle.std.specs.Option.{option_map};
ghost use Rattle.tracing.specs.Traces.{way_in};

use arrayvec::ArrayVec;
use network::{MOST_JUNCTIONS, Network};

// The tail of an arc, where it leads to the junction.
fn tail_toward<N: Network>(network: &N, arc: u32, junction: u32) -> Option<u32>
    ensures { result ≡ provided (nat_lt arc (N.Network.roads network.now).arcs && (N.Network.roads network.now).head arc == junction) ((N.Network.roads network.now).tail arc) }
{
    network.head(arc).filter(|head| *head == junction)?;
    network.tail(arc)
}

// The arcs from the start to the junction, in driving order; nothing where the ways do not lead back, or not by fewer arcs
// than there are junctions.
pub(crate) fn follow<N: Network>(
    network: &N,
    from: u32,
    to: u32,
    ways: &[u32],
) -> Option<ArrayVec<u32, MOST_JUNCTIONS>>
    requires there { to < (N.Network.roads network.now).junctions }
    requires long { (N.Network.roads network.now).junctions ≤ length ways.now }
    ensures { option_map (λ trail. trail.items) result ≡ back (N.Network.roads network.now) (way_in ways.now) from ((N.Network.roads network.now).junctions - 1) to }
{
    let most = network.junctions() as usize - 1;
    let mut trail = ArrayVec::new();
    let mut at = to;
    while at != from {
        if trail.len() == most {
            return None;
        }
        let arc = ways[at as usize];
        at = tail_toward(network, arc, at)?;
        trail.push(arc);
    }
    trail.reverse();
    Some(trail)
}
