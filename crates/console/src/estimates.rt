// What a guide estimates for the sites of a command.
ghost use Rattle.std.specs.Prelude.{◌≡◌, ℕ};
ghost use Rattle.std.specs.Option.{option_map};
ghost use Rattle.console.specs.Estimates.{guessed, named};
ghost use Rattle.network.specs.Sets.{has};

use network::{Guide, SiteSet};

// The sites of a list.
fn set_of(sites: &[u32]) -> SiteSet
    ensures { (s : ℕ) → has result s ≡ named sites.now s }
{
    let mut set = SiteSet::none();
    for site in sites {
        set.insert(*site);
    }
    set
}

// Nothing is estimated for an impossible reading.
pub fn estimate_from<G: Guide>(
    guide: &G,
    junction: u32,
    reading: Option<G::Reading>,
    sites: &[u32],
) -> Option<G::Reading>
    ensures { option_map (G.Network.height guide.now) result ≡ guessed (G.guess guide.now) junction (option_map (G.Network.height guide.now) reading) sites.now }
{
    guide.estimate(junction, reading?, &set_of(sites))
}
