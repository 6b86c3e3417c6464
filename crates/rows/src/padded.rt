// What the rows of the index say of wanted sites.
ghost use Rattle.std.specs.Prelude.{◌≡◌, length, min};
ghost use Rattle.network.specs.Sets.{has};
ghost use Rattle.rows.specs.Guided.{least_to};
ghost use Rattle.rows.specs.Index.{read_row};

use network::SiteSet;

// What stands in the index where a row has no more entries.
pub const NO_SITE: u32 = 65535;

// The time of the first wanted entry of a row, or that of the last where the row is full; nothing where none is wanted and
// an entry is missing.
pub fn least_to(sites: &[u32], times: &[u32], wanted: &SiteSet) -> Option<u32>
    ensures { let C = min (length sites.now) (length times.now) in result ≡ least_to C (has wanted.now) (read_row sites.now times.now C 0) }
{
    let mut last = 0;
    for (site, time) in sites.iter().zip(times) {
        if *site == NO_SITE {
            return None;
        }
        if wanted.has(*site) {
            return Some(*time);
        }
        last = *time;
    }
    Some(last)
}
