// The checks of the lists that every kind of roads has.
ghost use Rattle.std.specs.Prelude.{◌≡◌, ℕ, ◌+◌, ◌<◌, ◌≤◌, length, position, nat_le, slice_index, IfSome, MatchBool};
ghost use Rattle.network.specs.Lists.{runs, arcs_refusal, sites_refusal};
ghost use Rattle.network.specs.Refused.{refused, street_refusal};

use crate::refusals::StreetFault;
use crate::sites::MOST_SITES;

const LEAST_STARTS: usize = 2;

pub const MOST_JUNCTIONS: usize = 4096;

const MOST_ARCS: usize = 16384;

// Whether the list rises by at least `step` from each number to the next.
fn rises(list: &[u32], step: u32) -> bool
    ensures { MatchBool result ((i : ℕ) → i + 1 < length list.now → slice_index list.now i + step ≤ slice_index list.now (i + 1)) ((i : ℕ) × (i + 1 < length list.now) × (slice_index list.now (i + 1) < slice_index list.now i + step)) }
{
    list.windows(2)
        .all(|pair| pair[0] as u64 + step as u64 <= pair[1] as u64)
}

// Whether the list runs from 0 to `last` in steps of at least `step`.
pub fn runs_to(list: &[u32], step: u32, last: usize) -> bool
    ensures { result ≡ runs list.now step last }
{
    let count = list.len();
    if count == 0 || list[0] != 0 || list[count - 1] as usize != last {
        return false;
    }
    rises(list, step)
}

// Where the first number stands that is not below the bound.
fn first_past(numbers: &[u32], bound: usize) -> Option<usize>
    ensures first { result ≡ position (λ n. nat_le bound n) numbers.now }
    ensures within { IfSome result (λ i. i < length numbers.now) }
{
    numbers.iter().position(|number| *number as usize >= bound)
}

pub fn check_arcs(starts: &[u32], heads: &[u32]) -> Result<(), StreetFault>
    ensures { refused street_refusal result ≡ arcs_refusal starts.now heads.now }
{
    let count = starts.len();
    if count < LEAST_STARTS || count > MOST_JUNCTIONS + 1 {
        return Err(StreetFault::StartCount);
    }
    if !runs_to(starts, 0, heads.len()) || heads.len() > MOST_ARCS {
        return Err(StreetFault::Starts);
    }
    match first_past(heads, count - 1) {
        Some(arc) => Err(StreetFault::Head(arc as u32)),
        None => Ok(()),
    }
}

pub fn check_sites(junctions: usize, sites: &[u32]) -> Result<(), StreetFault>
    ensures { refused street_refusal result ≡ sites_refusal junctions sites.now }
{
    if sites.len() > MOST_SITES {
        return Err(StreetFault::Site(MOST_SITES as u32));
    }
    match first_past(sites, junctions) {
        Some(site) => Err(StreetFault::Site(site as u32)),
        None => Ok(()),
    }
}
