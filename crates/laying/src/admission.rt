// What is refused of an index before any row is looked at.
ghost use Rattle.std.specs.Prelude.{◌≡◌, IfOk};
ghost use Rattle.laying.specs.Admitted.{lay_refusal};
ghost use Rattle.laying.specs.Faults.{lay_fault};
ghost use Rattle.least.specs.Held.{day_firsts};
ghost use Rattle.network.specs.Refused.{refused};

use crate::faults::LayFault;
use least::Day;
use rows::MOST_ENTRIES;

/// How long the lists of an index and the work list are.
#[derive(Clone, Copy)]
pub struct Room {
    pub sites: usize,
    pub times: usize,
    pub work: usize,
}

/// The day, where nothing is refused of an index over so many junctions: by the segments (9), by how many entries a row has
/// or how long a list is (10), by a work list that is too short (17), in this order.
#[tactic(auto, unfolding(crate::specs::Admitted::lay_refusal))]
pub fn admit(segments: &[u32], junctions: u32, most: u32, room: Room) -> Result<Day, LayFault>
    ensures refusal { refused lay_fault result ≡ lay_refusal junctions segments.now most room.sites room.times room.work }
    ensures day { IfOk result (λ d. day_firsts d ≡ segments.now) }
{
    let day = Day::new(segments)?;
    if most < 1 || most as usize > MOST_ENTRIES {
        return Err(LayFault::Lists);
    }
    let n = junctions as usize;
    let size = day.count() as usize * n * most as usize;
    if room.sites != size || room.times != size {
        return Err(LayFault::Lists);
    }
    if room.work < n * most as usize {
        return Err(LayFault::Work);
    }
    Ok(day)
}
