// Loading turns raw tables with an index into guided roads, or says what is wrong with them.
ghost use Rattle.std.specs.Prelude.{◌≡◌, length};
ghost use Rattle.std.specs.Result.{result_map_both};
ghost use Rattle.guided.specs.Held.{guided_lists, index_lists};
ghost use Rattle.guided.specs.Loads.{handed_back, HasRows, Loads};

use crate::faults::LoadFault;
use crate::raw::IndexTables;
use crate::roads::GuidedRoads;
use network::Returned;
use queue::{Key, Slot};

// Refused lists are handed back as they were. The work list is scratch.
pub fn load(
    raw: IndexTables,
    work: &mut [Slot<Key>],
) -> Result<GuidedRoads, Returned<IndexTables, LoadFault>>
    ensures answer { Loads (index_lists raw) (length work.old) (result_map_both guided_lists handed_back result) }
    ensures rows { HasRows (index_lists raw) (length work.old) }
{
    let day = match raw.check(work.len()) {
        Ok(day) => day,
        Err(fault) => return Err(Returned { fault, value: raw }),
    };
    let indexed = raw.open(day);
    match indexed.check_rows(work) {
        Ok(()) => Ok(GuidedRoads { indexed }),
        Err(fault) => Err(Returned {
            fault,
            value: IndexTables::from(indexed),
        }),
    }
}
