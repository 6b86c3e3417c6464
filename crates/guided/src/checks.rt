// What can be told of an index before its rows are looked at.
ghost use Rattle.std.specs.Prelude.{◌≡◌, IfOk};
ghost use Rattle.least.specs.Held.{day_firsts};
ghost use Rattle.network.specs.Refused.{refused};
ghost use Rattle.guided.specs.Faults.{load_fault};
ghost use Rattle.guided.specs.Held.{index_lists};
ghost use Rattle.guided.specs.Loads.{early_refusal};

use crate::faults::LoadFault;
use crate::raw::IndexTables;
use laying::{Room, admit};
use least::Day;

impl IndexTables {
    // The first fault, with so many work records: of the tables, and then what laying an index there is refused by. Where
    // there is none, the day that the segments cut.
    #[tactic(auto, unfolding(crate::specs::Loads::early_refusal))]
    pub(crate) fn check(&self, work: usize) -> Result<Day, LoadFault>
        ensures refusal { refused load_fault result ≡ early_refusal (index_lists self.now) work }
        ensures day { IfOk result (λ d. day_firsts d ≡ self.now.segments.items) }
    {
        self.tables.check()?;
        let junctions = (self.tables.starts.len() - 1) as u32;
        let room = Room {
            sites: self.sites.len(),
            times: self.times.len(),
            work,
        };
        let day = admit(&self.segments, junctions, self.nearest, room)?;
        Ok(day)
    }
}
