// Why an index is not loaded.
ghost use Rattle.std.specs.Prelude.{◌≡◌};
ghost use Rattle.guided.specs.Faults.{load_fault};
ghost use Rattle.guided.specs.declared.faults.LoadFault.TheVariants.{Tables, Lists};

use clock::TableFault;
use laying::LayFault;
use network::{Places, Refusal};

#[derive(Clone, Copy, PartialEq, Eq, Debug)]
pub enum LoadFault {
    Tables(TableFault),
    // no index can be laid there
    Lists(LayFault),
    // another index than the tables and segments have, in an entry of a junction of a segment
    Differs((u32, u32, u32)),
}

impl From<LoadFault> for Refusal {
    ghost from_gives = { λ fault said. said ≡ load_fault fault };

    fn from(fault: LoadFault) -> Refusal {
        match fault {
            LoadFault::Tables(fault) => Refusal::from(fault),
            LoadFault::Lists(fault) => Refusal::from(fault),
            LoadFault::Differs((segment, junction, entry)) => Refusal {
                number: 11,
                places: Places::Three(segment, junction, entry),
            },
        }
    }
}

impl From<TableFault> for LoadFault {
    ghost from_gives = { λ fault made. made ≡ Tables fault };

    fn from(fault: TableFault) -> LoadFault {
        LoadFault::Tables(fault)
    }
}

impl From<LayFault> for LoadFault {
    ghost from_gives = { λ fault made. made ≡ Lists fault };

    fn from(fault: LayFault) -> LoadFault {
        LoadFault::Lists(fault)
    }
}
