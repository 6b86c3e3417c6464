// What can be wrong with clock tables.
ghost use Rattle.std.specs.Prelude.{◌≡◌};
ghost use Rattle.clock.specs.Faults.{table_fault};
ghost use Rattle.clock.specs.declared.faults.TableFault.TheVariants.{Streets};

use network::{Places, Refusal, StreetFault};

// An arc, and a place in the point lists.
#[derive(Clone, Copy, PartialEq, Eq, Debug)]
pub enum TableFault {
    Streets(StreetFault),
    PointStarts,
    Departure { arc: u32, place: u32 },
    Arrival { arc: u32, place: u32 },
    Falls { arc: u32, place: u32 },
}

impl From<TableFault> for Refusal {
    ghost from_gives = { λ fault said. said ≡ table_fault fault };

    fn from(fault: TableFault) -> Refusal {
        match fault {
            TableFault::Streets(fault) => Refusal::from(fault),
            TableFault::PointStarts => Refusal::of_call(4),
            TableFault::Departure { arc, place } => Refusal {
                number: 5,
                places: Places::Two(arc, place),
            },
            TableFault::Arrival { arc, place } => Refusal {
                number: 6,
                places: Places::Two(arc, place),
            },
            TableFault::Falls { arc, place } => Refusal {
                number: 7,
                places: Places::Two(arc, place),
            },
        }
    }
}

impl From<StreetFault> for TableFault {
    ghost from_gives = { λ street fault. fault ≡ Streets street };

    fn from(fault: StreetFault) -> TableFault {
        TableFault::Streets(fault)
    }
}
