// Why an index is not laid.
ghost use Rattle.std.specs.Prelude.{◌≡◌};
ghost use Rattle.laying.specs.Faults.{lay_fault};
ghost use Rattle.laying.specs.declared.faults.LayFault.TheVariants.{Segments};

use least::DayFault;
use network::Refusal;

/// Why an index is not laid: refusals 9, 10 and 17.
#[derive(Clone, Copy, PartialEq, Eq, Debug)]
pub enum LayFault {
    Segments(DayFault),
    // there are not 1 to 8 entries to a row, or a list is not as long as the index
    Lists,
    // the work list is too short
    Work,
}

impl From<DayFault> for LayFault {
    ghost from_gives = { λ day fault. fault ≡ Segments day };

    fn from(fault: DayFault) -> LayFault {
        LayFault::Segments(fault)
    }
}

impl From<LayFault> for Refusal {
    ghost from_gives = { λ fault said. said ≡ lay_fault fault };

    fn from(fault: LayFault) -> Refusal {
        match fault {
            LayFault::Segments(fault) => Refusal::from(fault),
            LayFault::Lists => Refusal::of_call(10),
            LayFault::Work => Refusal::of_call(17),
        }
    }
}
