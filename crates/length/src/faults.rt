// What can be wrong with length tables.
ghost use Rattle.std.specs.Prelude.{◌≡◌};
ghost use Rattle.length.specs.Faults.{length_fault};
ghost use Rattle.length.specs.declared.faults.LengthFault.TheVariants.{Streets};

use network::{Refusal, StreetFault};

#[derive(Clone, Copy, PartialEq, Eq, Debug)]
pub enum LengthFault {
    Streets(StreetFault),
    Metres,
}

impl From<LengthFault> for Refusal {
    ghost from_gives = { λ fault said. said ≡ length_fault fault };

    fn from(fault: LengthFault) -> Refusal {
        match fault {
            LengthFault::Streets(fault) => Refusal::from(fault),
            LengthFault::Metres => Refusal::of_call(12),
        }
    }
}

impl From<StreetFault> for LengthFault {
    ghost from_gives = { λ street fault. fault ≡ Streets street };

    fn from(fault: StreetFault) -> LengthFault {
        LengthFault::Streets(fault)
    }
}
