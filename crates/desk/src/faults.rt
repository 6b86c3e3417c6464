// Why a desk does not hold.
ghost use Rattle.std.specs.Prelude.{◌≡◌};
ghost use Rattle.desk.specs.declared.faults.DeskFault.TheVariants.{Refused, NoMemory};

use board::HoldFault;
use std::alloc::AllocError;

// Refused by the board; or no number is left to keep the hold under; or no memory is.
#[derive(Clone, Copy, PartialEq, Eq, Debug)]
pub enum DeskFault {
    Refused(HoldFault),
    NoNumber,
    NoMemory,
}

impl From<HoldFault> for DeskFault {
    ghost from_gives = { λ fault made. made ≡ Refused fault };

    fn from(fault: HoldFault) -> DeskFault {
        DeskFault::Refused(fault)
    }
}

impl From<AllocError> for DeskFault {
    ghost from_gives = { λ _ made. made ≡ NoMemory };

    fn from(_: AllocError) -> DeskFault {
        DeskFault::NoMemory
    }
}
