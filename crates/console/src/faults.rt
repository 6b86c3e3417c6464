// Why a drive does not start.
ghost use Rattle.std.specs.Prelude.{◌≡◌};
ghost use Rattle.console.specs.Drives.{start_fault};

use network::Refusal;

// The number has no start reading.
#[derive(Clone, Copy, Debug, PartialEq, Eq)]
pub struct StartFault;

impl From<StartFault> for Refusal {
    ghost from_gives = { λ _ r. r ≡ start_fault };

    fn from(_fault: StartFault) -> Refusal {
        Refusal::of_call(15)
    }
}
