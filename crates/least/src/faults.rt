// Why a list of seconds cuts no day.
ghost use Rattle.std.specs.Prelude.{◌≡◌};
ghost use Rattle.least.specs.Faults.{day_fault};

use network::Refusal;

// No segment or over 8; or they do not rise strictly from 0, or start past 86,400.
#[derive(Clone, Copy, PartialEq, Eq, Debug)]
pub struct DayFault;

impl From<DayFault> for Refusal {
    ghost from_gives = { λ fault said. said ≡ day_fault fault };

    fn from(_: DayFault) -> Refusal {
        Refusal::of_call(9)
    }
}
