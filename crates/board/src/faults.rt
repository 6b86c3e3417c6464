// Why a board is not made, a bay not held, or a hold not taken back.
ghost use Rattle.std.specs.Prelude.{◌≡◌};
ghost use Rattle.board.specs.Faults.{board_fault, hold_fault, back_fault};

use network::Refusal;

// Over 64 sites, or a site of over 8 bays.
#[derive(Clone, Copy, PartialEq, Eq, Debug)]
pub struct BoardFault;

#[derive(Clone, Copy, PartialEq, Eq, Debug)]
pub enum HoldFault {
    NoSuchSite,
    NoFreeBay,
}

#[derive(Clone, Copy, PartialEq, Eq, Debug)]
pub enum BackFault {
    OtherBoard,
    NotOut,
}

impl From<BoardFault> for Refusal {
    ghost from_gives = { λ fault said. said ≡ board_fault fault };

    fn from(_: BoardFault) -> Refusal {
        Refusal::of_call(13)
    }
}

impl From<HoldFault> for Refusal {
    ghost from_gives = { λ fault said. said ≡ hold_fault fault };

    fn from(fault: HoldFault) -> Refusal {
        Refusal::of_call(match fault {
            HoldFault::NoSuchSite => 18,
            HoldFault::NoFreeBay => 31,
        })
    }
}

impl From<BackFault> for Refusal {
    ghost from_gives = { λ fault said. said ≡ back_fault fault };

    fn from(fault: BackFault) -> Refusal {
        Refusal::of_call(match fault {
            BackFault::OtherBoard => 32,
            BackFault::NotOut => 33,
        })
    }
}
