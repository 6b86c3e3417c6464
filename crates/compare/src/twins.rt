// Two boards of one number: each takes back the holds of the other where a bay of the site is out.
ghost use Rattle.std.specs.Prelude.{◌≡◌, ◌≢◌, ℕ, ◌+◌, ◌≤◌, None, IfOk};
ghost use Rattle.board.specs.Held.{board_table, hold_bears};
ghost use Rattle.board.specs.Tables.{back_refusal, one_less_out};
ghost use Rattle.compare.specs.Out.{out_at, one_at, granted_at};

use board::{BackFault, Board, Hold, HoldFault};
use network::Returned;

#[derive(Drop)]
pub(crate) struct Twins {
    pub(crate) one: Board,
    pub(crate) other: Board,
    ghost alike: { (board_table one).number ≡ (board_table other).number },
}

// Holds a bay; one more is out there where a hold is granted.
fn hold_at(board: &mut Board, site: u32) -> Result<Hold, HoldFault>
    ensures out { (s : ℕ) → (board_table board.new).out s ≡ granted_at result s + (board_table board.old).out s }
    ensures number { (board_table board.new).number ≡ (board_table board.old).number }
    ensures bears { IfOk result (λ h. (hold_bears h).0 ≡ (board_table board.old).number) }
{
    board.hold(site)
}

// Takes back a hold of a bay that is out here.
fn take_back_at(board: &mut Board, hold: Hold)
    requires { back_refusal (board_table board.old) (hold_bears hold).0 (hold_bears hold).1 ≡ None }
    ensures { board_table board.new ≡ one_less_out None (board_table board.old) (hold_bears hold).1 }
{
    board.hand_back(hold).unwrap()
}

// Hands a hold back at the first board, and where that refuses it at the second; what the first says.
fn back_at(first: &mut Board, second: &mut Board, hold: Hold) -> Option<BackFault>
    requires first { (hold_bears hold).0 ≡ (board_table first.old).number }
    requires second { (hold_bears hold).0 ≡ (board_table second.old).number }
    requires out { 1 ≤ out_at first.old second.old (hold_bears hold).1 }
    ensures out { (s : ℕ) → out_at first.new second.new s + one_at hold s ≡ out_at first.old second.old s }
    ensures first { (board_table first.new).number ≡ (board_table first.old).number }
    ensures second { (board_table second.new).number ≡ (board_table second.old).number }
{
    match first.hand_back(hold) {
        Ok(()) => None,
        Err(Returned { fault, value }) => {
            take_back_at(second, value);
            Some(fault)
        }
    }
}

// Offers a hold to a board of another number, which returns it.
pub(crate) fn offer_elsewhere(board: &mut Board, hold: Hold) -> Returned<Hold, BackFault>
    requires { (hold_bears hold).0 ≢ (board_table board.old).number }
    ensures { hold_bears result.value ≡ hold_bears hold }
{
    board.hand_back(hold).unwrap_err()
}

impl Twins {
    // None where the numbers differ.
    pub(crate) fn new(one: Board, other: Board) -> Option<Twins> {
        if one.number() == other.number() {
            Some(Twins { one, other })
        } else {
            None
        }
    }

    pub(crate) fn hold(&mut self, at_other: bool, site: u32) -> Result<Hold, HoldFault>
        ensures out { (s : ℕ) → out_at self.new.one self.new.other s ≡ granted_at result s + out_at self.old.one self.old.other s }
        ensures number { (board_table self.new.one).number ≡ (board_table self.old.one).number }
        ensures bears { IfOk result (λ h. (hold_bears h).0 ≡ (board_table self.old.one).number) }
    {
        if at_other {
            hold_at(&mut self.other, site)
        } else {
            hold_at(&mut self.one, site)
        }
    }

    // Hands a hold of either back, first at the one that is named; what that says.
    pub(crate) fn take_back(&mut self, at_other: bool, hold: Hold) -> Option<BackFault>
        requires bears { (hold_bears hold).0 ≡ (board_table self.old.one).number }
        requires out { 1 ≤ out_at self.old.one self.old.other (hold_bears hold).1 }
        ensures out { (s : ℕ) → out_at self.new.one self.new.other s + one_at hold s ≡ out_at self.old.one self.old.other s }
        ensures number { (board_table self.new.one).number ≡ (board_table self.old.one).number }
    {
        if at_other {
            back_at(&mut self.other, &mut self.one, hold)
        } else {
            back_at(&mut self.one, &mut self.other, hold)
        }
    }
}
