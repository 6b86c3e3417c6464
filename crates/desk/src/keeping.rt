// Holding and handing back at a desk.
ghost use Rattle.std.specs.Prelude.{◌≡◌, ℕ, ◌<◌, ◌≤◌, length, None, Err, vec_len, vec_capacity, MatchOption, ◌≢◌, slice_index_or};
ghost use Rattle.board.specs.Calls.{handing_back};
ghost use Rattle.board.specs.Held.{board_table, hold_bears};
ghost use Rattle.board.specs.Promise.{OverEveryPast, Throughout, hold_ended};
ghost use Rattle.board.specs.Tables.{back_refusal, one_less_out};
ghost use Rattle.desk.specs.Named.{FirstUnder, site_under};
ghost use Rattle.desk.specs.States.{desk_state, Holds, handed_back};
ghost use Rattle.desk.specs.Throughout.{after_holding, RightlyHeld, after_back, RightlyBack};
ghost use Rattle.desk.specs.declared.faults.DeskFault.TheVariants.{NoMemory};
ghost use Rattle.desk.specs.declared.kept.Kept.{Kept};

use crate::desk::Desk;
use crate::faults::DeskFault;
use crate::kept::Kept;
use board::{Board, Hold};

// Takes back a hold of a bay that is out here.
pub(crate) fn take_back(board: &mut Board, hold: Hold)
    requires { back_refusal (board_table board.old) (hold_bears hold).0 (hold_bears hold).1 ≡ None }
    ensures table { board_table board.new ≡ one_less_out None (board_table board.old) (hold_bears hold).1 }
    ensures throughout { Throughout (board_table board.old) (handing_back (hold_bears hold).0 (hold_bears hold).1) hold_ended (board_table board.new) }
{
    board.hand_back(hold).unwrap()
}

// The first place that is kept by the number.
fn position(holds: &[Kept], name: u32) -> Option<usize>
    ensures { MatchOption result ((i : ℕ) (d : Kept) → i < length holds.now → (slice_index_or holds.now i d).name ≢ name) (λ i. FirstUnder holds.now name i) }
{
    holds.iter().position(|kept| kept.name == name)
}

impl Desk {
    // A hold is kept under the next number, from 0 on.
    pub fn hold(&mut self, site: u32) -> Result<u32, DeskFault>
        ensures desk { Holds (desk_state self.old) site result (desk_state self.new) }
        ensures throughout { OverEveryPast (desk_state self.old).table (λ first past. RightlyHeld first past site result) (λ first past. after_holding result site past) (desk_state self.new).table }
        ensures memory { result ≡ Err NoMemory → vec_capacity self.old.holds ≤ vec_len self.old.holds }
    {
        let name = self.next;
        let next = name.checked_add(1).ok_or(DeskFault::NoNumber)?;
        self.holds.reserve(1)?;
        let hold = self.board.hold(site)?;
        self.holds.push_reserved(Kept { name, hold });
        self.next = next;
        Ok(name)
    }

    // The site of the hold that is kept by the number, which is handed back; nothing where none is.
    pub fn back(&mut self, name: u32) -> Option<u32>
        ensures site { result ≡ site_under (desk_state self.old).kept name }
        ensures desk { desk_state self.new ≡ handed_back result (desk_state self.old) name }
        ensures throughout { OverEveryPast (desk_state self.old).table (λ first past. RightlyBack first past result) (λ first past. after_back result first.number past) (desk_state self.new).table }
    {
        let at = position(self.holds.as_slice(), name)?;
        let Kept { name: _, hold } = self.holds.remove(at);
        let site = hold.site();
        take_back(&mut self.board, hold);
        Some(site)
    }
}
