// Holding a bay, and handing it back.
ghost use Rattle.std.specs.Prelude.{◌≡◌};
ghost use Rattle.board.specs.Answered.{held_answer, handed_answer};
ghost use Rattle.board.specs.Calls.{holding, handing_back};
ghost use Rattle.board.specs.Held.{board_table, hold_bears};
ghost use Rattle.board.specs.Promise.{Throughout, hold_answer, back_answer};
ghost use Rattle.board.specs.Tables.{hold_refusal, one_more_out, back_refusal, one_less_out};

use crate::board::Board;
use crate::faults::{BackFault, HoldFault};
use crate::hold::Hold;
use network::Returned;

impl Board {
    pub fn hold(&mut self, site: u32) -> Result<Hold, HoldFault>
        ensures answer { held_answer result ≡ hold_answer (hold_refusal (board_table self.old) site) (board_table self.old).number site }
        ensures table { board_table self.new ≡ one_more_out (hold_refusal (board_table self.old) site) (board_table self.old) site }
        ensures throughout { Throughout (board_table self.old) (holding site) (held_answer result) (board_table self.new) }
    {
        let at = self
            .table
            .get_mut(site as usize)
            .ok_or(HoldFault::NoSuchSite)?;
        if at.out >= at.bays {
            return Err(HoldFault::NoFreeBay);
        }
        at.out += 1;
        Ok(Hold {
            number: self.number,
            site,
        })
    }

    // A hold that is not taken back is returned.
    pub fn hand_back(&mut self, hold: Hold) -> Result<(), Returned<Hold, BackFault>>
        ensures answer { handed_answer result ≡ back_answer (back_refusal (board_table self.old) (hold_bears hold).0 (hold_bears hold).1) (hold_bears hold).0 (hold_bears hold).1 }
        ensures table { board_table self.new ≡ one_less_out (back_refusal (board_table self.old) (hold_bears hold).0 (hold_bears hold).1) (board_table self.old) (hold_bears hold).1 }
        ensures throughout { Throughout (board_table self.old) (handing_back (hold_bears hold).0 (hold_bears hold).1) (handed_answer result) (board_table self.new) }
    {
        if hold.number != self.number {
            return Err(Returned {
                fault: BackFault::OtherBoard,
                value: hold,
            });
        }
        match self.table.get_mut(hold.site as usize) {
            Some(at) if at.out > 0 => {
                let Hold { number: _, site: _ } = hold;
                at.out -= 1;
                Ok(())
            }
            _ => Err(Returned {
                fault: BackFault::NotOut,
                value: hold,
            }),
        }
    }
}
