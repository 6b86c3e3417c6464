// Opening a desk, its board, and closing it.
ghost use Rattle.std.specs.Prelude.{◌≡◌, IfOk};
ghost use Rattle.board.specs.Faults.{board_fault};
ghost use Rattle.board.specs.Held.{board_table};
ghost use Rattle.board.specs.Promise.{OverEveryPast, StandsNew};
ghost use Rattle.board.specs.Tables.{first_state, board_refusal};
ghost use Rattle.desk.specs.States.{desk_state, just_opened};
ghost use Rattle.desk.specs.Throughout.{after_closing, RightlyClosed};
ghost use Rattle.network.specs.Refused.{refused};

use crate::desk::Desk;
use crate::keeping::take_back;
use crate::kept::Kept;
use board::{Board, BoardFault};
use std::alloc::Global;

impl Desk {
    pub fn open(heap: Global, number: u32, bays: &[u32]) -> Result<Desk, BoardFault>
        ensures refusal { refused board_fault result ≡ board_refusal bays.now }
        ensures desk { IfOk result (λ d. desk_state d ≡ just_opened number bays.now) }
        ensures throughout { IfOk result (λ d. StandsNew number bays.now (desk_state d).table) }
    {
        Ok(Desk {
            board: Board::new(number, bays)?,
            holds: Vec::new(heap),
            next: 0,
        })
    }

    pub fn board(&self) -> &Board
        ensures { board_table result.now ≡ (desk_state self.now).table }
    {
        &self.board
    }

    // Every hold is handed back, and every bay is free again.
    pub fn close(self) -> Board
        ensures table { board_table result ≡ first_state (desk_state self).table.number (desk_state self).table.bays }
        ensures throughout { OverEveryPast (desk_state self).table (λ first past. RightlyClosed first past (desk_state self).kept) (λ first past. after_closing (desk_state self).kept first.number past) (board_table result) }
    {
        let Desk {
            mut board,
            mut holds,
            next: _,
        } = self;
        while let Some(Kept { name: _, hold }) = holds.pop() {
            take_back(&mut board, hold);
        }
        holds.destroy_empty();
        board
    }
}
