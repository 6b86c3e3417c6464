// A desk: each hold that it keeps bears the board's number, and those of each site number what is out there.
ghost use Rattle.std.specs.Prelude.{◌≡◌, ℕ, ◌<◌, length, slice_index_or};
ghost use Rattle.board.specs.Held.{board_table, hold_bears};
ghost use Rattle.desk.specs.Named.{named_sites, kept_at};
ghost use Rattle.desk.specs.declared.kept.Kept.{Kept};

use crate::kept::Kept;
use board::Board;

pub struct Desk {
    pub(crate) board: Board,
    pub(crate) holds: Vec<Kept>,
    pub(crate) next: u32,
    ghost numbered: { (i : ℕ) (d : Kept) → i < length holds.items → (hold_bears (slice_index_or holds.items i d).hold).0 ≡ (board_table board).number },
    ghost counted: { (s : ℕ) → kept_at (named_sites holds.items) s ≡ (board_table board).out s },
}
