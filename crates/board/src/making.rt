// Making a board, and what it says of itself.
#![tactic(auto, unfolding(crate::specs::Held::board_table))]

ghost use Rattle.std.specs.Prelude.{◌≡◌, ℕ, IfOk, slice_index};
ghost use Rattle.board.specs.Faults.{board_fault};
ghost use Rattle.board.specs.Held.{board_table};
ghost use Rattle.board.specs.Promise.{StandsNew};
ghost use Rattle.board.specs.Tables.{first_state, board_refusal, sites_of, has_free};
ghost use Rattle.network.specs.Refused.{refused};
ghost use Rattle.network.specs.Sets.{has};

use crate::bays::SiteBays;
use crate::board::Board;
use crate::faults::BoardFault;
use arrayvec::ArrayVec;
use network::{MOST_SITES, SiteSet};

impl Board {
    // Every bay is free.
    pub fn new(number: u32, bays: &[u32]) -> Result<Board, BoardFault>
        ensures refusal { refused board_fault result ≡ board_refusal bays.now }
        ensures table { IfOk result (λ b. board_table b ≡ first_state number bays.now) }
        ensures throughout { IfOk result (λ b. StandsNew number bays.now (board_table b)) }
    {
        if bays.len() > MOST_SITES {
            return Err(BoardFault);
        }
        let mut table = ArrayVec::new();
        for count in bays {
            table.push(SiteBays::all_free(*count)?);
        }
        Ok(Board { number, table })
    }

    pub fn number(&self) -> u32
        ensures { result ≡ (board_table self.now).number }
    {
        self.number
    }

    pub fn sites(&self) -> u32
        ensures { result ≡ sites_of (board_table self.now) }
    {
        self.table.len() as u32
    }

    // The bays of a site; a site that is not there has none.
    pub fn bays(&self, site: u32) -> u32
        ensures { result ≡ slice_index (board_table self.now).bays site }
    {
        self.table.get(site as usize).map_or(0, |at| at.bays)
    }

    // How many bays of a site are out.
    pub fn out(&self, site: u32) -> u32
        ensures { result ≡ (board_table self.now).out site }
    {
        self.table.get(site as usize).map_or(0, |at| at.out)
    }

    // The sites that have a free bay.
    pub fn free_sites(&self) -> SiteSet
        ensures { (s : ℕ) → has result s ≡ has_free (board_table self.now) s }
    {
        let mut free = SiteSet::none();
        for (site, at) in self.table.iter().enumerate() {
            if at.out < at.bays {
                free.insert(site as u32);
            }
        }
        free
    }
}
