// The bays of one site.
ghost use Rattle.std.specs.Prelude.{◌≡◌, ◌≤◌, ◌↔◌, IsOk, IfOk};

use crate::faults::BoardFault;

const MOST_BAYS: u32 = 8;

// How many bays there are, and how many of them are out.
#[derive(Clone, Copy)]
pub(crate) struct SiteBays {
    pub(crate) bays: u32,
    pub(crate) out: u32,
    ghost small: { bays ≤ 8 },
    ghost within: { out ≤ bays },
}

// What stands where a table has no site.
impl Default for SiteBays {
    fn default() -> SiteBays {
        SiteBays { bays: 0, out: 0 }
    }
}

impl SiteBays {
    // Every bay is free.
    pub(crate) fn all_free(bays: u32) -> Result<SiteBays, BoardFault>
        ensures variant { IsOk result ↔ (bays ≤ 8) }
        ensures bays { IfOk result (λ b. b.bays ≡ bays) }
        ensures out { IfOk result (λ b. b.out ≡ 0) }
    {
        if bays > MOST_BAYS {
            return Err(BoardFault);
        }
        Ok(SiteBays { bays, out: 0 })
    }
}
