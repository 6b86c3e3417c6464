// A hold, and the number that it is kept by.
use board::Hold;

pub struct Kept {
    pub(crate) name: u32,
    pub(crate) hold: Hold,
}
