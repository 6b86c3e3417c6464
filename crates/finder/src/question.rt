// What is asked.

// As many sites as may be asked for.
pub const MOST_ASKED: u32 = 32;

// From which junction and start number, for how many sites.
#[derive(Clone, Copy, PartialEq, Eq, Debug)]
pub struct Question {
    pub junction: u32,
    pub number: u32,
    pub k: u32,
}
