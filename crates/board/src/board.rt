// A board: its number, and each site's bays.
use crate::bays::SiteBays;
use arrayvec::ArrayVec;
use network::MOST_SITES;

#[derive(Drop)]
pub struct Board {
    pub(crate) number: u32,
    pub(crate) table: ArrayVec<SiteBays, MOST_SITES>,
}
