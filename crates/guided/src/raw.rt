// Raw clock tables with an index, as they are read: nothing is known of them yet.
use clock::ClockTables;

#[derive(Drop)]
pub struct IndexTables {
    pub tables: ClockTables,
    // the first second of each segment of the day
    pub segments: Vec<u32>,
    // how many entries a row of the index has
    pub nearest: u32,
    // the site of each entry, and the time to it
    pub sites: Vec<u32>,
    pub times: Vec<u32>,
}
