// Raw clock tables, as they are read: nothing is known of them yet.
#[derive(Drop)]
pub struct ClockTables {
    // where each junction's arcs start, and one more
    pub starts: Vec<u32>,
    // each arc's head
    pub heads: Vec<u32>,
    // where each arc's points start, and one more
    pub points: Vec<u32>,
    // each point's departure and arrival, in seconds
    pub departures: Vec<u32>,
    pub arrivals: Vec<u32>,
    // each site's junction
    pub sites: Vec<u32>,
}
