// Raw length tables, as they are read: nothing is known of them yet.
#[derive(Drop)]
pub struct LengthTables {
    // where each junction's arcs start, and one more
    pub starts: Vec<u32>,
    // each arc's head, and its metres
    pub heads: Vec<u32>,
    pub metres: Vec<u32>,
    // each site's junction
    pub sites: Vec<u32>,
}
