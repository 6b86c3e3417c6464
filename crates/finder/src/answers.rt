// What an asking answers.

// A site that is listed, and the reading that arrives there.
#[derive(Clone, Copy, PartialEq, Eq, Debug)]
pub struct Answer<R> {
    pub site: u32,
    pub reading: R,
}

// How many sites were listed, and in how many steps.
#[derive(Clone, Copy, PartialEq, Eq, Debug)]
pub struct Listing {
    pub count: u32,
    pub steps: u64,
}
