// Sets of sites, of which there are at most 64.
ghost use Rattle.std.specs.Prelude.{◌≡◌, ℕ, true, false, ◌&&◌, if◌then◌else◌, nat_eq, nat_lt};
ghost use Rattle.network.specs.Sets.{has};

pub const MOST_SITES: usize = 64;

#[derive(Clone, Copy, PartialEq, Eq, Debug)]
pub struct SiteSet {
    flags: [bool; MOST_SITES],
}

impl SiteSet {
    pub fn none() -> SiteSet
        ensures { (k : ℕ) → has result k ≡ false }
    {
        SiteSet {
            flags: [false; MOST_SITES],
        }
    }

    pub fn has(&self, site: u32) -> bool
        ensures { result ≡ has self.now site }
    {
        (site as usize) < MOST_SITES && self.flags[site as usize]
    }

    // A site past 64 is never in the set.
    pub fn insert(&mut self, site: u32)
        ensures { (k : ℕ) → has self.new k ≡ (if nat_eq k site && nat_lt site 64 then true else has self.old k) }
    {
        self.put(site, true);
    }

    pub fn remove(&mut self, site: u32)
        ensures { (k : ℕ) → has self.new k ≡ (if nat_eq k site then false else has self.old k) }
    {
        self.put(site, false);
    }

    fn put(&mut self, site: u32, held: bool)
        ensures { (k : ℕ) → has self.new k ≡ (if nat_eq k site && nat_lt site 64 then held else has self.old k) }
    {
        if (site as usize) < MOST_SITES {
            self.flags[site as usize] = held;
        }
    }
}
