// What checked lists answer.
ghost use Rattle.std.specs.Prelude.{◌≡◌, ◌-◌, length, slice_index};
ghost use Rattle.network.specs.Lists.{tail_of};
ghost use Rattle.network.specs.Model.{there, leaving};

use crate::bounds::lower_bound;
use crate::lists::Streets;

impl Streets {
    pub fn junctions(&self) -> u32
        ensures { result ≡ length self.now.starts.items - 1 }
    {
        (self.starts.len() - 1) as u32
    }

    pub fn arcs(&self) -> u32
        ensures { result ≡ length self.now.heads.items }
    {
        self.heads.len() as u32
    }

    pub fn site_count(&self) -> u32
        ensures { result ≡ length self.now.sites.items }
    {
        self.sites.len() as u32
    }

    pub fn tail(&self, arc: u32) -> Option<u32>
        ensures { result ≡ there (length self.now.heads.items) (tail_of self.now.starts.items) arc }
    {
        if arc as usize >= self.heads.len() {
            return None;
        }
        let after = lower_bound(self.starts.as_slice(), arc + 1);
        Some((after - 1) as u32)
    }

    pub fn head(&self, arc: u32) -> Option<u32>
        ensures { result ≡ there (length self.now.heads.items) (λ a. slice_index self.now.heads.items a) arc }
    {
        self.heads.get(arc as usize).copied()
    }

    // The first arc that leaves the junction, at or after `from`.
    pub fn next_arc(&self, junction: u32, from: u32) -> Option<u32>
        ensures { result ≡ leaving (length self.now.heads.items) (tail_of self.now.starts.items) junction from }
    {
        let v = junction as usize;
        if v >= self.starts.len() - 1 {
            return None;
        }
        let arc = self.starts[v].max(from);
        (arc < self.starts[v + 1]).then_some(arc)
    }

    pub fn place(&self, site: u32) -> Option<u32>
        ensures { result ≡ there (length self.now.sites.items) (λ s. slice_index self.now.sites.items s) site }
    {
        self.sites.get(site as usize).copied()
    }
}
