// A board by the rules: its number, and for each site its bays and how many of them are out.
use crate::plain::lists::{at, count, put};
use crate::plain::refused::Refused;
use std::alloc::{AllocError, Global};

#[derive(Drop)]
pub(crate) struct Bays {
    pub(crate) number: u32,
    pub(crate) bays: Vec<u32>,
    pub(crate) out: Vec<u32>,
}

// What is refused of making a board: 13.
pub(crate) fn making_refusal(bays: &[u32]) -> Option<Refused> {
    let fit = bays.len() <= 64 && bays.iter().all(|count| *count <= 8);
    (!fit).then_some(Refused::call(13))
}

impl Bays {
    // Every bay is free.
    pub(crate) fn new(heap: Global, number: u32, bays: &[u32]) -> Result<Bays, AllocError> {
        let mut first = Bays {
            number,
            bays: Vec::new(heap),
            out: Vec::from_elem(heap, 0, bays.len())?,
        };
        first.bays.extend_from_slice(bays)?;
        Ok(first)
    }

    pub(crate) fn sites(&self) -> u32 {
        count(self.bays.len())
    }

    pub(crate) fn bays_at(&self, site: u32) -> u32 {
        at(&self.bays, site)
    }

    pub(crate) fn out_at(&self, site: u32) -> u32 {
        at(&self.out, site)
    }

    pub(crate) fn is_free(&self, site: u32) -> bool {
        at(&self.out, site) < at(&self.bays, site)
    }

    // 18, 31.
    pub(crate) fn hold_refusal(&self, site: u32) -> Option<Refused> {
        if site >= self.sites() {
            return Some(Refused::call(18));
        }
        (!self.is_free(site)).then_some(Refused::call(31))
    }

    // 32, 33.
    pub(crate) fn back_refusal(&self, number: u32, site: u32) -> Option<Refused> {
        if number != self.number {
            return Some(Refused::call(32));
        }
        (at(&self.out, site) == 0).then_some(Refused::call(33))
    }

    pub(crate) fn hold(&mut self, site: u32) {
        let out = at(&self.out, site);
        put(&mut self.out, site, out.saturating_add(1));
    }

    pub(crate) fn take_back(&mut self, site: u32) {
        let out = at(&self.out, site);
        put(&mut self.out, site, out.saturating_sub(1));
    }

    pub(crate) fn free(&self, heap: Global) -> Result<Vec<bool>, AllocError> {
        let mut free = Vec::new(heap);
        for site in 0..self.sites() {
            free.push(self.is_free(site))?;
        }
        Ok(free)
    }
}
