// A desk by the rules: which holds are kept, each under a number of its own, beside the board's counts.
use crate::plain::bays::Bays;
use crate::plain::refused::Refused;
use std::alloc::AllocError;

// The number that a hold is kept under, and its site.
#[derive(Clone, Copy, PartialEq)]
pub(crate) struct Kept {
    pub(crate) name: u32,
    pub(crate) site: u32,
}

#[derive(Drop)]
pub(crate) struct Ledger {
    pub(crate) bays: Bays,
    pub(crate) kept: Vec<Kept>,
    pub(crate) next: u32,
}

impl Ledger {
    // The number that the hold is kept under, or what is refused.
    pub(crate) fn hold(&mut self, site: u32) -> Result<Result<u32, Refused>, AllocError> {
        if let Some(refused) = self.bays.hold_refusal(site) {
            return Ok(Err(refused));
        }
        let name = self.next;
        self.kept.push(Kept { name, site })?;
        self.bays.hold(site);
        self.next = name.saturating_add(1);
        Ok(Ok(name))
    }

    // The site of the hold that is kept under the number.
    pub(crate) fn back(&mut self, name: u32) -> Option<u32> {
        let site = self.kept.iter().find(|one| one.name == name)?.site;
        self.kept.retain(|one| one.name != name);
        self.bays.take_back(site);
        Some(site)
    }

    // Every hold is handed back.
    pub(crate) fn close(&mut self) {
        for one in self.kept.iter() {
            self.bays.take_back(one.site);
        }
        self.kept.clear();
    }
}
