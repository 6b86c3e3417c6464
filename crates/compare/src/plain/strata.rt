// What stands on arcs, in plain lists: closures, detours over them, and both again over those.
use crate::plain::refused::Refused;
use std::alloc::{AllocError, Global};

// An arc, and the units by which it takes longer; a closure has none.
#[derive(Clone, Copy)]
pub(crate) struct Standing {
    pub(crate) arc: u32,
    pub(crate) units: u32,
}

#[derive(Drop)]
pub(crate) struct Strata {
    pub(crate) closed: Vec<Standing>,
    pub(crate) longer: Vec<Standing>,
    pub(crate) closed_above: Vec<Standing>,
    pub(crate) longer_above: Vec<Standing>,
}

fn stands(list: &[Standing], arc: u32) -> bool {
    list.iter().any(|one| one.arc == arc)
}

fn units_of(list: &[Standing], arc: u32) -> u32 {
    list.iter()
        .find(|one| one.arc == arc)
        .map_or(0, |one| one.units)
}

impl Strata {
    pub(crate) fn empty(heap: Global) -> Strata {
        Strata {
            closed: Vec::new(heap),
            longer: Vec::new(heap),
            closed_above: Vec::new(heap),
            longer_above: Vec::new(heap),
        }
    }

    pub(crate) fn is_closed(&self, arc: u32) -> bool {
        stands(&self.closed, arc) || stands(&self.closed_above, arc)
    }

    // How much longer the arc takes by the lower detours, and then by the upper ones.
    pub(crate) fn units(&self, arc: u32) -> [u32; 2] {
        [
            units_of(&self.longer, arc),
            units_of(&self.longer_above, arc),
        ]
    }
}

// What is refused of adding: 19, 20 where it has units that do not fit, 36, 35.
pub(crate) fn adding_refusal(
    list: &[Standing],
    arcs: u32,
    most: usize,
    added: Standing,
    fits: bool,
) -> Option<Refused> {
    if added.arc >= arcs {
        return Some(Refused::call(19));
    }
    if !fits {
        return Some(Refused::call(20));
    }
    if stands(list, added.arc) {
        return Some(Refused::call(36));
    }
    (list.len() >= most).then_some(Refused::call(35))
}

// What is refused of lifting: 19, 37.
pub(crate) fn lifting_refusal(list: &[Standing], arcs: u32, arc: u32) -> Option<Refused> {
    if arc >= arcs {
        return Some(Refused::call(19));
    }
    (!stands(list, arc)).then_some(Refused::call(37))
}

// Takes the arc out; the others keep their order.
pub(crate) fn take_out(list: &mut Vec<Standing>, arc: u32) {
    list.retain(|one| one.arc != arc);
}

pub(crate) fn put_last(list: &mut Vec<Standing>, added: Standing) -> Result<(), AllocError> {
    list.push(added)?;
    Ok(())
}
