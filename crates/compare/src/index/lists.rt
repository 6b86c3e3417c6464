// Lists for an index, and what calls on it are lent.
use crate::beside::clock_tables;
use crate::plain::{Depot, Index};
use crate::seeded::Bench;
use guided::IndexTables;
use queue::{Key, Slot};
use std::alloc::AllocError;

// Numbers at random, so many.
pub(crate) fn any_list(bench: &mut Bench, length: u32) -> Result<Vec<u32>, AllocError> {
    let mut list = Vec::new(bench.heap);
    for _ in 0..length {
        list.push(bench.random.word())?;
    }
    Ok(list)
}

// Slots that hold anything, so many.
pub(crate) fn any_work(bench: &mut Bench, length: u32) -> Result<Vec<Slot<Key>>, AllocError> {
    let mut work = Vec::new(bench.heap);
    for _ in 0..length {
        let key = Key {
            height: bench.random.next(),
            junction: bench.random.word(),
        };
        work.push(Slot::new(key))?;
    }
    Ok(work)
}

// The depot's tables and an index, as they are loaded.
pub(crate) fn index_tables(depot: &Depot, index: &Index) -> Result<IndexTables, AllocError> {
    Ok(IndexTables {
        tables: clock_tables(depot)?,
        segments: index.segments.clone()?,
        nearest: index.most,
        sites: index.sites.clone()?,
        times: index.times.clone()?,
    })
}

pub(crate) fn copy_of(index: &Index) -> Result<Index, AllocError> {
    Ok(Index {
        segments: index.segments.clone()?,
        most: index.most,
        sites: index.sites.clone()?,
        times: index.times.clone()?,
    })
}
