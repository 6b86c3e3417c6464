// Loading an index by the rules: the first refusal, and the first entry that is not the right one.
use crate::plain::depots::Depot;
use crate::plain::examining::clock_refusal;
use crate::plain::index::Index;
use crate::plain::laid::{IndexRoom, laying_refusal};
use crate::plain::lists::count;
use crate::plain::refused::Refused;

// What is refused, and whether that is the tables' own fault.
#[derive(Clone, Copy, PartialEq)]
pub(crate) struct LoadRefusal {
    pub(crate) of_tables: bool,
    pub(crate) refused: Refused,
}

// The tables' own; then 9, 10, 17.
pub(crate) fn early_refusal(depot: &Depot, index: &Index, work: usize) -> Option<LoadRefusal> {
    if let Some(refused) = clock_refusal(depot) {
        return Some(LoadRefusal {
            of_tables: true,
            refused,
        });
    }
    let room = IndexRoom {
        sites: index.sites.len(),
        times: index.times.len(),
        work,
    };
    let refused = laying_refusal(depot.junctions(), &index.segments, index.most, room)?;
    Some(LoadRefusal {
        of_tables: false,
        refused,
    })
}

// 11, where an index differs from the right one of the same segments and with rows of the same length.
pub(crate) fn first_difference(
    junctions: u32,
    index: &Index,
    right: &Index,
) -> Option<LoadRefusal> {
    for segment in 0..count(index.segments.len()) {
        for junction in 0..junctions {
            for entry in 0..index.most {
                let place = index.place(junctions, segment, junction, entry);
                if index.entry(place) != right.entry(place) {
                    return Some(LoadRefusal {
                        of_tables: false,
                        refused: Refused::three(11, segment, junction, entry),
                    });
                }
            }
        }
    }
    None
}
