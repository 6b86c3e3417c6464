// Boards with bays at random, beside their plain counts.
use crate::beside::told::told_refusal;
use crate::plain::{Bays, making_refusal};
use crate::seeded::{Bench, Sort, Trouble};
use board::Board;
use network::Refusal;
use std::alloc::AllocError;

// Bays for each site, and now and then for one more or fewer; seldom more than there may be.
pub(crate) fn any_bays(bench: &mut Bench, sites: u32) -> Result<Vec<u32>, AllocError> {
    let most = bench.random.one_of(&[1, 2, 3, 8]);
    let count = match bench.random.below(24) {
        0 => sites.saturating_add(1),
        1 => sites.saturating_sub(1),
        _ => sites,
    };
    let mut bays = Vec::new(bench.heap);
    for _ in 0..count {
        let here = bench.random.between(0, most);
        bays.push(if bench.random.once_in(400) { 9 } else { here })?;
    }
    Ok(bays)
}

// A board of so many sites, more or less, and its plain counts; none where it is refused.
pub(crate) fn make_board(
    bench: &mut Bench,
    number: u32,
    sites: u32,
) -> Result<Option<(Board, Bays)>, Trouble> {
    let counts = any_bays(bench, sites)?;
    let refused = making_refusal(&counts);
    match Board::new(number, &counts) {
        Ok(board) => {
            bench.same_refusal(Sort::Boards, refused, None)?;
            Ok(Some((board, Bays::new(bench.heap, number, &counts)?)))
        }
        Err(fault) => {
            let said = told_refusal(Refusal::from(fault));
            bench.same_refusal(Sort::Boards, refused, Some(said))?;
            Ok(None)
        }
    }
}

// Whether a board says of itself what the plain counts say.
pub(crate) fn says_the_same(board: &Board, bays: &Bays) -> bool {
    let free = board.free_sites();
    let counted = (0..=bays.sites()).all(|site| {
        board.out(site) == bays.out_at(site)
            && board.bays(site) == bays.bays_at(site)
            && free.has(site) == bays.is_free(site)
    });
    counted && board.number() == bays.number && board.sites() == bays.sites()
}
