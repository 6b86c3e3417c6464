// Closures and detours in a pile over roads, and the changes that are made in them.
use crate::beside::told::refused_by;
use crate::plain::{
    Refused, Standing, Strata, adding_refusal, lifting_refusal, put_last, take_out,
};
use crate::seeded::{Bench, Sort, Trouble, any_below};
use layers::{Closure, Closures, Detour, Detours};
use network::Network;

const MOST_CLOSURES: usize = 64;

const MOST_DETOURS: usize = 32;

// Closures, detours over them, and both again over those.
pub(crate) type Pile<N> = Detours<Closures<Detours<Closures<N>>>>;

pub(crate) fn pile_over<N>(roads: N) -> Pile<N> {
    Detours::over(Closures::over(Detours::over(Closures::over(roads))))
}

// The roads, with all layers taken off.
pub(crate) fn uncovered<N>(pile: Pile<N>) -> N {
    let (roads, _) = pile.into_parts();
    let (roads, _) = roads.into_parts();
    let (roads, _) = roads.into_parts();
    let (roads, _) = roads.into_parts();
    roads
}

// A change that is to be tried: an arc is lifted, or something is put on it.
#[derive(Clone, Copy)]
struct Change {
    lifts: bool,
    put: Standing,
    fits: bool,
}

fn any_change(bench: &mut Bench, arcs: u32, has_units: bool) -> Change {
    let arc = any_below(&mut bench.random, arcs);
    let lifts = bench.random.once_in(4);
    if !has_units {
        return Change {
            lifts,
            put: Standing { arc, units: 0 },
            fits: true,
        };
    }
    let units = match bench.random.below(8) {
        0 => bench.random.one_of(&[0, 1, 3_600, 3_601, u32::MAX]),
        _ => bench.random.between(1, 3_600),
    };
    Change {
        lifts,
        put: Standing { arc, units },
        fits: units >= 1 && units <= 3_600,
    }
}

// The same change in the plain list, of so many at most.
fn change_list(
    bench: &mut Bench,
    list: &mut Vec<Standing>,
    change: Change,
    arcs: u32,
    most: usize,
    answer: Option<Refused>,
) -> Result<(), Trouble> {
    if change.lifts {
        let expected = lifting_refusal(list, arcs, change.put.arc);
        take_out(list, change.put.arc);
        return bench.same_refusal(Sort::Lifted, expected, answer);
    }
    let expected = adding_refusal(list, arcs, most, change.put, change.fits);
    if expected.is_none() {
        put_last(list, change.put)?;
    }
    bench.same_refusal(Sort::Added, expected, answer)
}

fn change_closures<N: Network>(
    bench: &mut Bench,
    layer: &mut Closures<N>,
    list: &mut Vec<Standing>,
    arcs: u32,
) -> Result<(), Trouble> {
    let change = any_change(bench, arcs, false);
    let arc = change.put.arc;
    let answer = if change.lifts {
        refused_by(layer.lift(arc))
    } else {
        refused_by(layer.add(Closure { arc }))
    };
    change_list(bench, list, change, arcs, MOST_CLOSURES, answer)
}

fn change_detours<N: Network>(
    bench: &mut Bench,
    layer: &mut Detours<N>,
    list: &mut Vec<Standing>,
    arcs: u32,
) -> Result<(), Trouble> {
    let change = any_change(bench, arcs, true);
    let Standing { arc, units } = change.put;
    let answer = if change.lifts {
        refused_by(layer.lift(arc))
    } else {
        refused_by(layer.add(Detour { arc, units }))
    };
    change_list(bench, list, change, arcs, MOST_DETOURS, answer)
}

// Some changes in each layer; now and then as many as fill them.
pub(crate) fn change_pile<N: Network>(
    bench: &mut Bench,
    pile: &mut Pile<N>,
    strata: &mut Strata,
    arcs: u32,
) -> Result<(), Trouble> {
    let changes = bench.random.one_of(&[0, 1, 2, 6, 200]);
    for _ in 0..changes {
        let longer_above = &mut *pile;
        change_detours(bench, longer_above, &mut strata.longer_above, arcs)?;
        let closed_above = &mut longer_above.below;
        change_closures(bench, closed_above, &mut strata.closed_above, arcs)?;
        let longer = &mut closed_above.below;
        change_detours(bench, longer, &mut strata.longer, arcs)?;
        change_closures(bench, &mut longer.below, &mut strata.closed, arcs)?;
    }
    Ok(())
}
