// Runs and times what the library does most, on a grid of streets that is made here. What was computed is printed, and how
// long it took goes to standard error.
#![tactic(auto)]

mod asking;
mod carrying;
mod grid;
mod indexing;
mod random;
mod sizes;
mod sums;
mod timing;

use asking::{Room, ask_from_all};
use board::Board;
use carrying::{carry_all, enterings};
use clock::{ClockRoads, ClockTables, Seconds};
use grid::grid;
use indexing::{lay_index, load_index};
use network::{Guide, MOST_SITES, Network};
use sizes::Sizes;
use std::env;
use sums::Sum;
use timing::Timing;

fn main(rt: HostRuntime) -> anyhow::Result<()> {
    run(&rt)
}

// The sizes may be said: SIDE CARRYINGS SITES SEGMENTS NEAREST, or the first of them.
fn run(rt: &HostRuntime) -> anyhow::Result<()> {
    let mut numbers = Vec::new(rt.alloc());
    for word in env::args(rt)?.skip(1) {
        numbers.push(word.as_str().parse::<u32>()?)?;
    }
    measure(rt, Sizes::of(&numbers))
}

fn measure(rt: &HostRuntime, sizes: Sizes) -> anyhow::Result<()> {
    let tables = grid(rt.alloc(), sizes)?;
    show_tables(rt, sizes.side, &tables)?;
    let Ok(roads) = ClockRoads::try_from(tables) else {
        anyhow::bail!("the tables are refused")
    };
    let bays = [2; MOST_SITES];
    let Ok(board) = Board::new(1, &bays[..sizes.sites]) else {
        anyhow::bail!("the board is refused")
    };
    time_carrying(rt, &roads, sizes.carryings)?;
    time_asking(rt, "ask-bare", &roads, &board)?;
    let (index, mut work) = lay_index(rt, roads, sizes)?;
    let guided = load_index(rt, index, work.as_mut_slice())?;
    time_asking(rt, "ask-guided", &guided, &board)
}

fn show_tables(rt: &HostRuntime, side: u32, tables: &ClockTables) -> anyhow::Result<()> {
    let arcs = tables.heads.len();
    let points = tables.departures.len();
    let sites = Sum::of(&tables.sites).value();
    let heads = Sum::of(&tables.heads).value();
    let arrivals = Sum::of(&tables.arrivals).value();
    Ok(println!(rt;
        "grid {side} arcs {arcs} points {points} heads {heads} arrivals {arrivals} sites {sites}"
    )?)
}

fn time_carrying(rt: &HostRuntime, roads: &ClockRoads, carryings: u32) -> anyhow::Result<()> {
    let enterings = enterings(rt.alloc(), roads.arcs(), carryings)?;
    let timing = Timing::begun(rt)?;
    let sum = carry_all(roads, &enterings);
    timing.show(rt, "carry")?;
    Ok(println!(rt; "carry {carryings} arrivals {sum}")?)
}

fn time_asking<G: Guide<Reading = Seconds>>(
    rt: &HostRuntime,
    name: &str,
    guide: &G,
    board: &Board,
) -> anyhow::Result<()> {
    let Some(reading) = Seconds::new(0) else {
        anyhow::bail!("no reading")
    };
    let mut room = Room::of(rt.alloc(), guide.junctions(), reading)?;
    let timing = Timing::begun(rt)?;
    let Ok(totals) = ask_from_all(guide, board, &mut room) else {
        anyhow::bail!("an asking is refused")
    };
    timing.show(rt, name)?;
    let listed = totals.listed;
    let steps = totals.steps;
    let sites = totals.sites.value();
    let readings = totals.readings.value();
    Ok(println!(rt; "{name} listed {listed} steps {steps} sites {sites} readings {readings}")?)
}
