// Compares the library with a second, plain implementation of the rules, on depots, days, calls and texts that are made at
// random.
#![tactic(auto)]

mod beside;
mod edges;
mod holds;
mod index;
mod parts;
mod plain;
mod rounds;
mod scenes;
mod seeded;
mod tables;
mod tracings;
mod twins;

use edges::compare_edges;
use seeded::{Bench, Random, Trouble, end, first_bench, rounds_and_seed, show};

const ROUNDS: u64 = 2_000;

fn main(rt: HostRuntime) -> anyhow::Result<()> {
    run(&rt)
}

fn compare_round(bench: &mut Bench, seed: u64) -> Result<(), Trouble> {
    rounds::compare_round(bench, seed)?;
    index::compare_round(bench)?;
    parts::compare_round(bench)
}

// The lists at their longest first, and then round after round.
fn run(rt: &HostRuntime) -> anyhow::Result<()> {
    let (rounds, first) = rounds_and_seed(rt, ROUNDS)?;
    let mut bench = first_bench(rt, first);
    end(rt, first, compare_edges(&mut bench))?;
    for round in 0..rounds {
        let seed = first.wrapping_add(round);
        bench.random = Random::seeded(seed);
        end(rt, seed, compare_round(&mut bench, seed))?;
    }
    show(rt, rounds, &bench)
}
