// How a program that compares begins and ends.
use crate::seeded::bench::Bench;
use crate::seeded::random::Random;
use crate::seeded::report::Report;
use crate::seeded::trouble::Trouble;
use std::env;

// How many rounds there are, and the seed of the first, as the arguments say; each round has the next seed.
pub(crate) fn rounds_and_seed(rt: &HostRuntime, rounds: u64) -> anyhow::Result<(u64, u64)> {
    let mut words = env::args(rt)?.skip(1);
    let mut numbers = [rounds, 1];
    for number in numbers.iter_mut() {
        if let Some(word) = words.next() {
            *number = word.as_str().parse::<u64>()?;
        }
    }
    let [rounds, seed] = numbers;
    Ok((rounds, seed))
}

pub(crate) fn first_bench(rt: &HostRuntime, seed: u64) -> Bench {
    Bench {
        heap: rt.alloc(),
        random: Random::seeded(seed),
        report: Report::empty(),
    }
}

// A difference is printed with the seed of its round, and is an error.
pub(crate) fn end(
    rt: &HostRuntime,
    seed: u64,
    compared: Result<(), Trouble>,
) -> anyhow::Result<()> {
    match compared {
        Ok(()) => Ok(()),
        Err(Trouble::NoMemory) => anyhow::bail!("no memory"),
        Err(Trouble::Differs(sort)) => {
            let name = sort.name();
            println!(rt; "they differ at seed {seed}: {name}")?;
            anyhow::bail!("they differ")
        }
    }
}

// The counts, once nothing differed.
pub(crate) fn show(rt: &HostRuntime, rounds: u64, bench: &Bench) -> anyhow::Result<()> {
    println!(rt; "rounds: {rounds}")?;
    bench.report.show(rt)?;
    println!(rt; "none differ")?;
    Ok(())
}
