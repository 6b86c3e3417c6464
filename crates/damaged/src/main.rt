// Opens one depot file after another, and prints what each is answered as clock roads, as guided roads, as length roads and
// as a board, and what an asking without room is.
#![tactic(auto)]

use board::Board;
use clock::ClockRoads;
use console::{Kind, clock_tables, length_tables};
use depot::{Depot, read_depot};
use finder::{Question, ask};
use length::LengthRoads;
use network::{Guide, Refusal, Returned};
use opening::guided_roads;
use std::{env, fs};

fn main(rt: HostRuntime) -> anyhow::Result<()> {
    run(&rt)
}

fn run(rt: &HostRuntime) -> anyhow::Result<()> {
    for path in env::args(rt)?.skip(1) {
        print!(rt; "{path}: ")?;
        show(rt, path.as_str())?;
    }
    Ok(())
}

fn show(rt: &HostRuntime, path: &str) -> anyhow::Result<()> {
    let text = fs::read(rt, path)?;
    match read_depot(rt.alloc(), text.as_slice()) {
        Ok(depot) => show_opened(rt, &depot),
        Err(fault) => Ok(println!(rt; "{fault}")?),
    }
}

fn show_opened(rt: &HostRuntime, depot: &Depot) -> anyhow::Result<()> {
    let clock = ClockRoads::try_from(clock_tables(depot)?).map_err(fault_of);
    let clock = say(rt, Kind::Clock, clock)?;
    print!(rt; ", ")?;
    say(rt, Kind::Guided, guided_roads(rt.alloc(), depot)?)?;
    print!(rt; ", ")?;
    let length = LengthRoads::try_from(length_tables(depot)?).map_err(fault_of);
    say(rt, Kind::Length, length)?;
    print!(rt; ", ")?;
    let board = say_board(rt, depot)?;
    if let (Some(roads), Some(board)) = (clock, board) {
        say_asked(rt, &roads, &board)?;
    }
    println!(rt)?;
    Ok(())
}

// Why tables are refused, without the tables.
fn fault_of<T: Drop, F>(returned: Returned<T, F>) -> F {
    let Returned { fault, value: _ } = returned;
    fault
}

// The kind of the roads, or what they are refused by.
fn say<R: Drop, F: Into<Refusal>>(
    rt: &HostRuntime,
    kind: Kind,
    opened: Result<R, F>,
) -> anyhow::Result<Option<R>> {
    match opened {
        Ok(roads) => {
            print!(rt; "roads {kind}")?;
            Ok(Some(roads))
        }
        Err(fault) => {
            say_refusal(rt, fault)?;
            Ok(None)
        }
    }
}

fn say_refusal(rt: &HostRuntime, fault: impl Into<Refusal>) -> anyhow::Result<()> {
    let refusal: Refusal = fault.into();
    Ok(print!(rt; "{refusal}")?)
}

// The board's number, or what it is refused by.
fn say_board(rt: &HostRuntime, depot: &Depot) -> anyhow::Result<Option<Board>> {
    match Board::new(depot.board, depot.bays.as_slice()) {
        Ok(board) => {
            let number = board.number();
            print!(rt; "board {number}")?;
            Ok(Some(board))
        }
        Err(fault) => {
            say_refusal(rt, fault)?;
            Ok(None)
        }
    }
}

// An asking that is lent no room is refused for that, or for what comes before it in the order of refusals.
fn say_asked<G: Guide>(rt: &HostRuntime, guide: &G, board: &Board) -> anyhow::Result<()> {
    let question = Question {
        junction: 0,
        number: 0,
        k: 1,
    };
    let heap = rt.alloc();
    let asked = ask(
        guide,
        board,
        question,
        Vec::new(heap).as_mut_slice(),
        Vec::new(heap).as_mut_slice(),
        Vec::new(heap).as_mut_slice(),
        Vec::new(heap).as_mut_slice(),
    );
    if let Err(fault) = asked {
        print!(rt; ", asking without room ")?;
        say_refusal(rt, fault)?;
    }
    Ok(())
}
