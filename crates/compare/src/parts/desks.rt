// Desks beside plain ledgers.
use crate::beside::{any_bays, says_the_same, told_fault};
use crate::plain::{Bays, Ledger, Refused, making_refusal};
use crate::seeded::{Bench, Sort, Trouble, any_below};
use board::HoldFault;
use desk::{Desk, DeskFault};

// The number that a hold is kept under, or what the board refuses.
fn told(held: Result<u32, DeskFault>) -> Result<Result<u32, Refused>, Trouble> {
    match held {
        Ok(name) => Ok(Ok(name)),
        Err(DeskFault::Refused(fault)) => Ok(Err(refused(fault))),
        Err(DeskFault::NoMemory) => Err(Trouble::NoMemory),
        Err(DeskFault::NoNumber) => Err(Trouble::Differs(Sort::DeskHoldings)),
    }
}

fn refused(fault: HoldFault) -> Refused {
    told_fault(Some(fault)).unwrap_or(Refused::call(0))
}

fn compare_holding(bench: &mut Bench, desk: &mut Desk, ledger: &mut Ledger) -> Result<(), Trouble> {
    let site = any_below(&mut bench.random, ledger.bays.sites());
    let held = told(desk.hold(site))?;
    let expected = ledger.hold(site)?;
    bench.same_refusal(Sort::DeskHoldings, expected.err(), held.err())?;
    bench.same(Sort::DeskNames, expected.ok() == held.ok())
}

fn compare_back(bench: &mut Bench, desk: &mut Desk, ledger: &mut Ledger) -> Result<(), Trouble> {
    let name = any_below(&mut bench.random, ledger.next);
    let site = desk.back(name);
    bench.same(Sort::DeskBacks, site == ledger.back(name))
}

fn compare_calls(bench: &mut Bench, desk: &mut Desk, ledger: &mut Ledger) -> Result<(), Trouble> {
    for _ in 0..bench.random.one_of(&[0, 3, 12, 60]) {
        if bench.random.below(5) < 3 {
            compare_holding(bench, desk, ledger)?;
        } else {
            compare_back(bench, desk, ledger)?;
        }
        let same = says_the_same(desk.board(), &ledger.bays);
        bench.same(Sort::DeskCounts, same)?;
    }
    Ok(())
}

// The desk is closed whatever was found.
fn compare_open(bench: &mut Bench, desk: Desk, ledger: &mut Ledger) -> Result<(), Trouble> {
    let mut desk = desk;
    let called = compare_calls(bench, &mut desk, ledger);
    let board = desk.close();
    called?;
    ledger.close();
    bench.same(Sort::Closed, says_the_same(&board, &ledger.bays))
}

pub(crate) fn compare_desk(bench: &mut Bench) -> Result<(), Trouble> {
    let sites = bench.random.one_of(&[0, 1, 2, 5, 20, 64]);
    let counts = any_bays(bench, sites)?;
    let number = bench.random.word();
    let mut ledger = Ledger {
        bays: Bays::new(bench.heap, number, &counts)?,
        kept: Vec::new(bench.heap),
        next: 0,
    };
    let expected = making_refusal(&counts);
    match Desk::open(bench.heap, number, &counts) {
        Ok(desk) => {
            let opened = compare_open(bench, desk, &mut ledger);
            bench.same_refusal(Sort::Desks, expected, None)?;
            opened
        }
        Err(fault) => bench.same_refusal(Sort::Desks, expected, told_fault(Some(fault))),
    }
}
