// Asking for the soonest sites, in room that is made for each asking.
use crate::readings::Given;
use crate::screen::Screen;
use crate::ways::{Trip, print_way};
use board::Board;
use finder::{Answer, Listing, MOST_ASKED, Mark, Question, ask};
use network::Guide;
use queue::{Key, Slot};

// Where nothing is refused, the ways are those that the asking leaves.
pub(crate) fn show_ask<G: Guide>(
    screen: Screen,
    guide: &G,
    board: &Board,
    ways: &mut [u32],
    question: Question,
) -> anyhow::Result<()>
where
    G::Reading: Given,
{
    let heap = screen.rt.alloc();
    let junctions = guide.junctions() as usize;
    let mut marks = vec![in heap; Mark::new(); junctions]?;
    let nothing = Key {
        height: 0,
        junction: 0,
    };
    let mut slots = vec![in heap; Slot::new(nothing); junctions]?;
    // Without a start reading the asking is refused, and needs no room for answers.
    let mut answers = match guide.start(question.number) {
        Some(reading) => vec![in heap; Answer { site: 0, reading }; MOST_ASKED as usize]?,
        None => Vec::new(heap),
    };
    let asked = ask(
        guide,
        board,
        question,
        answers.as_mut_slice(),
        ways,
        marks.as_mut_slice(),
        slots.as_mut_slice(),
    );
    match asked {
        Ok(listing) => show_listing(screen, guide, ways, question, listing, answers.as_slice()),
        Err(fault) => screen.refusal(fault),
    }
}

// The sites that are listed, each with its reading and the arcs to it.
fn show_listing<G: Guide>(
    screen: Screen,
    guide: &G,
    ways: &[u32],
    question: Question,
    listing: Listing,
    answers: &[Answer<G::Reading>],
) -> anyhow::Result<()>
where
    G::Reading: Given,
{
    let rt = screen.rt;
    let Listing { count, steps } = listing;
    println!(rt; "listed {count} steps {steps}")?;
    for answer in answers.iter().take(count as usize) {
        let Answer { site, reading } = *answer;
        print!(rt; "site {site} reading {}", screen.reading(reading))?;
        if let Some(place) = guide.place(site) {
            let trip = Trip {
                from: question.junction,
                number: question.number,
                to: place,
            };
            print_way(rt, guide, ways, trip)?;
        }
        println!(rt)?;
    }
    Ok(())
}
