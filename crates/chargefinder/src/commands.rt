// The commands: each is computed by a library function, and printed here.
use crate::asking::show_ask;
use crate::guiding::{show_estimate, show_index};
use crate::holding::{show_back, show_hold};
use crate::layered::{Layered, Opened, Piled};
use crate::moves::{show_carry, show_change, show_drive};
use crate::readings::Given;
use crate::screen::Screen;
use crate::ways::{Trip, show_trace, show_ways};
use board::Board;
use console::{Misuse, Verb};
use desk::Desk;
use finder::Question;
use layers::{Closure, Detour};
use network::{Guide, Network};

// What a line asks for, beside other roads.
#[derive(Clone, Copy)]
pub struct Request<'a> {
    pub line: u64,
    pub verb: Verb,
    pub numbers: &'a [u32],
}

impl Request<'_> {
    // Its numbers are too few or too many.
    fn misuse(&self, screen: Screen) -> anyhow::Result<()> {
        let Request {
            line,
            verb,
            numbers: _,
        } = *self;
        Ok(println!(screen.rt; "line {line}: '{verb}' {}", Misuse::Takes(verb))?)
    }
}

impl Opened {
    // What needs no roads is answered here, the rest on the roads that are open.
    pub(crate) fn act(
        &mut self,
        screen: Screen,
        desk: &mut Desk,
        request: Request,
    ) -> anyhow::Result<()> {
        match (request.verb, request.numbers) {
            (Verb::Hold, [site]) => show_hold(screen, desk, *site),
            (Verb::Back, [name]) => show_back(screen, desk, *name),
            (Verb::Ways, []) => show_ways(screen.rt, self.ways.as_slice()),
            (Verb::Index, [segment, junction]) => {
                show_index(screen, self.roads.index_row(*segment, *junction))
            }
            _ => self.act_on_roads(screen, desk.board(), request),
        }
    }

    fn act_on_roads(
        &mut self,
        screen: Screen,
        board: &Board,
        request: Request,
    ) -> anyhow::Result<()> {
        let ways = self.ways.as_mut_slice();
        match &mut self.roads {
            Layered::Clock(roads) => act_on(screen, roads, ways, board, request),
            Layered::Guided(roads) => act_on(screen, roads, ways, board, request),
            Layered::Length(roads) => act_on(screen, roads, ways, board, request),
        }
    }
}

// These commands go alike on every kind of roads.
fn act_on<G: Guide>(
    screen: Screen,
    roads: &mut Piled<G>,
    ways: &mut [u32],
    board: &Board,
    request: Request,
) -> anyhow::Result<()>
where
    G::Reading: Given,
{
    match (request.verb, request.numbers) {
        (Verb::Ask, &[junction, number, k]) => {
            let question = Question {
                junction,
                number,
                k,
            };
            show_ask(screen, roads, board, ways, question)
        }
        (Verb::Trace, &[from, number, to]) => {
            show_trace(screen, roads, ways, Trip { from, number, to })
        }
        (Verb::Drive, [start, arcs @ ..]) => show_drive(screen, roads, *start, arcs),
        (Verb::Carry | Verb::Estimate, [place, numbers @ ..]) => {
            act_at_reading(screen, roads, request, *place, numbers)
        }
        _ => change_layers(screen, roads, request),
    }
}

// The commands that are given a reading, after an arc or a junction.
fn act_at_reading<G: Guide>(
    screen: Screen,
    roads: &Piled<G>,
    request: Request,
    place: u32,
    numbers: &[u32],
) -> anyhow::Result<()>
where
    G::Reading: Given,
{
    match (request.verb, G::Reading::given(numbers)) {
        (Verb::Estimate, Some((reading, sites))) => {
            show_estimate(screen, roads, place, reading, sites)
        }
        (Verb::Carry, Some((reading, []))) => show_carry(screen, roads, place, reading),
        _ => request.misuse(screen),
    }
}

fn change_layers<N: Network>(
    screen: Screen,
    roads: &mut Piled<N>,
    request: Request,
) -> anyhow::Result<()> {
    match (request.verb, request.numbers) {
        (Verb::Close, [arc]) => show_change(screen, "closed", roads.add(Closure { arc: *arc })),
        (Verb::Reopen, [arc]) => show_change(screen, "reopened", roads.lift(*arc)),
        (Verb::Detour, [arc, units]) => {
            let detour = Detour {
                arc: *arc,
                units: *units,
            };
            show_change(screen, "detoured", roads.below.add(detour))
        }
        (Verb::Lift, [arc]) => show_change(screen, "lifted", roads.below.lift(*arc)),
        _ => request.misuse(screen),
    }
}
