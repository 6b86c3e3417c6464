// Reads a line as a command.
ghost use Rattle.std.specs.Prelude.{◌≡◌};
ghost use Rattle.console.specs.Commands.{asks_for_roads, command_of, kind_in};
ghost use Rattle.console.specs.Told.{blamed, Blames, misread, told};
ghost use Rattle.depot.specs.Cuts.{words};
ghost use Rattle.depot.specs.Says.{Tells};

use crate::kinds::Kind;
use crate::messages::{Misuse, Misused};
use crate::verbs::Verb;
use depot::{EntryFault, TextFault, by_name, first_word, read_numbers, split_name};
use std::alloc::Global;

// What a line asks for.
#[derive(Debug, Drop)]
pub enum Command {
    Roads(Kind),
    Call(Verb, Vec<u32>),
}

// Why a line is no command.
pub type CommandFault = TextFault<Misused>;

fn blame(heap: Global, word: &[u8], misuse: Misuse) -> CommandFault
    ensures { Blames result word.now misuse }
{
    Vec::from_slice(heap, word).map_or(TextFault::Memory, |word| {
        TextFault::Wrong(Misused { word, misuse })
    })
}

fn misread(fault: EntryFault) -> CommandFault
    ensures { result ≡ misread fault }
{
    match fault {
        TextFault::Memory => TextFault::Memory,
        TextFault::Wrong(wrong) => TextFault::Wrong(Misused {
            word: wrong.word,
            misuse: Misuse::Number(wrong.what),
        }),
    }
}

impl Verb {
    fn asks_for_roads(self) -> bool
        ensures { result ≡ asks_for_roads self }
    {
        matches!(self, Verb::Roads)
    }
}

// The kind of roads that the one word after a name names.
fn read_kind(heap: Global, name: &[u8], rest: &[u8]) -> Result<Kind, CommandFault>
    ensures { Tells (λ k. k) blamed result (kind_in name.now (words rest.now)) }
{
    let Some((word, more)) = first_word(rest) else {
        return Err(blame(heap, name, Misuse::Takes(Verb::Roads)));
    };
    if first_word(more).is_some() {
        return Err(blame(heap, name, Misuse::Takes(Verb::Roads)));
    }
    by_name(word).ok_or_else(|| blame(heap, word, Misuse::NotAKind))
}

// The command of a line, or none where it has no word.
pub fn read_command(heap: Global, line: &[u8]) -> Result<Option<Command>, CommandFault>
    ensures { Tells told blamed result (command_of line.now) }
{
    let Some((name, rest)) = split_name(line) else {
        return Ok(None);
    };
    let verb: Verb = by_name(name).ok_or_else(|| blame(heap, name, Misuse::NotACommand))?;
    if verb.asks_for_roads() {
        let kind = read_kind(heap, name, rest)?;
        return Ok(Some(Command::Roads(kind)));
    }
    let numbers = read_numbers(heap, rest).map_err(misread)?;
    Ok(Some(Command::Call(verb, numbers)))
}
