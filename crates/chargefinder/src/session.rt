// A depot, the roads on which its commands are answered, and the desk at which its bays are held.
use crate::commands::Request;
use crate::layered::{Opened, open_roads};
use crate::screen::Screen;
use console::{Command, Kind, read_command};
use depot::Depot;
use desk::Desk;

pub struct Session<'a> {
    screen: Screen<'a>,
    depot: &'a Depot,
    opened: Opened,
    desk: Desk,
}

impl<'a> Session<'a> {
    // None where the roads or the board are refused, which is said.
    pub(crate) fn open(
        screen: Screen<'a>,
        depot: &'a Depot,
        kind: Kind,
    ) -> anyhow::Result<Option<Session<'a>>> {
        let Some(opened) = open_roads(screen, depot, kind)? else {
            return Ok(None);
        };
        match Desk::open(screen.rt.alloc(), depot.board, depot.bays.as_slice()) {
            Ok(desk) => Ok(Some(Session {
                screen,
                depot,
                opened,
                desk,
            })),
            Err(fault) => {
                screen.refusal(fault)?;
                Ok(None)
            }
        }
    }

    // Every hold that is still kept is handed back.
    pub(crate) fn close(self) {
        let Session {
            screen: _,
            depot: _,
            opened: _,
            desk,
        } = self;
        let _board = desk.close();
    }

    // One command a line; how many lines there were. A line beyond those that can be numbered is not read.
    pub(crate) fn serve(&mut self) -> anyhow::Result<u64> {
        let rt = self.screen.rt;
        let mut served = 0;
        for (number, line) in (1..=u64::MAX).zip(rt.lines(rt.alloc())) {
            self.answer(number, line?.as_bytes())?;
            served = number;
        }
        Ok(served)
    }

    fn answer(&mut self, number: u64, line: &[u8]) -> anyhow::Result<()> {
        let rt = self.screen.rt;
        match read_command(rt.alloc(), line) {
            Ok(Some(Command::Roads(kind))) => self.change_roads(kind),
            Ok(Some(Command::Call(verb, numbers))) => {
                let request = Request {
                    line: number,
                    verb,
                    numbers: numbers.as_slice(),
                };
                self.opened.act(self.screen, &mut self.desk, request)
            }
            Ok(None) => Ok(()),
            Err(fault) => Ok(println!(rt; "line {number}: {fault}")?),
        }
    }

    // Other roads of the same depot, with no arc closed, no detour and no way known; where they are refused, all stays.
    fn change_roads(&mut self, kind: Kind) -> anyhow::Result<()> {
        if let Some(other) = open_roads(self.screen, self.depot, kind)? {
            self.opened = other;
        }
        Ok(())
    }

    // Where there is no line, some askings on the built-in depot are shown, each before its answer.
    pub(crate) fn serve_or_show(&mut self) -> anyhow::Result<()> {
        if self.serve()? == 0 {
            self.show_worked()?;
        }
        Ok(())
    }

    fn show_worked(&mut self) -> anyhow::Result<()> {
        let rt = self.screen.rt;
        for line in [
            "ask 0 28000 2",
            "ways",
            "ask 0 28800 2",
            "drive 28800 1 3",
            "ask 0 30500 1",
            "ask 0 86400 2",
            "ask 0 86401 2",
            "hold 1",
            "ask 0 28000 2",
            "back 0",
            "close 3",
            "ask 0 28000 2",
            "roads guided",
            "index 0 3",
            "estimate 2 32350 0",
            "ask 2 32350 1",
            "roads length",
            "ask 0 0 2",
        ] {
            println!(rt; "> {line}")?;
            self.answer(0, line.as_bytes())?;
        }
        Ok(())
    }
}
