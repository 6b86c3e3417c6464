// The charge finder: reads a depot, then answers one command a line.
#![tactic(auto)]

mod asking;
mod commands;
mod guiding;
mod help;
mod holding;
mod layered;
mod moves;
mod readings;
mod screen;
mod session;
mod ways;

use anyhow::bail;
use console::{Kind, Options};
use depot::read_depot;
use help::show_help;
use screen::Screen;
use session::Session;
use std::{env, fs};
use town::four_junctions;

fn main(rt: HostRuntime) -> anyhow::Result<()> {
    run(&rt)
}

// With no depot named it is the one that is built in.
fn run(rt: &HostRuntime) -> anyhow::Result<()> {
    let Options {
        help,
        times,
        depot,
        kind,
    } = read_options(rt)?;
    if help {
        return show_help(rt);
    }
    let screen = Screen { rt, times };
    match depot {
        None => serve_built_in(screen),
        Some(path) => serve_file(screen, path.as_str(), kind.unwrap_or(Kind::Clock)),
    }
}

fn read_options(rt: &HostRuntime) -> anyhow::Result<Options> {
    let mut options = Options::new();
    for word in env::args(rt)?.skip(1) {
        match options.with(word) {
            Ok(more) => options = more,
            Err(word) => bail!(
                "'{word}' is not understood: chargefinder --help says how it is called"
            ),
        }
    }
    Ok(options)
}

// Where there is no line, some worked askings are shown.
fn serve_built_in(screen: Screen) -> anyhow::Result<()> {
    let depot = four_junctions(screen.rt.alloc())?;
    let Some(mut session) = Session::open(screen, &depot, Kind::Clock)? else {
        return Ok(());
    };
    let served = session.serve_or_show();
    session.close();
    served
}

fn serve_file(screen: Screen, path: &str, kind: Kind) -> anyhow::Result<()> {
    let rt = screen.rt;
    let text = match fs::read(rt, path) {
        Ok(text) => text,
        Err(fault) => bail!("'{path}' cannot be read: {fault}"),
    };
    match read_depot(rt.alloc(), text.as_slice()) {
        Ok(depot) => {
            let Some(mut session) = Session::open(screen, &depot, kind)? else {
                return Ok(());
            };
            let served = session.serve();
            session.close();
            served.map(|_lines| ())
        }
        Err(fault) => Ok(println!(rt; "{fault}")?),
    }
}
