// Holding bays, and handing them back.
use crate::screen::Screen;
use desk::{Desk, DeskFault};

pub(crate) fn show_hold(screen: Screen, desk: &mut Desk, site: u32) -> anyhow::Result<()> {
    let rt = screen.rt;
    match desk.hold(site) {
        Ok(name) => println!(rt; "hold {name} site {site}")?,
        Err(DeskFault::Refused(fault)) => screen.refusal(fault)?,
        Err(DeskFault::NoNumber) => println!(rt; "no number is left for another hold")?,
        Err(DeskFault::NoMemory) => println!(rt; "no memory for another hold")?,
    }
    Ok(())
}

pub(crate) fn show_back(screen: Screen, desk: &mut Desk, name: u32) -> anyhow::Result<()> {
    let rt = screen.rt;
    match desk.back(name) {
        Some(site) => println!(rt; "freed site {site}")?,
        None => println!(rt; "no such hold")?,
    }
    Ok(())
}
