// What the roads' index has, and what they estimate by it.
use crate::readings::Given;
use crate::screen::Screen;
use console::estimate_from;
use network::Guide;
use rows::NO_SITE;

// All entries of a row, each as it stands in the lists; a missing one has no clock time.
pub(crate) fn show_index(screen: Screen, row: Option<(&[u32], &[u32])>) -> anyhow::Result<()> {
    let rt = screen.rt;
    let Some((sites, times)) = row else {
        return Ok(println!(rt; "nothing")?);
    };
    print!(rt; "entries")?;
    for (site, time) in sites.iter().zip(times) {
        if *site == NO_SITE {
            print!(rt; " {site} {time}")?;
        } else {
            print!(rt; " {site} {}", screen.seconds(*time))?;
        }
    }
    Ok(println!(rt)?)
}

pub(crate) fn show_estimate<G: Guide>(
    screen: Screen,
    guide: &G,
    junction: u32,
    reading: Option<G::Reading>,
    sites: &[u32],
) -> anyhow::Result<()>
where
    G::Reading: Given,
{
    let rt = screen.rt;
    match estimate_from(guide, junction, reading, sites) {
        Some(estimate) => println!(rt; "estimate {}", screen.reading(estimate))?,
        None => println!(rt; "nothing")?,
    }
    Ok(())
}
