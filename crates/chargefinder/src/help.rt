// How the program is used, in a dispatcher's words.
pub(crate) fn show_help(rt: &HostRuntime) -> anyhow::Result<()> {
    for line in CALL.iter().chain(COMMANDS) {
        println!(rt; "{line}")?;
    }
    Ok(())
}

const CALL: &[&str] = &[
    "chargefinder says which free chargers a van reaches soonest, from where it is and when it leaves.",
    "",
    "  chargefinder [--times] [DEPOT [KIND]]",
    "  chargefinder --help",
    "",
    "DEPOT is a file with a town's streets and chargers; where none is named it is a town of four junctions.",
    "KIND says by what roads are measured, clock where none is named:",
    "  clock    by seconds, as long as each street takes at that hour",
    "  guided   the same, with an index of the nearest chargers, so that fewer junctions are looked at",
    "  length   by metres",
    "--times shows hours, minutes and seconds beside seconds, as 29400 (08:10:00). It may stand before or after DEPOT.",
    "",
    "Commands are read from the input, one a line, until it ends. After a # the rest of a line is passed over.",
    "Junctions, arcs (a street between two junctions, in one direction), sites (a place with a charger) and segments",
    "(parts of the day) go by their numbers in DEPOT, from 0. START is the second of the day at which the van leaves,",
    "29400 for 08:10; on length roads it is the metres that the van has come already.",
    "",
];

const COMMANDS: &[&str] = &[
    "  ask JUNCTION START K             the K free chargers that are reached soonest, when, and by which arcs",
    "  trace FROM START TO              the drive from one junction to another, as the last ask found it",
    "  ways                             for each junction the arc by which the last ask came there, 65535 for none",
    "  drive START ARC ARC ..           when a van that drives these arcs gets to the end of each",
    "  carry ARC SECONDS                when a van that enters the arc at that second gets to its end",
    "  hold SITE                        takes a free bay of the site, and says the number of the hold",
    "  back HOLD                        hands that bay back",
    "  close ARC, reopen ARC            no van drives along the arc until it is reopened",
    "  detour ARC UNITS, lift ARC       the arc takes so many seconds or metres more until that is lifted",
    "  estimate JUNCTION SECONDS SITES  from that second on, a moment before which none of the sites is reached",
    "  index SEGMENT JUNCTION           on guided roads: the nearest sites, and the least time to each in that segment",
    "  roads KIND                       other roads of the same town, with no arc closed and no detour; holds stay",
    "",
    "On length roads the reading that carry and estimate take is two numbers, METRES and the ARCS passed.",
];
