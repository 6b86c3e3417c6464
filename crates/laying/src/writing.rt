// Writing rows into the lists of an index.
ghost use Rattle.std.specs.Prelude.{◌≡◌, ◌+◌, ◌<◌, ◌≤◌, length};
ghost use Rattle.laying.specs.Places.{Stands, SameOutside};
ghost use Rattle.rows.specs.Index.{place_at};

use rows::{Entry, NO_SITE};

// Where the row of a junction in a segment begins, of so many junctions with so many entries each.
pub(crate) fn place_of(junctions: u32, most: u32, segment: u32, junction: u32) -> usize
    requires few { junctions ≤ 4096 }
    requires short { most ≤ 8 }
    requires segment { segment < 8 }
    requires there { junction < junctions }
    ensures { result ≡ place_at junctions most segment junction 0 }
{
    (segment as usize * junctions as usize + junction as usize) * most as usize
}

// Missing entries stand after the row's own.
pub(crate) fn write_row(
    row: &[Entry],
    most: usize,
    place: usize,
    sites: &mut [u32],
    times: &mut [u32],
)
    requires sites { place + most ≤ length sites.old }
    requires times { place + most ≤ length times.old }
    ensures row { Stands row.now most place sites.new times.new }
    ensures rest { SameOutside place (place + most) sites.old times.old sites.new times.new }
{
    for r in 0..most {
        let entry = row.get(r).copied().unwrap_or(Entry {
            site: NO_SITE,
            time: 0,
        });
        sites[place + r] = entry.site;
        times[place + r] = entry.time;
    }
}
