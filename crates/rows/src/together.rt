// A row of what is offered at a junction: the sites that stand there, and what the rows at the heads of its arcs list.
ghost use Rattle.std.specs.Prelude.{◌≡◌, ◌≤◌, ◌↔◌, IsSome, IfSome, is_some, length, min};
ghost use Rattle.std.specs.List.{list_all};
ghost use Rattle.rows.specs.Index.{read_row};
ghost use Rattle.rows.specs.Offering.{fits, fitting, offer_all, offer_sites};

use crate::entry::Entry;
use crate::padded::NO_SITE;
use crate::row::Row;
use network::Network;

impl Row {
    // The sites that stand at the junction, at no time; nothing where a row cannot hold so many.
    pub fn standing<N: Network>(roads: &N, most: u32, junction: u32) -> Option<Row>
        ensures variant { IsSome result ↔ (most ≤ 8) }
        ensures most { IfSome result (λ r. r.most ≡ most) }
        ensures entries { IfSome result (λ r. let m = N.roads roads.now in r.entries.items ≡ offer_sites m most junction m.sites) }
    {
        let mut row = Row::new(most)?;
        for site in 0..roads.sites() {
            if roads.place(site) == Some(junction) {
                row.offer(Entry { site, time: 0 });
            }
        }
        Some(row)
    }

    // Offers the entries of a row of the index, each later by some time, up to the first whose time would not fit; nothing
    // where there is one.
    pub fn offer_later(&mut self, sites: &[u32], times: &[u32], by: u32) -> Option<()>
        ensures variant { is_some result ≡ list_all (fits by) (read_row sites.now times.now (min (length sites.now) (length times.now)) 0) }
        ensures entries { self.new.entries.items ≡ offer_all self.old.most by (fitting by (read_row sites.now times.now (min (length sites.now) (length times.now)) 0)) self.old.entries.items }
        ensures most { self.new.most ≡ self.old.most }
    {
        for (site, time) in sites.iter().zip(times) {
            if *site == NO_SITE {
                return Some(());
            }
            let time = by.checked_add(*time)?;
            self.offer(Entry { site: *site, time });
        }
        Some(())
    }
}
