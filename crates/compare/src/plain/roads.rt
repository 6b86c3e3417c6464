// Roads by the rules: every question is answered by looking through plain lists.
use crate::plain::arrivals::arrival;
use crate::plain::depots::Depot;
use crate::plain::guiding::guided_estimate;
use crate::plain::index::Index;
use crate::plain::lists::at;
use crate::plain::readings::{Far, Kind};
use crate::plain::strata::Strata;

#[derive(Clone, Copy)]
pub(crate) struct Roads<'a> {
    pub(crate) kind: Kind,
    pub(crate) depot: &'a Depot,
    pub(crate) strata: &'a Strata,
    pub(crate) index: Option<&'a Index>,
}

impl Roads<'_> {
    pub(crate) fn tail(&self, arc: u32) -> Option<u32> {
        if arc >= self.depot.arcs() {
            return None;
        }
        (0..self.depot.junctions()).find(|v| at(&self.depot.starts, *v) <= arc
            && arc < at(&self.depot.starts, v.saturating_add(1)))
    }

    pub(crate) fn head(&self, arc: u32) -> Option<u32> {
        (arc < self.depot.arcs()).then_some(at(&self.depot.heads, arc))
    }

    pub(crate) fn place(&self, site: u32) -> Option<u32> {
        (site < self.depot.site_count()).then_some(at(&self.depot.sites, site))
    }

    pub(crate) fn next_arc(&self, junction: u32, from: u32) -> Option<u32> {
        let (first, end) = self.depot.leaving(junction);
        (first..end).find(|arc| *arc >= from)
    }

    // With nothing on any arc.
    fn bare_carry(&self, arc: u32, reading: Far) -> Option<Far> {
        if arc >= self.depot.arcs() {
            return None;
        }
        match self.kind {
            Kind::Clock => Some(Far {
                far: arrival(self.depot, arc, reading.far)?,
                passed: 0,
            }),
            Kind::Length => self.kind.lengthen(
                Far {
                    far: reading.far,
                    passed: reading.passed.saturating_add(1).min(65_535),
                },
                at(&self.depot.metres, arc),
            ),
        }
    }

    pub(crate) fn carry(&self, arc: u32, reading: Far) -> Option<Far> {
        if self.strata.is_closed(arc) {
            return None;
        }
        let mut arrived = self.bare_carry(arc, reading)?;
        for units in self.strata.units(arc) {
            arrived = self.kind.lengthen(arrived, units)?;
        }
        Some(arrived)
    }

    // By the index; with none, the reading itself.
    pub(crate) fn estimate(&self, junction: u32, reading: Far, wanted: &[bool]) -> Option<Far> {
        if junction >= self.depot.junctions() {
            return None;
        }
        let Some(index) = self.index else {
            return Some(reading);
        };
        let far = guided_estimate(self.depot, index, junction, reading.far, wanted)?;
        Some(Far { far, passed: 0 })
    }
}
