// Asking by the rules: each step looks through all junctions for the least key.
use crate::plain::lists::{at, count, put};
use crate::plain::readings::Far;
use crate::plain::refused::Refused;
use crate::plain::roads::Roads;
use std::alloc::{AllocError, Global};

const NO_WAY: u32 = 65_535;

// From which junction and start number, for how many sites.
#[derive(Clone, Copy)]
pub(crate) struct Question {
    pub(crate) junction: u32,
    pub(crate) number: u32,
    pub(crate) k: u32,
}

// A site, and the reading that arrives there.
#[derive(Clone, Copy, PartialEq, Eq)]
pub(crate) struct Listed {
    pub(crate) site: u32,
    pub(crate) reading: Far,
}

// How long the lists are that a call is lent.
#[derive(Clone, Copy)]
pub(crate) struct Room {
    pub(crate) answers: u32,
    pub(crate) ways: u32,
    pub(crate) marks: u32,
    pub(crate) slots: u32,
}

// What is refused, in order: 14, 15, 16, 34, 17.
pub(crate) fn asking_refusal(
    roads: &Roads,
    bays: usize,
    question: Question,
    room: Room,
) -> Option<Refused> {
    let n = roads.depot.junctions();
    let number = if question.junction >= n {
        14
    } else if roads.kind.start(question.number).is_none() {
        15
    } else if question.k < 1 || question.k > 32 {
        16
    } else if bays != roads.depot.sites.len() {
        34
    } else if room.answers < question.k || room.ways < n || room.marks < n || room.slots < n {
        17
    } else {
        return None;
    };
    Some(Refused::call(number))
}

// What an asking knows: of each junction its reading, its key while it waits, and its way; which sites are wanted, and which
// are listed.
#[derive(Drop)]
pub(crate) struct Asked {
    readings: Vec<Option<Far>>,
    keys: Vec<Option<u64>>,
    pub(crate) ways: Vec<u32>,
    wanted: Vec<bool>,
    pub(crate) listed: Vec<Listed>,
    pub(crate) steps: u64,
}

impl Asked {
    fn begin(
        heap: Global,
        roads: &Roads,
        free: &[bool],
        junction: u32,
        start: Far,
    ) -> Result<Asked, AllocError> {
        let n = roads.depot.junctions() as usize;
        let mut asked = Asked {
            readings: Vec::from_elem(heap, None, n)?,
            keys: Vec::from_elem(heap, None, n)?,
            ways: Vec::from_elem(heap, NO_WAY, n)?,
            wanted: Vec::new(heap),
            listed: Vec::new(heap),
            steps: 0,
        };
        asked.wanted.extend_from_slice(free)?;
        asked.reach(roads, junction, start);
        Ok(asked)
    }

    fn reading(&self, junction: u32) -> Option<Far> {
        *self.readings.get(junction as usize)?
    }

    // The junction gets this reading, and waits by its estimate.
    fn reach(&mut self, roads: &Roads, junction: u32, reading: Far) {
        if let Some(there) = self.readings.get_mut(junction as usize) {
            *there = Some(reading);
        }
        let estimate = roads.estimate(junction, reading, &self.wanted);
        if let Some(key) = self.keys.get_mut(junction as usize) {
            *key = estimate.map(|far| roads.kind.height(far));
        }
    }

    // The waiting junction of least key, and of equal keys the first; it waits no more.
    fn take(&mut self) -> Option<u32> {
        let mut least: Option<(u64, usize)> = None;
        for (junction, key) in self.keys.iter().enumerate() {
            if let Some(height) = *key {
                if least.is_none_or(|(other, _)| height < other) {
                    least = Some((height, junction));
                }
            }
        }
        let (_, junction) = least?;
        *self.keys.get_mut(junction)? = None;
        Some(count(junction))
    }

    // The wanted sites at the junction are listed by number; whether there are k.
    fn list_at(
        &mut self,
        roads: &Roads,
        junction: u32,
        reading: Far,
        k: u32,
    ) -> Result<bool, AllocError> {
        for site in 0..roads.depot.site_count() {
            let Some(wanted) = self.wanted.get_mut(site as usize) else {
                continue;
            };
            if *wanted && at(&roads.depot.sites, site) == junction {
                *wanted = false;
                self.listed.push(Listed { site, reading })?;
                if self.listed.len() == k as usize {
                    return Ok(true);
                }
            }
        }
        Ok(false)
    }

    fn try_arcs(&mut self, roads: &Roads, junction: u32, reading: Far) {
        let (first, end) = roads.depot.leaving(junction);
        for arc in first..end {
            let Some(arrived) = roads.carry(arc, reading) else {
                continue;
            };
            let head = at(&roads.depot.heads, arc);
            if self.reading(head).is_none_or(|before| arrived < before) {
                put(&mut self.ways, head, arc);
                self.reach(roads, head, arrived);
            }
        }
    }
}

// What an asking that is not refused answers.
pub(crate) fn ask_plainly(
    heap: Global,
    roads: &Roads,
    free: &[bool],
    question: Question,
    start: Far,
) -> Result<Asked, AllocError> {
    let mut asked = Asked::begin(heap, roads, free, question.junction, start)?;
    for step in 1..u64::MAX {
        let Some(junction) = asked.take() else {
            break;
        };
        asked.steps = step;
        let Some(reading) = asked.reading(junction) else {
            break;
        };
        if asked.list_at(roads, junction, reading, question.k)? {
            break;
        }
        asked.try_arcs(roads, junction, reading);
    }
    Ok(asked)
}
