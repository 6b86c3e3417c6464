// What was compared: how many cases of each sort, and how often each refusal was met.
use crate::plain::Refused;
use crate::seeded::sorts::Sort;
use crate::seeded::trouble::Trouble;

const SORTS: usize = 64;

const NUMBERS: usize = 64;

#[derive(Clone, Copy)]
pub(crate) struct Report {
    compared: [u64; SORTS],
    refused: [u64; NUMBERS],
}

fn one_more(counts: &mut [u64], at: usize) {
    if let Some(count) = counts.get_mut(at) {
        *count = count.wrapping_add(1);
    }
}

impl Report {
    pub(crate) fn empty() -> Report {
        Report {
            compared: [0; SORTS],
            refused: [0; NUMBERS],
        }
    }

    // One more case of the sort, in which both agree or not.
    pub(crate) fn same(&mut self, sort: Sort, agree: bool) -> Result<(), Trouble> {
        one_more(&mut self.compared, sort as usize);
        if agree {
            Ok(())
        } else {
            Err(Trouble::Differs(sort))
        }
    }

    // One more case in which both refuse alike, or neither refuses.
    pub(crate) fn same_refusal(
        &mut self,
        sort: Sort,
        one: Option<Refused>,
        other: Option<Refused>,
    ) -> Result<(), Trouble> {
        if let Some(refused) = one {
            one_more(&mut self.refused, refused.number as usize);
        }
        self.same(sort, one == other)
    }

    // A line for each sort that was met, and one for each refusal.
    pub(crate) fn show(&self, rt: &HostRuntime) -> anyhow::Result<()> {
        for sort in Sort::ALL {
            let count = self.compared.get(sort as usize).copied().unwrap_or(0);
            let name = sort.name();
            if count > 0 {
                println!(rt; "{name}: {count}")?;
            }
        }
        for (number, count) in self.refused.iter().enumerate() {
            if *count > 0 {
                println!(rt; "refusal {number}: {count}")?;
            }
        }
        Ok(())
    }
}
