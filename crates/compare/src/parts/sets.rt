// Sets of sites beside a flag for each site that may be there.
use crate::plain::{count, has};
use crate::seeded::{Bench, Sort, Trouble, any_below};
use network::SiteSet;

const MOST: u32 = 64;

fn has_the_same(set: &SiteSet, flags: &[bool]) -> bool {
    for site in 0..=count(flags.len()) {
        if set.has(site) != has(flags, site) {
            return false;
        }
    }
    true
}

// Sites are put in and taken out; one that is past the last is never in it.
pub(crate) fn compare_set(bench: &mut Bench) -> Result<(), Trouble> {
    let mut set = SiteSet::none();
    let mut flags = Vec::from_elem(bench.heap, false, MOST as usize)?;
    bench.same(Sort::Sets, has_the_same(&set, &flags))?;
    for _ in 0..bench.random.one_of(&[1, 4, 40]) {
        let site = any_below(&mut bench.random, MOST);
        let held = bench.random.below(3) > 0;
        if held {
            set.insert(site);
        } else {
            set.remove(site);
        }
        if let Some(flag) = flags.get_mut(site as usize) {
            *flag = held;
        }
        bench.same(Sort::Sets, has_the_same(&set, &flags))?;
        bench.same(Sort::Sets, set.has(site) == has(&flags, site))?;
    }
    Ok(())
}
