// Where a bound stands in a list, in O(log length) steps.
ghost use Rattle.network.specs.Lists.{LowerBound};

pub fn lower_bound(list: &[u32], bound: u32) -> usize
    ensures { LowerBound list.now bound result }
{
    let mut low = 0;
    let mut high = list.len();
    while low < high {
        let middle = low + (high - low) / 2;
        if list[middle] < bound {
            low = middle + 1;
        } else {
            high = middle;
        }
    }
    low
}
