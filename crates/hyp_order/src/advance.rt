ghost use Rattle.std.specs.Prelude.{◌≡◌, ◌+◌, ◌<◌, ◌≤◌, ◌++◌, length, take, drop, reverse, slice_index, MatchBool, MatchOption};
ghost use Rattle.hyp_order.specs.Orders.{IsLastOrder, IsNextOrder};
ghost use Rattle.hyp_order.specs.Falls.{AtMost, Falls};

/// The last place whose number is less than the next one.
fn last_rise(order: &[u32]) -> Option<usize>
    ensures { MatchOption result (Falls order.now) (λ i. (i + 1 < length order.now)
        × (slice_index order.now i < slice_index order.now (i + 1)) × Falls (drop (i + 1) order.now)) }
{
    let mut i = order.len();
    while 1 < i {
        i -= 1;
        if order[i - 1] < order[i] {
            return Some(i - 1);
        }
    }
    None
}

/// The last place whose number is greater than that of a place before it.
fn last_above(order: &[u32], place: usize) -> usize
    requires inside { place + 1 < length order.now }
    requires rises { slice_index order.now place < slice_index order.now (place + 1) }
    ensures later { place < result }
    ensures inside { result < length order.now }
    ensures above { slice_index order.now place < slice_index order.now result }
    ensures last { AtMost (slice_index order.now place) (drop (result + 1) order.now) }
{
    let mut j = order.len() - 1;
    while order[j] <= order[place] {
        j -= 1;
    }
    j
}

/// Turns round what stands from a place on.
fn reverse_from(order: &mut [u32], place: usize)
    requires { place ≤ length order.old }
    ensures { order.new ≡ take place order.old ++ reverse (drop place order.old) }
{
    order[place..].reverse();
}

/// Makes the next order in place, or answers that there is none.
pub fn advance(order: &mut [u32]) -> bool
    ensures { MatchBool result (IsNextOrder order.old order.new) ((order.new ≡ order.old) × IsLastOrder order.old) }
{
    let Some(place) = last_rise(order) else {
        return false;
    };
    let above = last_above(order, place);
    order.swap(place, above);
    reverse_from(order, place + 1);
    true
}
