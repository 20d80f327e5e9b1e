//! The orders of a few numbers, in lexicographic order.
#![tactic(auto)]

ghost use Rattle.std.specs.Prelude.{◌≡◌, ℕ, ◌+◌, if◌then◌else◌, slice_get, IfOk, MatchBool};
ghost use Rattle.std.specs.List.{range_with_len};
ghost use Rattle.solve_model.specs.Firsts.{orders};
ghost use Rattle.hyp_order.specs.Orders.{IsFirstOrder, IsLastOrder, IsNextOrder};

mod advance;

use advance::advance;
use mm_base::{List, Memory};
use std::alloc::Global;
use std::mem;

/// The first order of so many places: 0, 1 and so on. It takes one allocation, and time in proportion to their number.
pub fn first_order(alloc: Global, n: u32) -> Result<List<u32>, Memory>
    ensures numbers { IfOk result (λ order. order ≡ range_with_len 0 n) }
    ensures first { IfOk result (λ order. IsFirstOrder order) }
    ensures listed { IfOk result (λ order. slice_get (orders n (range_with_len 0 n)) 0 ≡ Some order) }
{
    let mut order = Vec::with_capacity(alloc, n as usize)?;
    for place in 0..n {
        order.push(place)?;
    }
    Ok(List::from_vec(order))
}

/// Goes on to the next order of the same numbers in lexicographic order. False where this is the last one, and then it
/// stays. It takes no memory, and time in proportion to the length.
pub fn next_order(order: &mut List<u32>) -> bool
    ensures next { MatchBool result (IsNextOrder order.old order.new) ((order.new ≡ order.old) × IsLastOrder order.old) }

    // Of all orders of the numbers below n it is the one behind.
    ensures listed { (n k : ℕ) → slice_get (orders n (range_with_len 0 n)) k ≡ Some order.old
        → slice_get (orders n (range_with_len 0 n)) (k + 1) ≡ (if result then Some order.new else None) }
{
    let empty = List::from_vec(Vec::new(order.allocator()));
    let mut items = mem::replace(order, empty).into_vec();
    let is_next = advance(items.as_mut_slice());
    *order = List::from_vec(items);
    is_next
}
