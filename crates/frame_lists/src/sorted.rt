//! Numbers and pairs in order.

ghost use Rattle.frame_lists.specs.Orders.{Ordered, Rises, PairsRise};

/// Numbers in their order, each once.
pub(crate) fn rising(mut numbers: Vec<u32>) -> Vec<u32>
    ensures { Ordered Rises numbers.items result.items }
{
    numbers.sort_unstable();
    numbers.dedup();
    numbers
}

/// Pairs by their first and then their second number, each once.
pub(crate) fn rising_pairs(mut pairs: Vec<(u32, u32)>) -> Vec<(u32, u32)>
    ensures { Ordered PairsRise pairs.items result.items }
{
    pairs.sort_unstable();
    pairs.dedup();
    pairs
}
