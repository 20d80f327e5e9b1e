ghost use Rattle.std.specs.Prelude.{◌≡◌, length};
ghost use Rattle.std.specs.List.{range_with_len};

use crate::wanted::Wanted;
use mm_base::{List, Pair};

/// What an assertion is looked for.
#[derive(Clone, Copy)]
pub struct Sought<'w, 'p, 'g> {
    /// What the assertion has to give.
    pub wanted: &'w Wanted,
    /// The numbers of the wanted hypotheses, from 0 on.
    pub places: &'p [u32],
    /// The pairs that are allowed, where not all are.
    pub given: Option<&'g List<Pair>>,
    ghost listed: { places.now ≡ range_with_len 0 (length wanted.now.hyps) },
}
