//! The entries of the stack that an assertion takes.

ghost use Rattle.std.specs.Prelude.{◌≡◌, length, All};
ghost use Rattle.stack_verify.specs.Stacks.{IsWithin};

use crate::formula::Span;
use mm_base::Sym;
use mm_model::Hyp;

/// The entries that an assertion takes, one for each of its hypotheses.
#[derive(Clone, Copy)]
pub(crate) struct Entries<'h, 'y, 's> {
    pub(crate) hyps: &'h [Hyp],
    /// The symbols of all entries.
    pub(crate) symbols: &'y [Sym],
    /// The part of the symbols that is the entry for each hypothesis.
    pub(crate) spans: &'s [Span],
    ghost each: { length spans.now ≡ length hyps.now },
    ghost within: { All (IsWithin (length symbols.now)) spans.now },
}
