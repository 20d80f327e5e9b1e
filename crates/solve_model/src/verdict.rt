/// What became of a step.
#[derive(Clone, Copy, Debug, PartialEq, Eq)]
pub enum Verdict {
    /// It fits its reference, together with the steps accepted before it.
    Fits,
    /// It fits its reference in no order of its places together with the steps accepted before it, and is set aside.
    NoFit,
    /// Its reference is no label of an assertion.
    UnknownRef,
    /// The assertion is not before the place, or one of its formulas does not begin with the provable typecode, has
    /// over 4,096 tokens, or has not exactly one tree.
    NotUsable,
    /// It lists more places than the assertion has `$e`.
    TooManyHyps,
    /// It has no reference.
    NoRef,
    /// It is a hypothesis of the theorem.
    Hyp,
}
