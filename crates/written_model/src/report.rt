use mm_base::{Name, Pair, Sym};

/// What became of a written step.
#[derive(Clone, Copy, Debug, PartialEq, Eq)]
pub enum ReportVerdict {
    /// It fits its reference, together with the steps accepted before it.
    Fits,
    /// Its reference was found.
    Found,
    /// It fits its reference in no order of its places together with the steps accepted before it, and is set aside.
    NoFit,
    /// Its reference is no label of an assertion.
    UnknownRef,
    /// The assertion is not before the place, or one of its formulas does not begin with the provable typecode, has
    /// over 4,096 tokens, or has not exactly one tree.
    NotUsable,
    /// It lists more places than the assertion has `$e`.
    TooManyHyps,
    /// It has no reference, and none was found or looked for.
    NoRef,
    /// It is a hypothesis of the theorem.
    Hyp,
}

/// What the report says of a written step.
#[derive(Debug, Drop)]
pub struct ReportLine {
    /// The step's name.
    pub name: Name,
    /// What became of it.
    pub verdict: ReportVerdict,
    /// The step's reference, as it is written.
    pub reference: Option<Name>,
    /// The least variable that the first clashing pair of its reference shares.
    pub clash: Option<Sym>,
    /// Where no pair clashes and only given pairs are allowed, the first needed pair that is not given.
    pub lack: Option<Pair>,
}
