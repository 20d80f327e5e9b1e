use crate::list::Name;

/// The names of the two typecodes that the program gives a meaning to.
#[derive(Debug, Drop)]
pub struct Kinds {
    /// The typecode of assertions, `|-` unless it is named otherwise.
    pub provable: Name,
    /// The typecode whose trees the formulas of assertions have, `wff` unless it is named otherwise.
    pub logic: Name,
}
