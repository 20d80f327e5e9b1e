use mm_base::{Bytes, List, Name};

/// A theorem as it is put into a database.
#[derive(Debug, Drop)]
pub struct NewTheorem {
    /// Its label.
    pub name: Name,
    /// Its pairs of distinct variables.
    pub pairs: List<(Name, Name)>,
    /// Its own `$e`, each a label and the tokens of its formula.
    pub hyps: List<(Name, List<Name>)>,
    /// The tokens of its formula.
    pub formula: List<Name>,
    /// What stands between the `$=` and the `$.` of its proof, without white space at the ends.
    pub proof: Bytes,
}
