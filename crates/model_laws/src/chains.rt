ghost use Rattle.model_laws.specs.Paths.{KeptAreGrammar, KeptHaveNoCycle, LeadsByPaths};

/// Chains lead from one typecode to another exactly where a path of them does.
pub fn leads_by_paths()
    ensures { LeadsByPaths }
{}

/// The rows that are kept of rows are those of a grammar.
pub fn kept_rows_are_a_grammar()
    ensures { KeptAreGrammar }
{}

/// No path of kept chains comes back to where it began.
pub fn kept_rows_have_no_cycle()
    ensures { KeptHaveNoCycle }
{}
