ghost use Rattle.model_laws.specs.SubstitutedTrees.{SubstitutedIsTyped, TextOfSubstituted};

/// The text of a substituted tree is the substituted text.
pub fn text_of_substituted()
    ensures { TextOfSubstituted }
{}

/// A substitution keeps the typecode of a tree, and that it is typed.
pub fn substituted_is_typed()
    ensures { SubstitutedIsTyped }
{}
