//! Laws of sets of pairs, trees, solutions and the most general valuation. Each is the contract of a function that does
//! nothing.
#![tactic(auto)]

ghost use Rattle.std.specs.Prelude.{List};
ghost use Rattle.mm_model.specs.Book.{Database};
ghost use Rattle.solve_model.specs.declared.bound.Bound.{Bound};
ghost use Rattle.solve_model.specs.Solutions.{Asked};
ghost use Rattle.solve_laws.specs.Instances.{InstanceSolves};
ghost use Rattle.solve_laws.specs.NewVariables.{NoNewVariable};
ghost use Rattle.solve_laws.specs.OneJudgement.{JudgementsAreOne};
ghost use Rattle.solve_laws.specs.OneValuation.{MostGeneralIsOne};
ghost use Rattle.solve_laws.specs.PairSetLaws.{PairSetHoldsSame, PairSetIsInOrder};
ghost use Rattle.solve_laws.specs.Replacements.{ReplacedTwice, ReplacedBySelf, ReplacedAlike, SameTreeDecides};
ghost use Rattle.solve_laws.specs.ReplacedTypes.{ReplacedIsTyped};

/// Leaves replaced twice are replaced once; replaced by themselves they stay; and two replacements give one tree
/// exactly where they agree on its open leaves.
pub fn replaced_leaves()
    ensures twice { ReplacedTwice }
    ensures by_self { ReplacedBySelf }
    ensures alike { ReplacedAlike }
{}

/// A typed tree whose leaves are replaced by typed trees of their typecodes is typed, with its typecode.
pub fn replaced_is_typed()
    ensures { ReplacedIsTyped }
{}

/// The test of two trees says whether they are equal.
pub fn same_trees_are_equal()
    ensures { SameTreeDecides }
{}

/// A set of pairs holds the pairs that it is made of, each before the next and so each once.
pub fn pair_sets_are_sorted()
    ensures same { PairSetHoldsSame }
    ensures in_order { PairSetIsInOrder }
{}

/// A valuation that is an instance of a solution solves too, where the formulas that were read have no fresh leaf and
/// the assertions' trees no open one.
pub fn instance_solves()
    ensures { (bound : Bound) (asked : List Asked) → InstanceSolves bound asked }
{}

/// The judgements of a worksheet's steps are one: each step has one verdict, and an accepted one has one order.
pub fn judgements_are_one()
    ensures { (db : Database) (bound : Bound) → JudgementsAreOne db bound }
{}

/// There is at most one most general valuation, up to the numbers of its fresh leaves.
pub fn most_general_is_one()
    ensures { (db : Database) (bound : Bound) (accepted : List Asked) → MostGeneralIsOne db bound accepted }
{}

/// A most general valuation has no variable of the database that the worksheet lacks.
pub fn no_new_variable()
    ensures { (db : Database) (bound : Bound) (accepted : List Asked) → NoNewVariable db bound accepted }
{}
