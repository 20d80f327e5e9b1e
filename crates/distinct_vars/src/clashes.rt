ghost use Rattle.std.specs.Prelude.{◌≡◌, option_map};
ghost use Rattle.written_model.specs.Pairs.{clash_of};
ghost use Rattle.written_model.specs.WrittenSteps.{Use};
ghost use Rattle.distinct_vars.specs.Clashes.{first_at, first_clash};
ghost use Rattle.distinct_vars.specs.Uses.{IsUseOf};
ghost use Rattle.distinct_vars.specs.Values.{shared_at};

use crate::shared::least_shared;
use crate::values::value;
use mm_base::{List, Pair, Sym, Tree};

fn shared_variable(pair: Pair, vars: &[Sym], trees: &[Tree]) -> Option<Sym>
    ensures { result ≡ shared_at vars.now trees.now pair }
{
    let Some(one) = value(vars, trees, pair.a) else {
        return None;
    };
    let Some(other) = value(vars, trees, pair.b) else {
        return None;
    };
    match least_shared(one, other) {
        Some(number) => Some(Sym(number)),
        None => None,
    }
}

fn first_pair(pairs: &[Pair], vars: &[Sym], trees: &[Tree]) -> Option<(Sym, Sym, Sym)>
    ensures { result ≡ first_at vars.now trees.now pairs.now }
{
    for pair in pairs {
        if let Some(shared) = shared_variable(*pair, vars, trees) {
            return Some((pair.a, pair.b, shared));
        }
    }
    None
}

/// The first pair, in the order of the frame, whose values share a variable of the database, with the least such
/// variable: the pair's variables in its order, and the one that is shared. None where no pair has such values. Work
/// variables are not shared, and a variable without a tree has no variables. It takes no memory, and goes over the values
/// of a pair at most once for each different variable in them.
pub fn clash(pairs: &List<Pair>, vars: &List<Sym>, trees: &List<Tree>) -> Option<(Sym, Sym, Sym)>
    ensures first { (u : Use) → IsUseOf u pairs.now vars.now trees.now → result ≡ first_clash u }
    ensures variable { (u : Use) → IsUseOf u pairs.now vars.now trees.now → option_map (λ c. c.2) result ≡ clash_of u }
{
    first_pair(pairs.as_slice(), vars.as_slice(), trees.as_slice())
}
