ghost use Rattle.std.specs.Prelude.{◌≡◌};
ghost use Rattle.std.specs.Option.{option_copied};
ghost use Rattle.distinct_vars.specs.Values.{value_at};

use mm_base::{Sym, Tree};

/// The tree of a variable.
pub fn value<'t>(vars: &[Sym], trees: &'t [Tree], symbol: Sym) -> Option<&'t Tree>
    ensures { option_copied result ≡ value_at vars.now trees.now symbol }
{
    for (i, var) in vars.iter().enumerate() {
        if *var == symbol {
            return trees.get(i);
        }
    }
    None
}
