ghost use Rattle.leaf_names.specs.Few.{SymbolsAreBelow, WorksAreBelow};
ghost use Rattle.leaf_names.specs.Named.{NamesAreNaming};

use model_laws::has_database_facts;
use writing_laws::symbols_are_few;

/// The names of the fresh leaves of writable trees are those of the definitions: each leaf that is written has a name of
/// its own, in order of first appearance the least that is unused.
pub fn names_are_naming()
    ensures { NamesAreNaming }
{
    has_database_facts();
    symbols_are_few();
}

/// What `Names::new` requires of a database and of a worksheet holds of the database of a text without a fault, and of a
/// worksheet that is bound over it and whose work size is within the limit.
pub fn numbers_suffice()
    ensures symbols { SymbolsAreBelow }
    ensures works { WorksAreBelow }
{
    has_database_facts();
}
