ghost use Rattle.std.specs.Prelude.{◌≡◌, option_map};
ghost use Rattle.mm_model.specs.Faults as spec;
ghost use Rattle.sheet_bind.specs.Found.{number_of, found};

use mm_base::Memory;

/// What is wrong with a worksheet over its database. They are the codes 60 to 73, in order.
#[derive(Clone, Copy, PartialEq, Eq)]
pub enum BindCode {
    /// A new theorem whose LOC_AFTER is no label of the database.
    LocUnknown,
    /// The theorem's name is the label of a `$f`, `$e` or `$a`.
    TheoremTaken,
    /// An `h` step or `qed` is not as the theorem's frame, or the `$e` active at the place, say.
    HypsDiffer,
    /// A new hypothesis whose label the database or the theorem has.
    HypLabelTaken,
    /// An `h` step that lists places.
    HypWithHyps,
    /// A formula, not blank, whose first token is not the provable typecode.
    NotProvable,
    /// A token that is no active constant, no active variable with an active `$f`, and no work variable.
    UnknownSymbol,
    /// A formula that has no tree.
    NoTree,
    /// A formula that has two trees.
    TwoTrees,
    /// An `h` step or `qed` without a formula.
    Blank,
    /// In `$d` a symbol that is no variable active at the place.
    NotVariable,
    /// A formula of more than 4,096 tokens.
    FormulaLong,
    /// An `h` step's label that an earlier one has.
    HypLabelTwice,
    /// A theorem's name with a byte that no label has.
    TheoremName,
}

/// Why a worksheet is not bound.
#[derive(Clone, Copy, PartialEq, Eq)]
pub enum BindFault {
    /// The first fault, with its line.
    At(BindCode, u32),
    /// The worksheet has no other fault, and this work size, which is over the limit; 2^64 - 1 where it is larger still.
    TooMuch(u64),
    /// Memory ran out.
    Memory,
}

impl From<Memory> for BindFault {
    ghost use Rattle.std.specs.Prelude.{◌≡◌};
    ghost use Rattle.sheet_bind.specs.declared.faults.BindFault.TheVariants as fault;

    ghost from_gives = { λ e r. r ≡ fault.Memory };

    fn from(_: Memory) -> BindFault {
        BindFault::Memory
    }
}

/// A fault that stands in a worksheet.
#[derive(Clone, Copy)]
pub struct FoundFault {
    pub line: u32,
    pub code: BindCode,
}

/// The number of a code.
pub fn number(code: BindCode) -> u32
    ensures { result ≡ number_of code }
{
    match code {
        BindCode::LocUnknown => 60,
        BindCode::TheoremTaken => 61,
        BindCode::HypsDiffer => 62,
        BindCode::HypLabelTaken => 63,
        BindCode::HypWithHyps => 64,
        BindCode::NotProvable => 65,
        BindCode::UnknownSymbol => 66,
        BindCode::NoTree => 67,
        BindCode::TwoTrees => 68,
        BindCode::Blank => 69,
        BindCode::NotVariable => 70,
        BindCode::FormulaLong => 71,
        BindCode::HypLabelTwice => 72,
        BindCode::TheoremName => 73,
    }
}

/// Whether the one stands at a lesser line than the other, or at one line and has no higher code.
pub fn comes_first(one: FoundFault, other: FoundFault) -> bool
    ensures { result ≡ spec.comes_first (found one) (found other) }
{
    one.line < other.line || (one.line == other.line && number(one.code) <= number(other.code))
}

/// The one that comes first, where both are there.
pub fn earlier(one: Option<FoundFault>, other: Option<FoundFault>) -> Option<FoundFault>
    ensures { option_map found result ≡ spec.earlier (option_map found one) (option_map found other) }
{
    let Some(first) = one else {
        return other;
    };
    let Some(second) = other else {
        return one;
    };
    if comes_first(first, second) {
        one
    } else {
        other
    }
}

/// A code at a line.
pub fn at_line(line: u32, code: Option<BindCode>) -> Option<FoundFault>
    ensures { option_map found result ≡ option_map (λ c. spec.fault line (number_of c)) code }
{
    match code {
        None => None,
        Some(code) => Some(FoundFault { line, code }),
    }
}
