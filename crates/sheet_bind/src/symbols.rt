ghost use Rattle.std.specs.Prelude.{◌≡◌};
ghost use Rattle.std.specs.Str.{bytes_eq};
ghost use Rattle.solve_model.specs.Binding.{same_tokens};
ghost use Rattle.sheet_bind.specs.Seen.{name_in, names_in};

use mm_base::{Name, Sym};
use mm_frames::Frames;

/// Whether a symbol has a name. A number past the last symbol has the empty name.
pub fn is_named(frames: &Frames, symbol: Sym, name: &[u8]) -> bool
    ensures { result ≡ bytes_eq (name_in frames.now.symbols symbol) name.now }
{
    if symbol.0 < frames.symbols() {
        frames.symbol_name(symbol) == name
    } else {
        name.is_empty()
    }
}

/// Whether the tokens are the names of the symbols of a formula.
pub fn same_tokens(frames: &Frames, tokens: &[Name], formula: &[Sym]) -> bool
    ensures { result ≡ same_tokens tokens.now (names_in frames.now.symbols formula.now) }
{
    if tokens.len() != formula.len() {
        return false;
    }
    for (i, token) in tokens.iter().enumerate() {
        if !is_named(frames, formula[i], token.as_slice()) {
            return false;
        }
    }
    true
}
