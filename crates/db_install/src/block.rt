//! The lines that are put in.

ghost use Rattle.std.specs.Prelude.{◌≡◌, ◌∷◌, ◌++◌, OnOk, IfOk, flat_map};
ghost use Rattle.sheet_text.specs.Layout.{ended};
ghost use Rattle.install_model.specs.Installed.{pair_line, hyp_line, theorem_line, block as block_of};

use install_model::NewTheorem;
use mm_base::{List, Memory, Name};
use std::alloc::Global;

/// Puts bytes behind a text.
pub(crate) fn put(text: &mut Vec<u8>, bytes: &[u8]) -> Result<(), Memory>
    ensures { OnOk result (text.new.items ≡ text.old.items ++ bytes.now) }
{
    text.extend_from_slice(bytes)?;
    Ok(())
}

/// Puts the tokens behind a text, each behind a space.
fn put_tokens(text: &mut Vec<u8>, tokens: &[Name]) -> Result<(), Memory>
    ensures { OnOk result (text.new.items ≡ text.old.items ++ flat_map (λ t. 32 ∷ t) tokens.now) }
{
    for token in tokens {
        put(text, b" ")?;
        put(text, token.as_slice())?;
    }
    Ok(())
}

/// Puts the line of a `$d` behind a text.
fn put_pair(text: &mut Vec<u8>, pair: &(Name, Name)) -> Result<(), Memory>
    ensures { OnOk result (text.new.items ≡ text.old.items ++ ended (pair_line pair.now)) }
{
    put(text, b"$d ")?;
    put(text, pair.0.as_slice())?;
    put(text, b" ")?;
    put(text, pair.1.as_slice())?;
    put(text, b" $.\n")
}

fn put_pairs(text: &mut Vec<u8>, pairs: &[(Name, Name)]) -> Result<(), Memory>
    ensures { OnOk result (text.new.items ≡ text.old.items ++ flat_map (λ p. ended (pair_line p)) pairs.now) }
{
    for pair in pairs {
        put_pair(text, pair)?;
    }
    Ok(())
}

/// Puts the line of a `$e` behind a text.
fn put_hyp(text: &mut Vec<u8>, hyp: &(Name, List<Name>)) -> Result<(), Memory>
    ensures { OnOk result (text.new.items ≡ text.old.items ++ ended (hyp_line hyp.now)) }
{
    put(text, hyp.0.as_slice())?;
    put(text, b" $e")?;
    put_tokens(text, hyp.1.as_slice())?;
    put(text, b" $.\n")
}

fn put_hyps(text: &mut Vec<u8>, hyps: &[(Name, List<Name>)]) -> Result<(), Memory>
    ensures { OnOk result (text.new.items ≡ text.old.items ++ flat_map (λ h. ended (hyp_line h)) hyps.now) }
{
    for hyp in hyps {
        put_hyp(text, hyp)?;
    }
    Ok(())
}

/// Puts the line of the `$p` behind a text.
fn put_theorem(text: &mut Vec<u8>, theorem: &NewTheorem) -> Result<(), Memory>
    ensures { OnOk result (text.new.items ≡ text.old.items ++ ended (theorem_line theorem.now)) }
{
    put(text, theorem.name.as_slice())?;
    put(text, b" $p")?;
    put_tokens(text, theorem.formula.as_slice())?;
    put(text, b" $= ")?;
    put(text, theorem.proof.as_slice())?;
    put(text, b" $.\n")
}

/// The block of a theorem, on lines of its own.
pub(crate) fn block(alloc: Global, theorem: &NewTheorem) -> Result<Vec<u8>, Memory>
    ensures { IfOk result (λ text. text.items ≡ block_of theorem.now) }
{
    let mut text = Vec::new(alloc);
    put(&mut text, b"\n${\n")?;
    put_pairs(&mut text, theorem.pairs.as_slice())?;
    put_hyps(&mut text, theorem.hyps.as_slice())?;
    put_theorem(&mut text, theorem)?;
    put(&mut text, b"$}\n")?;
    Ok(text)
}
