//! The lines of a block.

ghost use Rattle.std.specs.Prelude.{◌≡◌, ◌++◌, ◌-◌, ◌≤◌, [], ◌∷◌, OnOk, codes};
ghost use Rattle.sheet_gen.specs.Pieces.{behind, behind_name, joined};
ghost use Rattle.sheet_text.specs.Layout.{ended};
ghost use Rattle.trial_texts.specs.TrialTexts.{step_line, in_block, implies, provable, ph, trial_formula, block_end, end_name};

use crate::pieces::{put, put_block_end, put_end, put_formula, put_number};
use mm_base::Memory;

/// Puts the name of a step of a block behind a text.
fn put_name(text: &mut Vec<u8>, letter: &[u8], block: u32) -> Result<(), Memory>
    ensures { OnOk result (text.new.items ≡ text.old.items ++ in_block letter.now block) }
{
    put(text, letter)?;
    put_number(text, block)
}

/// The line of a step without places and without a formula.
pub fn put_bare(
    text: &mut Vec<u8>,
    letter: &[u8],
    block: u32,
    reference: &[u8],
) -> Result<(), Memory>
    ensures { OnOk result (text.new.items ≡ text.old.items ++ ended (step_line (in_block letter.now block) [] reference.now [])) }
{
    put_name(text, letter, block)?;
    put(text, b"::")?;
    put(text, reference)?;
    put(text, b"\n")
}

// The symbols of `|- ( F -> ( F -> F ) )` for the formula of a number, each behind a space.
fn put_repeated(text: &mut Vec<u8>, number: u32) -> Result<(), Memory>
    ensures { let f = trial_formula number in OnOk result (text.new.items ≡ text.old.items ++ behind (provable (implies f (implies f f)))) }
{
    put(text, b" |- (")?;
    put_formula(text, number)?;
    put(text, b" -> (")?;
    put_formula(text, number)?;
    put(text, b" ->")?;
    put_formula(text, number)?;
    put(text, b" ) )")
}

// The symbols of `|- ( F -> F )`.
fn put_identity(text: &mut Vec<u8>, number: u32) -> Result<(), Memory>
    ensures { let f = trial_formula number in OnOk result (text.new.items ≡ text.old.items ++ behind (provable (implies f f))) }
{
    put(text, b" |- (")?;
    put_formula(text, number)?;
    put(text, b" ->")?;
    put_formula(text, number)?;
    put(text, b" )")
}

/// The first line of a block.
pub fn put_first(text: &mut Vec<u8>, block: u32) -> Result<(), Memory>
    requires { 1 ≤ block }
    ensures { let f = trial_formula (block - 1) in
        OnOk result (text.new.items ≡ text.old.items ++ ended (step_line (in_block (codes "a") block) [] (codes "ax-1") (provable (implies f (implies f f))))) }
{
    put_name(text, b"a", block)?;
    put(text, b"::ax-1")?;
    put_repeated(text, block - 1)?;
    put(text, b"\n")
}

// `:PLACE,PLACE:ax-mp` for the steps of a block with these letters.
fn put_places(text: &mut Vec<u8>, first: &[u8], second: &[u8], block: u32) -> Result<(), Memory>
    ensures { OnOk result (text.new.items ≡ text.old.items ++ joined (in_block first.now block) (in_block second.now block)) }
{
    put(text, b":")?;
    put_name(text, first, block)?;
    put(text, b",")?;
    put_name(text, second, block)?;
    put(text, b":ax-mp")
}

/// The line of the first modus ponens.
pub fn put_fourth(text: &mut Vec<u8>, block: u32) -> Result<(), Memory>
    ensures { OnOk result (text.new.items ≡ text.old.items ++ ended (step_line (in_block (codes "e") block) (in_block (codes "b") block ∷ in_block (codes "c") block ∷ []) (codes "ax-mp") [])) }
{
    put_name(text, b"e", block)?;
    put_places(text, b"b", b"c", block)?;
    put(text, b"\n")
}

/// Behind its name, the line of `( F -> F )`.
pub fn put_fifth(text: &mut Vec<u8>, block: u32) -> Result<(), Memory>
    requires { 1 ≤ block }
    ensures { let f = trial_formula (block - 1) in
        OnOk result (text.new.items ≡ text.old.items ++ behind_name (in_block (codes "a") block) (in_block (codes "e") block) (provable (implies f f))) }
{
    put_places(text, b"a", b"e", block)?;
    put_identity(text, block - 1)?;
    put(text, b"\n")
}

/// The line that takes the end of the block before.
pub fn put_seventh(text: &mut Vec<u8>, block: u32) -> Result<(), Memory>
    requires { 1 ≤ block }
    ensures { OnOk result (text.new.items ≡ text.old.items ++ ended (step_line (in_block (codes "q") block) (block_end (block - 1) ∷ in_block (codes "p") block ∷ []) (codes "ax-mp") [])) }
{
    put_name(text, b"q", block)?;
    put(text, b":")?;
    put_block_end(text, block - 1)?;
    put(text, b",")?;
    put_name(text, b"p", block)?;
    put(text, b":ax-mp\n")
}

/// The last line of a block that joins one before.
pub fn put_eighth(text: &mut Vec<u8>, blocks: u32, block: u32) -> Result<(), Memory>
    ensures { OnOk result (text.new.items ≡ text.old.items ++ ended (step_line (end_name blocks block) (in_block (codes "f") block ∷ in_block (codes "q") block ∷ []) (codes "ax-mp") (provable (implies ph ph)))) }
{
    put_end(text, blocks, block)?;
    put_places(text, b"f", b"q", block)?;
    put(text, b" |- ( ph -> ph )\n")
}
