//! The blocks of a worksheet.

ghost use Rattle.std.specs.Prelude.{◌≡◌, ◌++◌, ◌-◌, ◌≤◌, OnOk, codes};
ghost use Rattle.std.specs.List.{flat_map};
ghost use Rattle.sheet_gen.specs.Pieces.{first_lines};
ghost use Rattle.sheet_text.specs.Layout.{ended};
ghost use Rattle.trial_texts.specs.TrialTexts.{in_block, trial_formula, identity_lines, joining_lines, block_lines, end_name};

use crate::lines::{put_bare, put_eighth, put_fifth, put_first, put_fourth, put_seventh};
use crate::pieces::{put, put_end, put_number};
use mm_base::Memory;

// The four lines before that of `( F -> F )`.
fn put_steps(text: &mut Vec<u8>, block: u32) -> Result<(), Memory>
    requires { 1 ≤ block }
    ensures { OnOk result (text.new.items ≡ text.old.items ++ flat_map ended (first_lines block (trial_formula (block - 1)))) }
{
    put_first(text, block)?;
    put_bare(text, b"b", block, b"ax-1")?;
    put_bare(text, b"c", block, b"ax-2")?;
    put_fourth(text, block)
}

// The lines of the first block.
fn put_first_block(text: &mut Vec<u8>, blocks: u32) -> Result<(), Memory>
    ensures { OnOk result (text.new.items ≡ text.old.items ++ flat_map ended (identity_lines 1 (end_name blocks 1) (trial_formula 0))) }
{
    put_steps(text, 1)?;
    put_end(text, blocks, 1)?;
    put_fifth(text, 1)
}

// The lines of `( F -> F )` in a later block.
fn put_identity_lines(text: &mut Vec<u8>, block: u32) -> Result<(), Memory>
    requires { 1 ≤ block }
    ensures { OnOk result (text.new.items ≡ text.old.items ++ flat_map ended (identity_lines block (in_block (codes "f") block) (trial_formula (block - 1)))) }
{
    put_steps(text, block)?;
    put(text, b"f")?;
    put_number(text, block)?;
    put_fifth(text, block)
}

// The lines that join a block to the one before.
fn put_joining_lines(text: &mut Vec<u8>, blocks: u32, block: u32) -> Result<(), Memory>
    requires { 1 ≤ block }
    ensures { OnOk result (text.new.items ≡ text.old.items ++ flat_map ended (joining_lines block (end_name blocks block))) }
{
    put_bare(text, b"p", block, b"ax-1")?;
    put_seventh(text, block)?;
    put_eighth(text, blocks, block)
}

/// The lines of a block, in a worksheet of so many.
pub fn put_block(text: &mut Vec<u8>, blocks: u32, block: u32) -> Result<(), Memory>
    requires { 1 ≤ block }
    ensures { OnOk result (text.new.items ≡ text.old.items ++ flat_map ended (block_lines blocks block)) }
{
    if block == 1 {
        return put_first_block(text, blocks);
    }
    put_identity_lines(text, block)?;
    put_joining_lines(text, blocks, block)
}
