//! Pieces that are put behind a text.

ghost use Rattle.std.specs.Prelude.{◌≡◌, ◌++◌, ◌<◌, ◌≤◌, ◌^◌, OnOk, decimal};
ghost use Rattle.sheet_gen.specs.Pieces.{behind};
ghost use Rattle.trial_texts.specs.TrialTexts.{trial_formula, block_end, end_name};

use itoa::Buffer;
use mm_base::Memory;

/// Puts bytes behind a text.
pub fn put(text: &mut Vec<u8>, bytes: &[u8]) -> Result<(), Memory>
    ensures { OnOk result (text.new.items ≡ text.old.items ++ bytes.now) }
{
    text.extend_from_slice(bytes)?;
    Ok(())
}

/// Puts a number behind a text.
pub fn put_number(text: &mut Vec<u8>, number: u32) -> Result<(), Memory>
    ensures { OnOk result (text.new.items ≡ text.old.items ++ decimal number) }
{
    let mut buffer = Buffer::new();
    put(text, buffer.format(number).as_bytes())
}

/// Puts the symbols of the formula of a number behind a text, each behind a space.
pub fn put_formula(text: &mut Vec<u8>, number: u32) -> Result<(), Memory>
    ensures { OnOk result (text.new.items ≡ text.old.items ++ behind (trial_formula number)) }
{
    if number == 0 {
        return put(text, b" ph");
    }
    if number == 1 {
        return put(text, b" ps");
    }
    if number == 2 {
        return put(text, b" ch");
    }
    if number % 2 == 1 {
        put(text, b" (")?;
        put_formula(text, (number - 1) / 2)?;
        return put(text, b" -> ph )");
    }
    put(text, b" -.")?;
    put_formula(text, number / 2)
}

/// Puts the name of the last step of a block behind a text.
pub fn put_block_end(text: &mut Vec<u8>, block: u32) -> Result<(), Memory>
    ensures { OnOk result (text.new.items ≡ text.old.items ++ block_end block) }
{
    if block == 1 {
        put(text, b"f")?;
    } else {
        put(text, b"r")?;
    }
    put_number(text, block)
}

/// The same in a worksheet of so many blocks, where the last of all is `qed`.
pub fn put_end(text: &mut Vec<u8>, blocks: u32, block: u32) -> Result<(), Memory>
    ensures { OnOk result (text.new.items ≡ text.old.items ++ end_name blocks block) }
{
    if block == blocks {
        return put(text, b"qed");
    }
    put_block_end(text, block)
}
