ghost use Rattle.std.specs.Prelude.{◌≡◌, ◌++◌, ◌∷◌, OnOk};

use mm_base::Memory;

/// Puts a word behind a line, parted by a space.
pub fn put_word(line: &mut Vec<u8>, word: &[u8]) -> Result<(), Memory>
    ensures { OnOk result (line.new.items ≡ line.old.items ++ 32 ∷ word.now) }
{
    line.push(b' ')?;
    line.extend_from_slice(word)?;
    Ok(())
}
