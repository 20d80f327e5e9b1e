//! The two texts.

ghost use Rattle.std.specs.Prelude.{◌≡◌, IfOk};
ghost use Rattle.trial_texts.specs.TrialTexts.{trial_database, trial_sheet};

use crate::blocks::put_block;
use crate::pieces::put;
use mm_base::{Bytes, List, Memory};
use std::alloc::Global;

const DATABASE: &str = "\
$c ( ) -> -. wff |- $.\n\
$v ph ps ch $.\n\
wph $f wff ph $.\n\
wps $f wff ps $.\n\
wch $f wff ch $.\n\
wn $a wff -. ph $.\n\
wi $a wff ( ph -> ps ) $.\n\
${\n  \
min $e |- ph $.\n  \
maj $e |- ( ph -> ps ) $.\n  \
ax-mp $a |- ps $.\n\
$}\n\
ax-1 $a |- ( ph -> ( ps -> ph ) ) $.\n\
ax-2 $a |- ( ( ph -> ( ps -> ch ) ) -> ( ( ph -> ps ) -> ( ph -> ch ) ) ) $.\n\
";

/// The database: implication, negation and modus ponens.
pub fn database(alloc: Global) -> Result<Bytes, Memory>
    ensures { IfOk result (λ text. text ≡ trial_database) }
{
    List::copy_of(alloc, DATABASE.as_bytes())
}

/// The worksheet of so many blocks. It has some hundred bytes a block.
pub fn sheet(alloc: Global, blocks: u32) -> Result<Bytes, Memory>
    ensures { IfOk result (λ text. text ≡ trial_sheet blocks) }
{
    let mut text = Vec::new(alloc);
    put(
        &mut text,
        b"$( <MM> <PROOF_ASST> THEOREM=trial LOC_AFTER=?\n",
    )?;
    for before in 0..blocks {
        put_block(&mut text, blocks, before + 1)?;
    }
    put(&mut text, b"$)\n")?;
    Ok(List::from_vec(text))
}
