ghost use Rattle.std.specs.Prelude.{◌≡◌, ℕ, List as ListOf, [], flat_map, slice_index_or, IfOk};
ghost use Rattle.mm_base.specs.declared.kinds.Kinds.{Kinds};
ghost use Rattle.mm_base.specs.declared.symbols.Label.{Label as LabelOf};
ghost use Rattle.mm_database.specs.Books.{database_of};
ghost use Rattle.mm_database.specs.Opened.{IsOpened};
ghost use Rattle.select_model.specs.Selected.{selected_text};
ghost use Rattle.sheet_text.specs.Layout.{ended};

use mm_base::{Bytes, Label, List, Memory};
use mm_database::Database;
use mm_frames::Frames;
use std::alloc::Global;
use written_steps::label_name;

/// The names of labels, each ended by a line feed.
fn name_lines(alloc: Global, frames: &Frames, labels: &[Label]) -> Result<Vec<u8>, Memory>
    ensures { IfOk result (λ text. text.items ≡ flat_map (λ (l : LabelOf). ended (slice_index_or frames.now.labels l.0 [])) labels.now) }
{
    let mut text = Vec::new(alloc);
    for label in labels {
        text.extend_from_slice(label_name(frames, *label))?;
        text.push(b'\n')?;
    }
    Ok(text)
}

/// The labels of a database, one on each line. It takes the time to write them.
///
/// # Errors
/// `Memory`: there is no room for the text.
pub fn labels_text(alloc: Global, db: &Database, labels: &[Label]) -> Result<Bytes, Memory>
    ensures { (kinds : Kinds) (text : ListOf ℕ) → IsOpened kinds text db.now
        → IfOk result (λ lines. lines ≡ selected_text (database_of kinds text db.now.rows db.now.parsed) labels.now) }
{
    let text = name_lines(alloc, db.frames(), labels)?;
    Ok(List::from_vec(text))
}
