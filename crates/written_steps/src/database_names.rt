ghost use Rattle.std.specs.Prelude.{◌≡◌, [], slice_index_or};

use mm_base::{Label, Sym};
use mm_frames::Frames;

/// The name of a symbol; the empty one past the last.
pub fn symbol_name(frames: &Frames, symbol: Sym) -> &[u8]
    ensures { result.now ≡ slice_index_or frames.now.symbols symbol.0 [] }
{
    if symbol.0 < frames.symbols() {
        frames.symbol_name(symbol)
    } else {
        b""
    }
}

/// The name of a label; the empty one past the last.
pub fn label_name(frames: &Frames, label: Label) -> &[u8]
    ensures { result.now ≡ slice_index_or frames.now.labels label.0 [] }
{
    if label.0 < frames.labels() {
        frames.label_name(label)
    } else {
        b""
    }
}
