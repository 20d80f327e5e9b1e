//! Where a theorem goes.

ghost use Rattle.std.specs.Prelude.{◌≡◌, ◌≤◌, false, length, drop, codes};
ghost use Rattle.std.specs.Str.{bytes_eq};
ghost use Rattle.mm_frames.specs.Contents.{contents_of};
ghost use Rattle.mm_model.specs.Statements.{statements};
ghost use Rattle.mm_model.specs.Words.{words_from};
ghost use Rattle.install_model.specs.Installed.{place_byte};
ghost use Rattle.db_install.specs.Ends.{is_end, end_from};

use mm_frames::Frames;
use mm_tokens::next_word;

fn is_open_comment(word: &[u8]) -> bool
    ensures { result ≡ bytes_eq word.now (codes "$(") }
{
    word == b"$(".as_slice()
}

fn is_close_comment(word: &[u8]) -> bool
    ensures { result ≡ bytes_eq word.now (codes "$)") }
{
    word == b"$)".as_slice()
}

/// Whether a statement ends with this word.
fn is_end(word: &[u8]) -> bool
    ensures { result ≡ is_end word.now }
{
    word == b"$.".as_slice() || word == b"${".as_slice() || word == b"$}".as_slice()
}

/// The byte behind the statement that begins at a byte; 0 where none ends behind it.
fn statement_end(text: &[u8], start: usize) -> usize
    requires { start ≤ length text.now }
    ensures byte { result ≡ end_from false (words_from start (drop start text.now)) }
    ensures within { result ≤ length text.now }
{
    let mut in_comment = false;
    let mut at = start;
    while let Some((begin, end)) = next_word(text, at) {
        let word = &text[begin..end];
        if in_comment {
            in_comment = !is_close_comment(word);
        } else if is_open_comment(word) {
            in_comment = true;
        } else if is_end(word) {
            return end;
        }
        at = end;
    }
    0
}

/// The byte behind the statement before a place of a database; 0 at place 0. It takes time in proportion to that statement,
/// and no memory.
pub fn place_byte(text: &[u8], frames: &Frames, place: u32) -> usize
    requires of_text { frames.now ≡ contents_of text.now }
    requires within { place ≤ length (statements text.now) }
    ensures byte { result ≡ place_byte (statements text.now) place }
    ensures within { result ≤ length text.now }
{
    if place == 0 {
        return 0;
    }
    let start = frames.place_byte(place - 1) as usize;
    statement_end(text, start)
}
