//! From word to word. White space is space, tab, CR, LF and FF; a word is a longest run of other bytes.

ghost use Rattle.std.specs.Prelude.{◌≡◌, ◌+◌, ◌<◌, ◌≤◌, not, [], ◌∷◌, ◌==◌, length, take, drop, slice_range, IfSome, IfNone};
ghost use Rattle.std.specs.List.{list_any, prefix_len};
ghost use Rattle.mm_model.specs.Words.{is_white, word, words_from};
ghost use Rattle.mm_tokens.specs.Scan.{begins_with_dollar, is_plain};

/// Whether a byte is white space.
pub fn is_white(byte: u8) -> bool
    ensures { result ≡ is_white byte }
{
    matches!(byte, b' ' | b'\t' | b'\r' | b'\n' | 12)
}

/// How many bytes of white space stand at the front.
#[tactic(auto, using(crate::proofs::Sets::lengths))]
fn white_len(bytes: &[u8]) -> usize
    ensures len { result ≡ prefix_len is_white bytes.now }
    ensures within { result ≤ length bytes.now }
{
    bytes.iter().take_while(|b| is_white(**b)).count()
}

/// How many bytes stand before the first white one.
#[tactic(auto, using(crate::proofs::Sets::lengths))]
fn word_len(bytes: &[u8]) -> usize
    ensures len { result ≡ prefix_len (λ b. not (is_white b)) bytes.now }
    ensures within { result ≤ length bytes.now }
{
    bytes.iter().take_while(|b| !is_white(**b)).count()
}

/// How many bytes stand before the first that is white or a dollar.
#[tactic(auto, using(crate::proofs::Sets::lengths))]
fn plain_len(bytes: &[u8]) -> usize
    ensures len { result ≡ prefix_len is_plain bytes.now }
    ensures within { result ≤ length bytes.now }
{
    bytes.iter().take_while(|b| is_plain(**b)).count()
}

// Most bytes of words are above the dollar, so that is asked first.
fn is_plain(byte: u8) -> bool
    ensures { result ≡ is_plain byte }
{
    byte > b'$' || (!is_white(byte) && byte != b'$')
}

fn begins_with_dollar(bytes: &[u8]) -> bool
    ensures { result ≡ begins_with_dollar bytes.now }
{
    match bytes.first() {
        None => false,
        Some(byte) => *byte == b'$',
    }
}

/// The length of the word at the front, and whether it has a dollar.
fn marked_len(bytes: &[u8]) -> (usize, bool)
    ensures len { result.0 ≡ prefix_len (λ b. not (is_white b)) bytes.now }
    ensures within { result.0 ≤ length bytes.now }
    ensures dollar { result.1 ≡ list_any (λ b. b == 36) (take result.0 bytes.now) }
{
    let plain = plain_len(bytes);
    let rest = &bytes[plain..];
    if begins_with_dollar(rest) {
        return (plain + word_len(rest), true);
    }
    (plain, false)
}

/// The first word from a place on, as `next_word` gives it, and whether it has a dollar.
pub(crate) fn next_marked(text: &[u8], from: usize) -> Option<(usize, usize, bool)>
    requires { from ≤ length text.now }
    ensures none { IfNone result (words_from from (drop from text.now) ≡ []) }
    ensures range { IfSome result (λ w. (from ≤ w.0) × (w.0 < w.1) × (w.1 ≤ length text.now)) }
    ensures first { IfSome result (λ w. words_from from (drop from text.now)
        ≡ word w.0 (slice_range text.now w.0 w.1) ∷ words_from w.1 (drop w.1 text.now)) }
    ensures dollar { IfSome result (λ w. w.2 ≡ list_any (λ b. b == 36) (slice_range text.now w.0 w.1)) }
{
    let start = from + white_len(&text[from..]);
    if start == text.len() {
        return None;
    }
    let (len, dollar) = marked_len(&text[start..]);
    Some((start, start + len, dollar))
}

/// The first word from a place on: the places of its first byte and of the byte after it. Reading goes on from the
/// latter. None where only white space is left. It takes time in proportion to the bytes that it passes.
pub fn next_word(text: &[u8], from: usize) -> Option<(usize, usize)>
    requires { from ≤ length text.now }
    ensures none { IfNone result (words_from from (drop from text.now) ≡ []) }
    ensures range { IfSome result (λ w. (from ≤ w.0) × (w.0 < w.1) × (w.1 ≤ length text.now)) }

    // The words from the place on are this word and the words behind it.
    ensures first { IfSome result (λ w. words_from from (drop from text.now)
        ≡ word w.0 (slice_range text.now w.0 w.1) ∷ words_from w.1 (drop w.1 text.now)) }
{
    match next_marked(text, from) {
        None => None,
        Some((start, end, _)) => Some((start, end)),
    }
}
