//! Words and where they end.

ghost use Rattle.std.specs.Prelude.{◌≡◌, ℕ, ◌+◌, ◌<◌, ◌≤◌, ◌↔◌, ◌&&◌, length, drop, slice_index, slice_range, MatchOption, IsTrue, true, false};
ghost use Rattle.csn_lexer.specs.Word.{begins_word, goes_on_in_word, joins_pieces, starts_alphanumeric, is_word_tail, IsWord};

/// Whether a word may begin with this byte.
pub fn begins_word(byte: u8) -> bool
    ensures { result ≡ begins_word byte }
{
    byte.is_ascii_alphanumeric() || byte == b'_'
}

fn goes_on_in_word(byte: u8) -> bool
    ensures { result ≡ goes_on_in_word byte }
{
    begins_word(byte) || matches!(byte, b'\'' | b'.' | b',')
}

fn joins_pieces(byte: u8) -> bool
    ensures { result ≡ joins_pieces byte }
{
    matches!(byte, b'/' | b'-')
}

fn starts_alphanumeric(bytes: &[u8]) -> bool
    ensures { result ≡ starts_alphanumeric bytes.now }
{
    match bytes.first() {
        Some(first) => first.is_ascii_alphanumeric(),
        None => false,
    }
}

// The place behind the byte at `at` where it goes on a word, or behind the two that do so together.
fn next_in_word(text: &[u8], at: usize) -> Option<usize>
    requires { at ≤ length text.now }
    ensures { MatchOption result
        ((m : ℕ) → at < m → m ≤ length text.now → is_word_tail (slice_range text.now at m) ≡ false)
        (λ next. (at < next) × (next ≤ length text.now) ×
        ((m : ℕ) → next ≤ m → m ≤ length text.now →
        is_word_tail (slice_range text.now at m) ≡ is_word_tail (slice_range text.now next m))) }
{
    if at >= text.len() {
        return None;
    }
    if goes_on_in_word(text[at]) {
        return Some(at + 1);
    }
    if joins_pieces(text[at]) && starts_alphanumeric(&text[at + 1..]) {
        return Some(at + 2);
    }
    None
}

/// The place where the bytes from `at` on stop going on in a word that began before `at`.
pub fn word_end(text: &[u8], at: usize) -> usize
    requires { at ≤ length text.now }
    ensures from { at ≤ result }
    ensures within { result ≤ length text.now }
    ensures tail { is_word_tail (slice_range text.now at result) ≡ true }
    ensures longest { (m : ℕ) → result < m → m ≤ length text.now →
        is_word_tail (slice_range text.now at m) ≡ false }
{
    let mut end = at;
    while let Some(next) = next_in_word(text, end) {
        end = next;
    }
    end
}

/// Whether the bytes are one word.
pub fn is_word(bytes: &[u8]) -> bool
    ensures { IsTrue result ↔ IsWord bytes.now }
{
    match bytes.first() {
        Some(first) => begins_word(*first) && word_end(bytes, 1) == bytes.len(),
        None => false,
    }
}
