//! Separators and comments, which stand between tokens.

ghost use Rattle.std.specs.Prelude.{◌≡◌, ℕ, ◌+◌, ◌<◌, ◌≤◌, ◌≢◌, ◌⊎◌, ◌↔◌, length, slice_get, slice_index, slice_range, IfNone, IfSome, IsTrue, IsFalse};
ghost use Rattle.csn_lexer.specs.declared.gap.TheConstants.{LINE_FEED};
ghost use Rattle.csn_lexer.specs.Gap.{is_separator, BeginsComment, IsComment, IsGap};

// The end of a line.
const LINE_FEED: u8 = b'\n';

fn is_separator(byte: u8) -> bool
    ensures { result ≡ is_separator byte }
{
    matches!(byte, b' ' | b'\t' | LINE_FEED | b'\r')
}

fn begins_comment(text: &[u8], at: usize) -> bool
    requires { at < length text.now }
    ensures { IsTrue result ↔ BeginsComment text.now at }
{
    text[at] == b'-' && text.get(at + 1) == Some(&b'-')
}

// The end of the line that the byte at `at` stands in: the next line feed, or the end of the text.
fn line_end(text: &[u8], at: usize) -> usize
    requires { at ≤ length text.now }
    ensures from { at ≤ result }
    ensures within { result ≤ length text.now }
    ensures line { (k : ℕ) → at ≤ k → k < result → slice_index text.now k ≢ LINE_FEED }
    ensures ends { (result ≡ length text.now) ⊎ (slice_get text.now result ≡ Some LINE_FEED) }
{
    for end in at..text.len() {
        if text[end] == LINE_FEED {
            return end;
        }
    }
    text.len()
}

// The place behind the separator or comment at `at`.
fn next_in_gap(text: &[u8], at: usize) -> Option<usize>
    requires { at < length text.now }
    ensures none { IfNone result (IsFalse (is_separator (slice_index text.now at)) × ¬ BeginsComment text.now at) }
    ensures some { IfSome result (λ next. (at < next) × (next ≤ length text.now) × IsGap text.now at next) }
{
    if is_separator(text[at]) {
        return Some(at + 1);
    }
    if begins_comment(text, at) {
        return Some(line_end(text, at));
    }
    None
}

/// The place of the first byte from `at` on that is no part of a separator or comment, or the length
/// of the text.
pub fn gap_end(text: &[u8], at: usize) -> usize
    requires { at ≤ length text.now }
    ensures gap { IsGap text.now at result }
    ensures from { at ≤ result }
    ensures within { result ≤ length text.now }
    ensures no_separator { result < length text.now → IsFalse (is_separator (slice_index text.now result)) }
    ensures no_comment { result < length text.now → ¬ BeginsComment text.now result }
{
    let mut end = at;
    while end < text.len() {
        match next_in_gap(text, end) {
            Some(next) => end = next,
            None => return end,
        }
    }
    end
}
