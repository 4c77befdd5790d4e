//! Words parted by spaces and tabs.

ghost use Rattle.std.specs.Prelude.{◌≡◌, ◌==◌, ◌∷◌, [], ◌<◌, ◌≤◌, length, slice_index, MatchOption, false};
ghost use Rattle.std.specs.List.{position_or_len};
ghost use Rattle.bk_text.specs.Blanks.{is_blank, words_of};

fn is_space(byte: u8) -> bool
    ensures { result ≡ is_blank byte }
{
    byte == b' ' || byte == b'\t'
}

/// The text without spaces and tabs in front.
fn skip_blanks(line: &[u8]) -> &[u8]
    ensures same { words_of result.now ≡ words_of line.now }
    ensures first { 0 < length result.now → is_blank (slice_index result.now 0) ≡ false }
{
    for at in 0..line.len() {
        if !is_space(line[at]) {
            return &line[at..];
        }
    }
    &[]
}

/// Where the first space or tab stands, or the text's length.
fn word_end(line: &[u8]) -> usize
    ensures is { result ≡ position_or_len is_blank line.now }
    ensures within { result ≤ length line.now }
{
    for at in 0..line.len() {
        if is_space(line[at]) {
            return at;
        }
    }
    line.len()
}

/// The first word of a text, and the text behind it; `None` where it has no word. Words are parted by spaces and tabs.
pub fn split_word(line: &[u8]) -> Option<(&[u8], &[u8])>
    ensures { MatchOption result (words_of line.now ≡ []) (λ parts. words_of line.now ≡ parts.0.now ∷ words_of parts.1.now) }
{
    let line = skip_blanks(line);
    if line.is_empty() {
        return None;
    }
    let end = word_end(line);
    Some((&line[..end], &line[end..]))
}

/// Where a byte stands first in a text, or the text's length.
pub fn place_of(byte: u8, text: &[u8]) -> usize
    ensures is { result ≡ position_or_len (λ b. b == byte) text.now }
    ensures within { result ≤ length text.now }
{
    for at in 0..text.len() {
        if text[at] == byte {
            return at;
        }
    }
    text.len()
}
