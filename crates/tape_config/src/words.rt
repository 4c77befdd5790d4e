//! The words of a configuration line.

ghost use Rattle.std.specs.Prelude.{◌≡◌, ◌≤◌, length};
ghost use Rattle.std.specs.List.{position_or_len};
ghost use Rattle.bk_text.specs.Blanks.{is_same_text, is_same_word};
ghost use Rattle.tape_config.specs.Words.{is_dash, switch_of, slots_of, name_check_word, cell_word};

use crate::numbers::plain_in;
use bk_text::place_of;

/// Whether a word on name checking begins the line.
pub fn is_name_check(word: &[u8]) -> bool
    ensures { result ≡ is_same_word word.now name_check_word }
{
    word.eq_ignore_ascii_case(b"name_check")
}

/// Whether the word for the cell begins the line, in exactly this case.
pub fn is_cell(word: &[u8]) -> bool
    ensures { result ≡ is_same_text word.now cell_word }
{
    word == b"cell".as_slice()
}

/// Yes or no.
pub fn switch_in(word: &[u8]) -> Option<bool>
    ensures { result ≡ switch_of word.now }
{
    if word.eq_ignore_ascii_case(b"yes") {
        return Some(true);
    }
    if word.eq_ignore_ascii_case(b"no") {
        return Some(false);
    }
    None
}

fn dash_in(text: &[u8]) -> usize
    ensures is { result ≡ position_or_len is_dash text.now }
    ensures within { result ≤ length text.now }
{
    place_of(b'-', text)
}

/// The first and the last slot of a device.
pub fn slots_in(word: &[u8]) -> Option<(u32, u32)>
    ensures { result ≡ slots_of word.now }
{
    if !word.starts_with(b"slots:") {
        return None;
    }
    let range = &word[6..];
    let dash = dash_in(range);
    if dash == range.len() {
        return None;
    }
    let first = plain_in(&range[..dash], 65535)?;
    let last = plain_in(&range[dash + 1..], 65535)?;
    if first <= last {
        Some((first, last))
    } else {
        None
    }
}
