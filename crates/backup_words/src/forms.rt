//! Values and their forms.

ghost use Rattle.std.specs.Prelude.{◌≡◌, ◌≤◌, IfSome};
ghost use Rattle.std.specs.List.{list_all};
ghost use Rattle.bk_text.specs.Tests.{level_path_test};
ghost use Rattle.backup_words.specs.Forms.{is_any, ends_in_backup, is_text, number_within};

use crate::kinds::is_same;
use crate::options::TextForm;
use bk_text::{
    Alphabet, Bytes, Host, LevelPath, Name, Part, SetName, TapeName, is_word, long_digits_in,
};

/// Whether a word is `.*`.
pub fn is_any(word: &[u8]) -> bool
    ensures { result ≡ is_any word.now }
{
    is_same(word, b".*")
}

fn ends_in_backup(word: &[u8]) -> bool
    ensures { result ≡ ends_in_backup word.now }
{
    word.ends_with(b".backup")
}

/// Whether a word is of a form.
pub fn is_text(form: TextForm, word: &[u8]) -> bool
    ensures { result ≡ is_text form word.now }
{
    match form {
        TextForm::SetName => SetName::is_set_name(word),
        TextForm::Name => Name::is_name(word),
        TextForm::NewName => Name::is_name(word) && !ends_in_backup(word),
        TextForm::Host => Host::is_host(word),
        TextForm::Part => Part::is_part(word),
        TextForm::AnyHost => is_any(word) || Host::is_host(word),
        TextForm::AnyPart => is_any(word) || Part::is_part(word),
        TextForm::TapeName => TapeName::is_tape_name(word),
        TextForm::LevelPath => LevelPath::is_level_path(word),
        TextForm::Extension => is_word(Alphabet::AnyFirst, 30, word) && !ends_in_backup(word),
        TextForm::Any => true,
    }
}

/// A number of one to ten digits within limits.
pub fn number_within(least: u32, most: u32, word: &[u8]) -> Option<u32>
    ensures is { result ≡ number_within least most word.now }
    ensures within { IfSome result (λ n. n ≤ most) }
{
    let number = long_digits_in(word, 1, 10)?;
    if least as u64 <= number && number <= most as u64 {
        Some(number as u32)
    } else {
        None
    }
}

/// Whether each word is the path of a level.
pub fn all_levels(words: &[Bytes]) -> bool
    ensures { result ≡ list_all level_path_test words.now }
{
    for word in words {
        if !LevelPath::is_level_path(word.as_slice()) {
            return false;
        }
    }
    true
}
