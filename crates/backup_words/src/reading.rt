//! The values of options whose words fit.

ghost use Rattle.backup_words.specs.Fitting.{IsPlainWord, IsText, Fits};
ghost use Rattle.std.specs.Prelude.{◌≡◌, ◌≤◌, ◌<◌, ℕ, List as AnyList, All, IfOk, IfSome, IsTrue, MatchOption, option_map, Some, None};
ghost use Rattle.bk_text.specs.LevelPaths.{IsLevelPath};
ghost use Rattle.bk_text.specs.Patterns.{IsPattern};
ghost use Rattle.bk_text.specs.Partitions.{without_slash};
ghost use Rattle.backup_words.specs.Words.{given};
ghost use Rattle.backup_words.specs.Table.{rule, port, extension};
ghost use Rattle.backup_words.specs.Commands.{port_at};
ghost use Rattle.backup_words.specs.Values.{maybe_word, word_at, number_at, maybe_number, words_at, unless_any, expiry_at, maybe_date};
ghost use Rattle.backup_words.specs.declared.options.Need.{Need as AnyNeed};
ghost use Rattle.backup_words.specs.declared.options.Need.TheVariants.{Required, Free};
ghost use Rattle.backup_words.specs.declared.options.OptionName.TheVariants.{Extension as ExtensionOption};
ghost use Rattle.backup_words.specs.declared.options.Form.TheVariants.{Text, Number, Levels as LevelsForm, Pattern as PatternForm, Date as DateForm};
ghost use Rattle.backup_words.specs.declared.options.TextForm.TheVariants.{SetName as SetNameForm, Name as NameForm, NewName as NewNameForm, Host as HostForm, Part as PartForm, AnyHost as AnyHostForm, AnyPart as AnyPartForm, TapeName as TapeNameForm, LevelPath as LevelPathForm};

use crate::forms::{is_any, number_within};
use crate::options::{Need, OptionName, TextForm};
use crate::values::{date_in, expiry_in};
use crate::words::given;
use bk_text::{Bytes, Expiry, Host, LevelPath, List, Name, Part, SetName, TapeName, without_slash};
use std::alloc::{AllocError, Global};
use volume_sets::Pattern;

/// The word of an option that has one word of a form.
#[tactic(auto, using(crate::proofs::FormLaws::text_form))]
fn text_at(words: &[Bytes], option: OptionName, form: TextForm) -> &[u8]
    requires { Fits words.now (rule option Required (Text form)) }
    ensures is { result.now ≡ word_at option words.now }
    ensures form { IsText form result.now }
{
    match given(words, option) {
        Some(values) if !values.is_empty() => values[0].as_slice(),
        _ => &[],
    }
}

/// The word of an option that has one word of a form, where it is there.
#[tactic(auto, using(crate::proofs::FormLaws::text_form))]
fn maybe_text(words: &[Bytes], option: OptionName, need: Need, form: TextForm) -> Option<&[u8]>
    requires { Fits words.now (rule option need (Text form)) }
    ensures is { MatchOption result (maybe_word option words.now ≡ None) (λ word. maybe_word option words.now ≡ Some word.now) }
    ensures form { IfSome result (λ word. IsText form word.now) }
{
    match given(words, option) {
        Some(values) if !values.is_empty() => Some(values[0].as_slice()),
        _ => None,
    }
}

/// The name of a volume set.
pub fn set_name(alloc: Global, words: &[Bytes], option: OptionName) -> Result<SetName, AllocError>
    requires { Fits words.now (rule option Required (Text SetNameForm)) }
    ensures { IfOk result (λ name. name ≡ word_at option words.now) }
{
    SetName::from_bytes(alloc, text_at(words, option, TextForm::SetName))
}

/// The name of a volume.
pub fn name(alloc: Global, words: &[Bytes], option: OptionName) -> Result<Name, AllocError>
    requires { Fits words.now (rule option Required (Text NameForm)) }
    ensures { IfOk result (λ name. name ≡ word_at option words.now) }
{
    Name::from_bytes(alloc, text_at(words, option, TextForm::Name))
}

/// The name of a volume that is made.
pub fn new_name(alloc: Global, words: &[Bytes], option: OptionName) -> Result<Name, AllocError>
    requires { Fits words.now (rule option Required (Text NewNameForm)) }
    ensures { IfOk result (λ name. name ≡ word_at option words.now) }
{
    Name::from_bytes(alloc, text_at(words, option, TextForm::NewName))
}

/// A server.
pub fn host(alloc: Global, words: &[Bytes], option: OptionName) -> Result<Host, AllocError>
    requires { Fits words.now (rule option Required (Text HostForm)) }
    ensures { IfOk result (λ host. host ≡ word_at option words.now) }
{
    Host::from_bytes(alloc, text_at(words, option, TextForm::Host))
}

/// A partition.
pub fn part(alloc: Global, words: &[Bytes], option: OptionName) -> Result<Part, AllocError>
    requires { Fits words.now (rule option Required (Text PartForm)) }
    ensures { IfOk result (λ part. part ≡ without_slash (word_at option words.now)) }
{
    Part::from_bytes(alloc, without_slash(text_at(words, option, TextForm::Part)))
}

/// A server, or any.
pub fn any_host(
    alloc: Global,
    words: &[Bytes],
    option: OptionName,
) -> Result<Option<Host>, AllocError>
    requires { Fits words.now (rule option Required (Text AnyHostForm)) }
    ensures { IfOk result (λ host. host ≡ unless_any (word_at option words.now)) }
{
    let word = text_at(words, option, TextForm::AnyHost);
    if is_any(word) {
        return Ok(None);
    }
    Ok(Some(Host::from_bytes(alloc, word)?))
}

/// A partition, or any.
pub fn any_part(
    alloc: Global,
    words: &[Bytes],
    option: OptionName,
) -> Result<Option<Part>, AllocError>
    requires { Fits words.now (rule option Required (Text AnyPartForm)) }
    ensures { IfOk result (λ part. part ≡ option_map without_slash (unless_any (word_at option words.now))) }
{
    let word = text_at(words, option, TextForm::AnyPart);
    if is_any(word) {
        return Ok(None);
    }
    Ok(Some(Part::from_bytes(alloc, without_slash(word))?))
}

/// A dump level.
pub fn level(alloc: Global, words: &[Bytes], option: OptionName) -> Result<LevelPath, AllocError>
    requires { Fits words.now (rule option Required (Text LevelPathForm)) }
    ensures { IfOk result (λ level. level ≡ word_at option words.now) }
{
    LevelPath::from_bytes(alloc, text_at(words, option, TextForm::LevelPath))
}

/// The name on a tape's label, where it is there.
pub fn maybe_tape_name(
    alloc: Global,
    words: &[Bytes],
    option: OptionName,
    need: Need,
) -> Result<Option<TapeName>, AllocError>
    requires { Fits words.now (rule option need (Text TapeNameForm)) }
    ensures { IfOk result (λ name. name ≡ maybe_word option words.now) }
{
    match maybe_text(words, option, need, TextForm::TapeName) {
        None => Ok(None),
        Some(word) => Ok(Some(TapeName::from_bytes(alloc, word)?)),
    }
}

/// The name of a volume set, where it is there.
pub fn maybe_set_name(
    alloc: Global,
    words: &[Bytes],
    option: OptionName,
) -> Result<Option<SetName>, AllocError>
    requires { Fits words.now (rule option Free (Text SetNameForm)) }
    ensures { IfOk result (λ value. value ≡ maybe_word option words.now) }
{
    match maybe_text(words, option, Need::Free, TextForm::SetName) {
        None => Ok(None),
        Some(word) => Ok(Some(SetName::from_bytes(alloc, word)?)),
    }
}

/// A server, where it is there.
pub fn maybe_host(
    alloc: Global,
    words: &[Bytes],
    option: OptionName,
) -> Result<Option<Host>, AllocError>
    requires { Fits words.now (rule option Free (Text HostForm)) }
    ensures { IfOk result (λ value. value ≡ maybe_word option words.now) }
{
    match maybe_text(words, option, Need::Free, TextForm::Host) {
        None => Ok(None),
        Some(word) => Ok(Some(Host::from_bytes(alloc, word)?)),
    }
}

/// A partition, where it is there.
pub fn maybe_part(
    alloc: Global,
    words: &[Bytes],
    option: OptionName,
) -> Result<Option<Part>, AllocError>
    requires { Fits words.now (rule option Free (Text PartForm)) }
    ensures { IfOk result (λ value. value ≡ option_map without_slash (maybe_word option words.now)) }
{
    match maybe_text(words, option, Need::Free, TextForm::Part) {
        None => Ok(None),
        Some(word) => Ok(Some(Part::from_bytes(alloc, without_slash(word))?)),
    }
}

/// Bytes, where they are there.
pub fn maybe_bytes(
    alloc: Global,
    words: &[Bytes],
    option: OptionName,
    need: Need,
    form: TextForm,
) -> Result<Option<Bytes>, AllocError>
    requires { Fits words.now (rule option need (Text form)) }
    ensures { IfOk result (λ bytes. bytes ≡ maybe_word option words.now) }
{
    match maybe_text(words, option, need, form) {
        None => Ok(None),
        Some(word) => Ok(Some(Bytes::from_slice(alloc, word)?)),
    }
}

/// What is put behind a restored volume's name, where it is there.
pub fn extension(alloc: Global, words: &[Bytes]) -> Result<Option<Bytes>, AllocError>
    requires { Fits words.now extension }
    ensures { IfOk result (λ bytes. bytes ≡ maybe_word ExtensionOption words.now) }
{
    maybe_bytes(
        alloc,
        words,
        OptionName::Extension,
        Need::Free,
        TextForm::Extension,
    )
}

/// The word of an option that has a pattern.
#[tactic(auto, using(crate::proofs::PatternLaws::pattern_form))]
fn pattern_at(words: &[Bytes], option: OptionName) -> &[u8]
    requires { Fits words.now (rule option Required PatternForm) }
    ensures is { result.now ≡ word_at option words.now }
    ensures form { IsPattern result.now }
{
    match given(words, option) {
        Some(values) if !values.is_empty() => values[0].as_slice(),
        _ => &[],
    }
}

/// A pattern for the names of volumes.
pub fn pattern(alloc: Global, words: &[Bytes], option: OptionName) -> Result<Pattern, AllocError>
    requires { Fits words.now (rule option Required PatternForm) }
    ensures { IfOk result (λ pattern. pattern ≡ word_at option words.now) }
{
    Pattern::from_bytes(alloc, pattern_at(words, option))
}

/// The dump levels that words write.
fn levels_of(alloc: Global, words: &[Bytes]) -> Result<List<LevelPath>, AllocError>
    requires { All IsLevelPath words.now }
    ensures { IfOk result (λ levels. levels ≡ words.now) }
{
    let mut levels = List::new(alloc);
    for word in words {
        levels.push(LevelPath::from_bytes(alloc, word.as_slice())?)?;
    }
    Ok(levels)
}

/// The words of an option that has dump levels.
#[tactic(auto, using(crate::proofs::FormLaws::levels_form))]
fn levels_at(words: &[Bytes], option: OptionName) -> &[Bytes]
    requires { Fits words.now (rule option Required LevelsForm) }
    ensures is { result.now ≡ words_at option words.now }
    ensures form { All IsLevelPath result.now }
{
    match given(words, option) {
        Some(values) => values,
        None => &[],
    }
}

/// Dump levels.
pub fn levels(
    alloc: Global,
    words: &[Bytes],
    option: OptionName,
) -> Result<List<LevelPath>, AllocError>
    requires { Fits words.now (rule option Required LevelsForm) }
    ensures { IfOk result (λ levels. levels ≡ words_at option words.now) }
{
    levels_of(alloc, levels_at(words, option))
}

/// A number within limits, where it is there.
#[tactic(auto, using(crate::proofs::FormLaws::number_kept))]
pub fn maybe_number(
    words: &[Bytes],
    option: OptionName,
    need: Need,
    least: u32,
    most: u32,
) -> Option<u32>
    requires { Fits words.now (rule option need (Number least most)) }
    ensures is { result ≡ maybe_number option words.now }
    ensures within { IfSome result (λ n. n ≤ most) }
{
    match given(words, option) {
        Some(values) if !values.is_empty() => number_within(least, most, values[0].as_slice()),
        _ => None,
    }
}

/// A number within limits.
#[tactic(auto, using(crate::proofs::FormLaws::number_kept))]
pub fn number(words: &[Bytes], option: OptionName, least: u32, most: u32) -> u32
    requires { Fits words.now (rule option Required (Number least most)) }
    ensures { result ≡ number_at option words.now }
{
    maybe_number(words, option, Need::Required, least, most).unwrap_or(0)
}

/// A port offset, which is 0 where it is left out.
pub fn port(words: &[Bytes]) -> u16
    requires { Fits words.now port }
    ensures { result ≡ port_at words.now }
{
    let offset = maybe_number(words, OptionName::Portoffset, Need::Free, 0, 58510);
    offset.unwrap_or(0) as u16
}

/// An expiration; none where it is left out.
#[tactic(auto, using(crate::proofs::WordLaws::given_plain))]
pub fn expiry(alloc: Global, words: &[Bytes], option: OptionName) -> Result<Expiry, AllocError>
    requires { All IsPlainWord words.now }
    ensures { IfOk result (λ expiry. expiry ≡ expiry_at option words.now) }
{
    match given(words, option) {
        None => Ok(Expiry::Unset),
        Some(values) => Ok(expiry_in(alloc, values)?.unwrap_or(Expiry::Unset)),
    }
}

/// A date, where it is there.
#[tactic(auto, using(crate::proofs::WordLaws::given_plain))]
pub fn maybe_date(
    alloc: Global,
    words: &[Bytes],
    option: OptionName,
) -> Result<Option<u32>, AllocError>
    requires { All IsPlainWord words.now }
    ensures { IfOk result (λ date. date ≡ maybe_date option words.now) }
{
    match given(words, option) {
        None => Ok(None),
        Some(values) => Ok(Some(date_in(alloc, values)?.unwrap_or(0))),
    }
}
