//! What is wrong with the values of options.

ghost use Rattle.backup_words.specs.Fitting.{IsPlainWord};
ghost use Rattle.std.specs.Prelude.{◌≡◌, All, IfOk, if◌then◌else◌, Some, None};
ghost use Rattle.dump_levels.specs.Dates.{date_says};
ghost use Rattle.dump_levels.specs.Expiries.{expiry_says};
ghost use Rattle.volume_sets.specs.Testing.{is_pattern, pattern_place};
ghost use Rattle.backup_words.specs.Values.{unfit_unless, date_fault, is_flag, values_fault, form_fault, is_excluded, rule_fault, number_of, least, value_fault};
ghost use Rattle.backup_words.specs.declared.faults.ValueFault.TheVariants.{NoPattern};

use crate::faults::ValueFault;
use crate::forms::{all_levels, is_text, number_within};
use crate::options::{Form, Need, OptionName, Rule};
use crate::words::{given, has, join};
use bk_text::{Bytes, Expiry};
use dump_levels::{DateFault, parse_date, parse_expiry};
use std::alloc::{AllocError, Global};
use volume_sets::pattern_fault;

fn unfit_unless(option: OptionName, fits: bool) -> Option<ValueFault>
    ensures { result ≡ unfit_unless option fits }
{
    if fits {
        None
    } else {
        Some(ValueFault::Unfit(option))
    }
}

fn date_fault<T: Copy>(read: Result<T, DateFault>) -> Option<ValueFault>
    ensures { result ≡ date_fault read }
{
    match read {
        Ok(_) => None,
        Err(DateFault::BadDate { at }) => Some(ValueFault::NoDate(at)),
        Err(DateFault::DateOutOfRange) => Some(ValueFault::TooEarly),
    }
}

/// The expiration that words write.
pub fn expiry_in(alloc: Global, words: &[Bytes]) -> Result<Result<Expiry, DateFault>, AllocError>
    requires { All IsPlainWord words.now }
    ensures { IfOk result (λ read. read ≡ expiry_says words.now) }
{
    let text = join(alloc, words)?;
    Ok(parse_expiry(text.as_slice()))
}

/// The date that words write.
pub fn date_in(alloc: Global, words: &[Bytes]) -> Result<Result<u32, DateFault>, AllocError>
    requires { All IsPlainWord words.now }
    ensures { IfOk result (λ read. read ≡ date_says 0 60 2145916800 words.now) }
{
    let text = join(alloc, words)?;
    Ok(parse_date(text.as_slice()))
}

#[tactic(auto, using(crate::proofs::PatternLaws::told_none, crate::proofs::PatternLaws::told_some))]
fn fault_in_pattern(text: &[u8]) -> Option<ValueFault>
    ensures { result ≡ (if is_pattern text.now then None else Some (NoPattern (pattern_place text.now))) }
{
    match pattern_fault(text) {
        None => None,
        Some(at) => Some(ValueFault::NoPattern(at)),
    }
}

fn is_flag(form: Form) -> bool
    ensures { result ≡ is_flag form }
{
    match form {
        Form::Flag => true,
        _ => false,
    }
}

/// What is wrong with values of which this is the first.
fn values_fault(
    alloc: Global,
    option: OptionName,
    form: Form,
    value: &[u8],
    values: &[Bytes],
) -> Result<Option<ValueFault>, AllocError>
    requires { All IsPlainWord values.now }
    ensures { IfOk result (λ fault. fault ≡ values_fault option form value.now values.now) }
{
    match form {
        Form::Flag => Ok(None),
        Form::Text(text) => Ok(unfit_unless(option, is_text(text, value))),
        Form::Number { least, most } => Ok(unfit_unless(
            option,
            number_within(least, most, value).is_some(),
        )),
        Form::Pattern => Ok(fault_in_pattern(value)),
        Form::Levels => Ok(unfit_unless(option, all_levels(values))),
        Form::Expiry => Ok(date_fault(expiry_in(alloc, values)?)),
        Form::Date => Ok(date_fault(date_in(alloc, values)?)),
    }
}

fn form_fault(
    alloc: Global,
    option: OptionName,
    form: Form,
    values: &[Bytes],
) -> Result<Option<ValueFault>, AllocError>
    requires { All IsPlainWord values.now }
    ensures { IfOk result (λ fault. fault ≡ form_fault option form values.now) }
{
    match values.split_first() {
        None => Ok(unfit_unless(option, is_flag(form))),
        Some((first, _)) => values_fault(alloc, option, form, first.as_slice(), values),
    }
}

fn is_excluded(words: &[Bytes], need: Need) -> bool
    ensures { result ≡ is_excluded words.now need }
{
    match need {
        Need::NotWith(other) => has(words, other),
        _ => false,
    }
}

/// What is wrong with the values of an option, where it is there.
#[tactic(auto, using(crate::proofs::WordLaws::given_plain))]
fn rule_fault(alloc: Global, words: &[Bytes], rule: Rule) -> Result<Option<ValueFault>, AllocError>
    requires { All IsPlainWord words.now }
    ensures { IfOk result (λ fault. fault ≡ rule_fault words.now rule) }
{
    let Some(values) = given(words, rule.option) else {
        return Ok(None);
    };
    if is_excluded(words, rule.need) {
        return Ok(Some(ValueFault::Unfit(rule.option)));
    }
    form_fault(alloc, rule.option, rule.form, values)
}

/// The number of a refusal.
fn number_of(fault: ValueFault) -> u8
    ensures { result ≡ number_of fault }
{
    match fault {
        ValueFault::Unfit(_) => 4,
        ValueFault::NoPattern(_) => 13,
        ValueFault::NoDate(_) => 23,
        ValueFault::TooEarly => 24,
    }
}

/// The fault of the least number, and of one number the first.
fn least(first: Option<ValueFault>, second: Option<ValueFault>) -> Option<ValueFault>
    ensures { result ≡ least first second }
{
    match (first, second) {
        (None, second) => second,
        (first, None) => first,
        (Some(first), Some(second)) if number_of(second) < number_of(first) => Some(second),
        (first, Some(_)) => first,
    }
}

/// What is wrong with the values of the options that are there.
pub fn value_fault(
    alloc: Global,
    rules: &[Rule],
    words: &[Bytes],
) -> Result<Option<ValueFault>, AllocError>
    requires { All IsPlainWord words.now }
    ensures { IfOk result (λ fault. fault ≡ value_fault words.now rules.now) }
{
    let mut found = None;
    for rule in rules {
        found = least(found, rule_fault(alloc, words, *rule)?);
    }
    Ok(found)
}
