//! Expirations as they are written in words.

ghost use Rattle.std.specs.Prelude.{◌≡◌, ◌<◌};
ghost use Rattle.bk_text.specs.Blanks.{words_of, is_same_word};
ghost use Rattle.dump_levels.specs.Expiries.{at_word, in_word, never_word, amount_of, days_say, months_say, span_says, never_says, moment_says, begins_moment, expiry_of};

use crate::dates::{DateFault, date_in, day_in};
use crate::spans::LAST_SECOND;
use bk_text::{Expiry, digits_in, split_word};

fn is_at(word: &[u8]) -> bool
    ensures { result ≡ is_same_word word.now at_word }
{
    word.eq_ignore_ascii_case(b"at")
}

fn is_in(word: &[u8]) -> bool
    ensures { result ≡ is_same_word word.now in_word }
{
    word.eq_ignore_ascii_case(b"in")
}

fn is_never(word: &[u8]) -> bool
    ensures { result ≡ is_same_word word.now never_word }
{
    word.eq_ignore_ascii_case(b"never")
}

/// A number of this unit, which is a small letter: one to four digits and the unit in either case, at least 1.
fn amount_in(unit: u8, word: &[u8]) -> Option<u16>
    ensures { result ≡ amount_of unit word.now }
{
    if word.is_empty() {
        return None;
    }
    let last = word.len() - 1;
    let amount = digits_in(&word[..last], 1, 4)?;
    if word[last].to_ascii_lowercase() == unit && 0 < amount {
        Some(amount as u16)
    } else {
        None
    }
}

/// Days, behind years and months.
fn days_in_words(text: &[u8], at: usize, years: u16, months: u16) -> Result<Expiry, DateFault>
    requires { at < 100 }
    ensures { result ≡ days_say at years months (words_of text.now) }
{
    let Some((word, rest)) = split_word(text) else {
        if years == 0 && months == 0 {
            return Err(DateFault::BadDate { at });
        }
        return Ok(Expiry::In {
            years,
            months,
            days: 0,
        });
    };
    let Some(days) = amount_in(b'd', word) else {
        return Err(DateFault::BadDate { at });
    };
    if split_word(rest).is_some() {
        return Err(DateFault::BadDate { at: at + 1 });
    }
    Ok(Expiry::In {
        years,
        months,
        days,
    })
}

/// Perhaps months, and then days.
fn months_in_words(text: &[u8], at: usize, years: u16) -> Result<Expiry, DateFault>
    requires { at < 50 }
    ensures { result ≡ months_say at years (words_of text.now) }
{
    let Some((word, rest)) = split_word(text) else {
        return days_in_words(text, at, years, 0);
    };
    match amount_in(b'm', word) {
        None => days_in_words(text, at, years, 0),
        Some(months) => days_in_words(rest, at + 1, years, months),
    }
}

/// So long after a dump: perhaps years, and then months and days.
fn span_in(text: &[u8], at: usize) -> Result<Expiry, DateFault>
    requires { at < 10 }
    ensures { result ≡ span_says at (words_of text.now) }
{
    let Some((word, rest)) = split_word(text) else {
        return months_in_words(text, at, 0);
    };
    match amount_in(b'y', word) {
        None => months_in_words(text, at, 0),
        Some(years) => months_in_words(rest, at + 1, years),
    }
}

/// What stands behind NEVER.
fn never_in(rest: &[u8], at: usize) -> Result<Expiry, DateFault>
    ensures { result ≡ never_says at (words_of rest.now) }
{
    match split_word(rest) {
        None => Ok(Expiry::Never),
        Some(_) => Err(DateFault::BadDate { at }),
    }
}

/// A moment: NEVER, or a date up to the last second of 2037.
fn moment_in(text: &[u8], at: usize) -> Result<Expiry, DateFault>
    requires { at < 10 }
    ensures { result ≡ moment_says at (words_of text.now) }
{
    let Some((word, rest)) = split_word(text) else {
        return Err(DateFault::BadDate { at });
    };
    if is_never(word) {
        return never_in(rest, at + 1);
    }
    match date_in(text, at, 0, LAST_SECOND) {
        Err(fault) => Err(fault),
        Ok(second) => Ok(Expiry::At(second)),
    }
}

fn is_first_of_moment(word: &[u8]) -> bool
    ensures { result ≡ begins_moment word.now }
{
    is_never(word) || day_in(word).is_some()
}

/// Reads an expiration: `at` and a moment, `NEVER` or `mm/dd/yyyy` and perhaps `hh:MM`, or `in` and one to three of
/// `ny`, `nm` and `nd` in this order, n of one to four digits and at least 1. `at` and `in` may be left out, and words
/// and units are read in either case. The time of day is 00:00 where it is left out, and a moment past 2037 is reduced
/// to the last second of 2037. `BadDate` tells the first word that doesn't fit, and `DateOutOfRange` comes where every
/// word fits and the day is before 1970. The form is that of the OpenAFS Administration Guide; the limits are this
/// project's own choice. It takes no memory.
pub fn parse_expiry(text: &[u8]) -> Result<Expiry, DateFault>
    ensures { result ≡ expiry_of text.now }
{
    let Some((word, rest)) = split_word(text) else {
        return Err(DateFault::BadDate { at: 0 });
    };
    if is_at(word) {
        return moment_in(rest, 1);
    }
    if is_in(word) {
        return span_in(rest, 1);
    }
    if is_first_of_moment(word) {
        moment_in(text, 0)
    } else {
        span_in(text, 0)
    }
}
