//! Dates as they are written in words.

ghost use Rattle.std.specs.Prelude.{◌≡◌, ◌<◌, ◌≤◌, ◌==◌, ℕ, Ok, IfSome, IfOk, IsTrue};
ghost use Rattle.std.specs.List.{before_first, after_first};
ghost use Rattle.bk_text.specs.Blanks.{words_of};
ghost use Rattle.bk_text.specs.Digits.{digits_of};
ghost use Rattle.dump_levels.specs.Calendar.{is_day};
ghost use Rattle.dump_levels.specs.Dates.{is_slash, is_colon, real_day, day_of, real_minutes, minutes_of, time_says, moment_of, date_says, date_of};

use crate::calendar::{Day, exists, second_at};
use crate::spans::LAST_SECOND;
use bk_text::{digits_in, place_of, split_word};
use thiserror::Error;

/// The seconds of a minute.
const MINUTE: u32 = 60;

/// Why a date or an expiration was refused.
#[derive(Clone, Copy, Debug, PartialEq, Eq, Drop, Error)]
pub enum DateFault {
    /// The word of this number doesn't fit; words count from 0. Where a word is wanting, it is the number of words. A
    /// day that the calendar lacks doesn't fit.
    #[error("word {at} does not fit")]
    BadDate { at: usize },
    /// Every word fits, and the day is before 1970.
    #[error("the date is before 1970")]
    DateOutOfRange,
}

/// What stands before a byte and behind it; nothing behind it where it isn't there.
fn split_at_first(byte: u8, text: &[u8]) -> (&[u8], &[u8])
    ensures front { result.0.now ≡ before_first (λ b. b == byte) text.now }
    ensures behind { result.1.now ≡ after_first (λ b. b == byte) text.now }
{
    let at = place_of(byte, text);
    if at == text.len() {
        return (text, &[]);
    }
    (&text[..at], &text[at + 1..])
}

/// A day that the calendar has.
fn day_with(month: Option<u32>, day: Option<u32>, year: Option<u32>) -> Option<Day>
    ensures is { result ≡ real_day month day year }
    ensures real { IfSome result (λ found. IsTrue (is_day found)) }
{
    let month = month?;
    let day = day?;
    let year = year?;
    let found = Day { year, month, day };
    if exists(found) { Some(found) } else { None }
}

/// The day that a word writes.
pub fn day_in(word: &[u8]) -> Option<Day>
    ensures is { result ≡ day_of word.now }
    ensures real { IfSome result (λ found. IsTrue (is_day found)) }
{
    let (month, behind) = split_at_first(b'/', word);
    let (day, year) = split_at_first(b'/', behind);
    day_with(
        digits_in(month, 1, 2),
        digits_in(day, 1, 2),
        digits_in(year, 4, 4),
    )
}

/// The minutes since midnight.
fn minutes_with(hour: Option<u32>, minute: Option<u32>) -> Option<u32>
    ensures is { result ≡ real_minutes hour minute }
    ensures within { IfSome result (λ minutes. minutes < 1440) }
{
    let hour = hour?;
    let minute = minute?;
    if hour < 24 && minute < 60 {
        Some(hour * 60 + minute)
    } else {
        None
    }
}

/// The time of day that a word writes, as the minutes since midnight.
fn minutes_in(word: &[u8]) -> Option<u32>
    ensures is { result ≡ minutes_of word.now }
    ensures within { IfSome result (λ minutes. minutes < 1440) }
{
    let (hour, minute) = split_at_first(b':', word);
    minutes_with(digits_in(hour, 1, 2), digits_in(minute, 1, 2))
}

/// The time of day in words, from the word of this number on, as the minutes since midnight.
fn time_in(text: &[u8], at: usize) -> Result<u32, DateFault>
    requires { at < 1000 }
    ensures is { result ≡ time_says at (words_of text.now) }
    ensures within { IfOk result (λ minutes. minutes < 1440) }
{
    let Some((word, rest)) = split_word(text) else {
        return Ok(0);
    };
    let Some(minutes) = minutes_in(word) else {
        return Err(DateFault::BadDate { at });
    };
    if split_word(rest).is_some() {
        return Err(DateFault::BadDate { at: at + 1 });
    }
    Ok(minutes)
}

/// The second that comes so long after a minute begins, and past 2037 the latest one.
fn moment_at(added: u32, latest: u32, day: Day, minutes: u32) -> Result<u32, DateFault>
    requires added { added ≤ 60 }
    requires real { IsTrue (is_day day) }
    requires minutes { minutes < 1440 }
    ensures { result ≡ moment_of added latest day (Ok minutes) }
{
    if day.year < 1970 {
        return Err(DateFault::DateOutOfRange);
    }
    if 2037 < day.year {
        return Ok(latest);
    }
    Ok(second_at(day, minutes) + added)
}

/// A day in words, from the word of this number on, and perhaps a time of day: the second that comes so long after that
/// minute begins, and past 2037 the latest one.
pub fn date_in(text: &[u8], at: usize, added: u32, latest: u32) -> Result<u32, DateFault>
    requires at { at < 100 }
    requires added { added ≤ 60 }
    ensures { result ≡ date_says at added latest (words_of text.now) }
{
    let Some((word, rest)) = split_word(text) else {
        return Err(DateFault::BadDate { at });
    };
    let Some(day) = day_in(word) else {
        return Err(DateFault::BadDate { at });
    };
    match time_in(rest, at + 1) {
        Err(fault) => Err(fault),
        Ok(minutes) => moment_at(added, latest, day, minutes),
    }
}

/// Reads the date of a restore, `mm/dd/yyyy` and perhaps `hh:MM`, as the first second after that minute, in seconds
/// since 1970: dumps strictly before it count, so every dump of that minute does, which is this project's own choice.
/// The time of day is 00:00 where it is left out. A date past 2037 gives 2145916800. `BadDate` tells the first word
/// that doesn't fit, and `DateOutOfRange` comes where every word fits and the day is before 1970. The form is that of
/// the OpenAFS Administration Guide. It takes no memory.
pub fn parse_date(text: &[u8]) -> Result<u32, DateFault>
    ensures { result ≡ date_of text.now }
{
    date_in(text, 0, MINUTE, LAST_SECOND + 1)
}
