//! The calendar: days, and the seconds since 1970.

ghost use Rattle.std.specs.Prelude.{◌≡◌, ◌≤◌, ◌<◌, ◌*◌, ◌-◌, IsTrue};
ghost use Rattle.dump_levels.specs.Calendar.{is_leap, days_in_year, days_in_month, is_day, days_of_years, days_of_months, days_since, second_of};

/// A day: months and days count from 1.
#[derive(Clone, Copy, Debug, PartialEq, Eq)]
pub struct Day {
    pub year: u32,
    pub month: u32,
    pub day: u32,
}

fn has_leap_day(year: u32) -> bool
    ensures { result ≡ is_leap year }
{
    year % 4 == 0 && (year % 100 != 0 || year % 400 == 0)
}

fn year_days(year: u32) -> u32
    ensures is { result ≡ days_in_year year }
    ensures within { result ≤ 366 }
{
    if has_leap_day(year) { 366 } else { 365 }
}

fn february_days(year: u32) -> u32
    ensures is { result ≡ days_in_month year 2 }
    ensures within { result ≤ 31 }
{
    if has_leap_day(year) { 29 } else { 28 }
}

fn month_days(year: u32, month: u32) -> u32
    ensures is { result ≡ days_in_month year month }
    ensures within { result ≤ 31 }
{
    if month == 2 {
        return february_days(year);
    }
    if month == 4 || month == 6 || month == 9 || month == 11 {
        30
    } else {
        31
    }
}

/// Whether the calendar has this day.
pub fn exists(day: Day) -> bool
    ensures { result ≡ is_day day }
{
    1 <= day.month && day.month <= 12 && 1 <= day.day && day.day <= month_days(day.year, day.month)
}

/// The days of so many years from 1970 on.
fn all_year_days(years: u32) -> u32
    requires { years < 100 }
    ensures is { result ≡ days_of_years years }
    ensures within { result ≤ 366 * years }
{
    let mut days = 0;
    for before in 0..years {
        days += year_days(1970 + before);
    }
    days
}

/// The days of so many months of a year.
fn all_month_days(year: u32, months: u32) -> u32
    requires { months < 12 }
    ensures is { result ≡ days_of_months year months }
    ensures within { result ≤ 31 * months }
{
    let mut days = 0;
    for before in 0..months {
        days += month_days(year, before + 1);
    }
    days
}

/// The second, since 1970, with which a minute of a day begins; minutes count from midnight.
pub fn second_at(day: Day, minutes: u32) -> u32
    requires real { IsTrue (is_day day) }
    requires first { 1970 ≤ day.year }
    requires last { day.year ≤ 2037 }
    requires minutes { minutes < 1440 }
    ensures is { result ≡ second_of day minutes }
    ensures within { result < 2200000000 }
{
    let days = all_year_days(day.year - 1970)
        + all_month_days(day.year, day.month - 1)
        + (day.day - 1);
    (days * 1440 + minutes) * 60
}
