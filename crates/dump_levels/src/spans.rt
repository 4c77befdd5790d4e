//! When a dump expires.

ghost use Rattle.std.specs.Prelude.{◌≡◌, ◌≤◌, ◌+◌, ◌*◌, pos, Ok};
ghost use Rattle.jiff.specs.Words.{span_months, span_days, clock_nanos};
ghost use Rattle.bk_text.specs.declared.expiry.Expiry.TheVariants.{In};
ghost use Rattle.dump_levels.specs.Spans.{second_after, expires_at};

use bk_text::Expiry;
use jiff::tz::Offset;
use jiff::{Error, Span, Timestamp};

/// The last second of 2037, in seconds since 1970.
pub const LAST_SECOND: u32 = 2_145_916_799;

/// More years than this lead past 2037 from any second since 1970, and no more of them are handed to the calendar.
const MOST_YEARS: u16 = 100;

/// So many years, months and days.
fn span_of(years: u16, months: u16, days: u16) -> Span
    requires { years ≤ 100 }
    ensures months { span_months result ≡ pos (12 * years + months) }
    ensures days { span_days result ≡ pos days }
    ensures clock { clock_nanos result ≡ pos 0 }
{
    Span::new()
        .years(years.into())
        .months(months.into())
        .days(days.into())
}

/// The second so long after another one.
fn second_after(created: u32, years: u16, months: u16, days: u16) -> Result<i64, Error>
    requires { years ≤ 100 }
    ensures { result ≡ Ok (pos (second_after created years months days)) }
{
    let start = Offset::UTC.to_datetime(Timestamp::from_second(created.into())?);
    let end = start.checked_add(span_of(years, months, days))?;
    Ok(Offset::UTC.to_timestamp(end)?.as_second())
}

/// The second so long after a dump was created, and at the latest the last one of 2037.
fn after_span(created: u32, years: u16, months: u16, days: u16) -> u32
    ensures { result ≡ expires_at created (In years months days) }
{
    if MOST_YEARS < years {
        return LAST_SECOND;
    }
    let second = second_after(created, years, months, days).unwrap();
    second.min(LAST_SECOND.into()) as u32
}

/// The second with which a dump expires that was created at this one.
pub fn expires_at(created: u32, expiry: Expiry) -> u32
    ensures { result ≡ expires_at created expiry }
{
    match expiry {
        Expiry::Unset => 0,
        Expiry::Never => u32::MAX,
        Expiry::At(second) => second.min(LAST_SECOND),
        Expiry::In {
            years,
            months,
            days,
        } => after_span(created, years, months, days),
    }
}
