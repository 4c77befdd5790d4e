//! Dates up to which dumps count, and when the dumps of a level expire.

use bk_text::{Expiry, LevelPath};
use dump_levels::{DateFault, LevelFault, Levels, parse_date, parse_expiry};
use std::alloc::Global;

const BAD: u32 = u32::MAX;

/// Whether a date is read so: this second, or where that is no second, this word is bad.
fn is_date(text: &[u8], second: u32, word: usize) -> bool {
    match parse_date(text) {
        Ok(found) => found == second,
        Err(fault) => second == BAD && fault == DateFault::BadDate { at: word },
    }
}

#[test]
fn dates(rt: HostRuntime) {
    let table: [(&[u8], u32, usize); 14] = [
        (b"01/01/1970 00:49".as_slice(), 3000, 0),
        (b"1/1/1970 1:5".as_slice(), 3960, 0),
        (b"\t02/29/2024  23:59 ".as_slice(), 1709251200, 0),
        (b"12/31/2037 23:59".as_slice(), 2145916800, 0),
        (b"01/01/2038".as_slice(), 2145916800, 0),
        (b"12/31/9999 23:59".as_slice(), 2145916800, 0),
        (b"".as_slice(), BAD, 0),
        (b"at 01/01/1970".as_slice(), BAD, 0),
        (b"02/30/2024".as_slice(), BAD, 0),
        (b"02/29/1900 25:00".as_slice(), BAD, 0),
        (b"001/01/1970".as_slice(), BAD, 0),
        (b"12/31/1969 25:00".as_slice(), BAD, 1),
        (b"12/31/1969 23:60".as_slice(), BAD, 1),
        (b"01/01/1970 00:00 x".as_slice(), BAD, 2),
    ];
    for (text, second, word) in table {
        assert!(rt; is_date(text, second, word), "{text:?}");
    }
    assert!(rt; parse_date(b"12/31/1969 23:59") == Err(DateFault::DateOutOfRange));
    assert!(rt; parse_date(b"02/29/0000") == Err(DateFault::DateOutOfRange));
    assert!(rt; parse_expiry(b"") == Err(DateFault::BadDate { at: 0 }));
}

/// A span of years, months and days.
fn span(years: u16, months: u16, days: u16) -> Expiry {
    Expiry::In {
        years,
        months,
        days,
    }
}

/// When a dump expires that is created at this second, of the one level that expires so; no memory where its path is none.
fn expiry_of(alloc: Global, created: u32, expiry: Expiry) -> Result<u32, LevelFault> {
    let Ok(path) = LevelPath::parse(alloc, b"/full") else {
        return Err(LevelFault::Memory);
    };
    expiry_at(alloc, &path, created, expiry)
}

fn expiry_at(
    alloc: Global,
    path: &LevelPath,
    created: u32,
    expiry: Expiry,
) -> Result<u32, LevelFault> {
    let mut levels = Levels::new(alloc);
    levels.add(path.clone()?, expiry)?;
    levels.expiry_of(path, created)
}

/// A second at which dumps are created, and when they expire 0, 1, 2 and more months later. The seconds are those that GNU
/// `date -u` prints.
const MONTHS: [(u32, &'static [u32]); 4] = [
    (
        944006399,
        &[
            944006399, 946598399, 949276799, 951868799, 954460799, 957139199, 959731199, 962409599,
            965001599, 967679999, 970358399, 972950399, 975628799, 978220799, 980899199, 983404799,
            985996799,
        ],
    ),
    (
        1698755696,
        &[
            1698755696, 1701347696, 1704026096, 1706704496, 1709210096, 1711888496, 1714480496,
            1717158896, 1719750896, 1722429296, 1725107696, 1727699696, 1730378096, 1732970096,
            1735648496, 1738326896, 1740746096,
        ],
    ),
    (
        1767139200,
        &[
            1767139200, 1769817600, 1772236800, 1774915200, 1777507200, 1780185600, 1782777600,
            1785456000, 1788134400, 1790726400, 1793404800, 1795996800, 1798675200, 1801353600,
            1803772800,
        ],
    ),
    (
        2111553000,
        &[
            2111553000, 2114145000, 2116823400, 2119415400, 2121921000, 2124599400, 2127191400,
            2129869800, 2132461800, 2135140200, 2137818600, 2140410600, 2143089000, 2145681000,
            2145916799, 2145916799,
        ],
    ),
];

/// The same for years.
const YEARS: (u32, &'static [u32]) = (
    1709229600,
    &[
        1709229600, 1740765600, 1772301600, 1803837600, 1835460000, 1866996000, 1898532000,
        1930068000, 1961690400, 1993226400, 2024762400, 2056298400, 2087920800, 2119456800,
        2145916799,
    ],
);

/// Whether a dump that is created at this second expires 0, 1, 2 and more months later at these.
fn months_give(alloc: Global, created: u32, seconds: &[u32]) -> bool {
    let mut months = 0u16;
    for second in seconds {
        if expiry_of(alloc, created, span(0, months, 0)) != Ok(*second) {
            return false;
        }
        months = months.wrapping_add(1);
    }
    true
}

/// The same for years.
fn years_give(alloc: Global, created: u32, seconds: &[u32]) -> bool {
    let mut years = 0u16;
    for second in seconds {
        if expiry_of(alloc, created, span(years, 0, 0)) != Ok(*second) {
            return false;
        }
        years = years.wrapping_add(1);
    }
    true
}

#[test]
fn months_and_years_later(rt: HostRuntime) {
    for (created, seconds) in MONTHS {
        assert!(rt; months_give(rt.alloc(), created, seconds), "{created}");
    }
    assert!(rt; years_give(rt.alloc(), YEARS.0, YEARS.1));
}

/// Whether a dump that is created at this second, of a level that expires so, expires at this second.
fn gives(alloc: Global, created: u32, expiry: Expiry, second: u32) -> bool {
    expiry_of(alloc, created, expiry) == Ok(second)
}

#[test]
fn spans_of_more_than_one_unit(rt: HostRuntime) {
    let table: [(u32, (u16, u16, u16), u32); 8] = [
        (1706702400, (0, 1, 0), 1709208000),
        (1706702400, (0, 0, 29), 1709208000),
        (1706702400, (1, 1, 1), 1740830400),
        (1675152000, (0, 1, 30), 1680163200),
        (1709164800, (1, 1, 0), 1743206400),
        (0, (67, 11, 30), 2145830400),
        (86399, (67, 11, 30), 2145916799),
        (0, (67, 11, 31), 2145916799),
    ];
    for (created, (years, months, days), second) in table {
        assert!(rt;
            gives(rt.alloc(), created, span(years, months, days), second),
            "{created}"
        );
    }
}

#[test]
fn moments_past_2037_and_none(rt: HostRuntime) {
    let table: [(u32, Expiry); 8] = [
        (0, span(68, 0, 0)),
        (0, span(100, 0, 0)),
        (0, span(101, 0, 0)),
        (u32::MAX, span(0, 0, 0)),
        (u32::MAX, span(100, 65535, 65535)),
        (0, span(65535, 65535, 65535)),
        (5, Expiry::At(2145916799)),
        (5, Expiry::At(4294967295)),
    ];
    for (created, expiry) in table {
        assert!(rt; gives(rt.alloc(), created, expiry, 2145916799), "{created}");
    }
    assert!(rt; gives(rt.alloc(), 1706702400, Expiry::Never, 4294967295));
    assert!(rt; gives(rt.alloc(), 1706702400, Expiry::Unset, 0));
}

/// What levels without `/fuller` answer at it; no memory where a path is none.
fn expiry_of_another(alloc: Global) -> Result<u32, LevelFault> {
    let Ok(path) = LevelPath::parse(alloc, b"/fuller") else {
        return Err(LevelFault::Memory);
    };
    Levels::new(alloc).expiry_of(&path, 1706702400)
}

#[test]
fn a_level_that_is_not_there(rt: HostRuntime) {
    assert!(rt; expiry_of_another(rt.alloc()) == Err(LevelFault::NoSuchLevel));
}
