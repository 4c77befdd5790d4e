// Lines of commands, and of what is told.
use std::alloc::{AllocError, Global};

/// A tape host for each of the two ports, and seven levels.
pub const HOSTS: &str = "addhost -tapehost th -portoffset 0
addhost -tapehost th -portoffset 1
adddump -dump /full /full/d1 /full/d1/d2 /full/d1/d2/d3 /full/d1/d2/d3/d4 /full/d1/d2/d3/d4/d5 /full/d1/d2/d3/d4/d5/d6 -expires in 3m";

/// A volume set of all volumes whose names have four bytes, and one of those with an `x` behind.
pub const SETS: &str = "addvolset -name v
addvolentry -name v -server .* -partition .* -volumes v...
addvolset -name w
addvolentry -name w -server .* -partition .* -volumes v...x";

/// Five volume sets, by the last digit of a volume's name.
pub const FIVE_SETS: &str = "addvolset -name a
addvolentry -name a -server .* -partition .* -volumes v..[05]
addvolset -name b
addvolentry -name b -server .* -partition .* -volumes v..[16]
addvolset -name c
addvolentry -name c -server .* -partition .* -volumes v..[27]
addvolset -name d
addvolentry -name d -server .* -partition .* -volumes v..[38]
addvolset -name e
addvolentry -name e -server .* -partition .* -volumes v..[49]";

/// A full dump of each of the five.
pub const FIVE_DUMPS: &str = "dump -volumeset a -dump /full
dump -volumeset b -dump /full
dump -volumeset c -dump /full
dump -volumeset d -dump /full
dump -volumeset e -dump /full";

/// The full level, and the levels of increments below it, each with the moment at which it is dumped.
pub const LEVELS: [(u64, &str); 7] = [
    (2000, "/full"),
    (3000, "/full/d1"),
    (4000, "/full/d1/d2"),
    (5000, "/full/d1/d2/d3"),
    (6000, "/full/d1/d2/d3/d4"),
    (7000, "/full/d1/d2/d3/d4/d5"),
    (8000, "/full/d1/d2/d3/d4/d5/d6"),
];

/// Restores a partition beside itself.
pub const DISK: &str = "diskrestore -server fs1 -partition vicepa -extension .r";

/// Restores a volume set beside itself.
pub const SET: &str = "volsetrestore -name v -extension .r";

/// Adds a line for each number of a range, with the number between its two parts.
pub fn put_each(
    alloc: Global,
    lines: &mut String,
    first: u32,
    last: u32,
    front: &str,
    back: &str,
) -> Result<(), AllocError> {
    for number in first..=last {
        let line = format!(in alloc; "{front}{number}{back}\n")?;
        lines.push_str(line.as_str())?;
    }
    Ok(())
}

/// Lines that make the volumes v101 to the one of the last number.
pub fn making(alloc: Global, last: u32) -> Result<String, AllocError> {
    let mut lines = String::new(alloc);
    put_each(
        alloc,
        &mut lines,
        101,
        last,
        "vos create -server fs1 -partition vicepa -name v",
        "",
    )?;
    Ok(lines)
}

/// What is told of these volumes, restored with this behind each one's name.
pub fn restored(alloc: Global, last: u32, back: &str) -> Result<String, AllocError> {
    let mut lines = String::new(alloc);
    put_each(alloc, &mut lines, 101, last, "restored v", back)?;
    lines.push_str("ok\n")?;
    Ok(lines)
}

/// What is told of these volumes where each has the dump that the last digit of its name picks.
pub fn restored_by_digit(alloc: Global, last: u32) -> Result<String, AllocError> {
    let mut lines = String::new(alloc);
    for number in 101..=last {
        let line = format!(in alloc; "restored v{number}.r from {} chain 1\n", 2000 + number % 5)?;
        lines.push_str(line.as_str())?;
    }
    lines.push_str("ok\n")?;
    Ok(lines)
}

/// What is told of the volumes v101 to v115, and of v108x between them, whose tape is gone.
pub fn restored_but_one(alloc: Global) -> Result<String, AllocError> {
    let back = ".r from 3000 chain 2";
    let mut lines = String::new(alloc);
    put_each(alloc, &mut lines, 101, 108, "restored v", back)?;
    lines.push_str("refused 62 MissingTape w.full.1 4000\n")?;
    put_each(alloc, &mut lines, 109, 115, "restored v", back)?;
    lines.push_str("ok\n")?;
    Ok(lines)
}
