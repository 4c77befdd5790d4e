//! Tests of logs over files in memory: stopped at each call and read again as each pick leaves them, and byte by byte. `rows` has the
//! stops, `raw` the bytes. Nothing stands on these tests; `crash_log` stands below.
#![tactic(auto)]

#[cfg(test)]
mod raw;
#[cfg(test)]
mod rows;
