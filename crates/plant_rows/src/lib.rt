//! Tests of plants over files in memory: stopped at each call and opened again as each pick leaves them, and over files that something
//! else has written. Nothing stands on these tests; `plant_media` stands below.
#![tactic(auto)]

#[cfg(test)]
mod rows;
