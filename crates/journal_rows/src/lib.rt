//! Tests of the journal's log over plants in memory and over files in memory: committed, stopped at each call and opened again as each
//! pick leaves it, damaged, and full. Nothing stands on these tests; `budb_journal` and `plant_media` stand below.
#![tactic(auto)]

#[cfg(test)]
mod rows;
