//! Tests of the files, the source and the clock in memory: what each pick leaves, which calls fail, and what is read. `picks` has what
//! a crash may leave, and `plans` which calls fail. Nothing stands on these tests; `media_core` stands below.
#![tactic(auto)]

#[cfg(test)]
mod files;
#[cfg(test)]
mod inputs;
#[cfg(test)]
mod picks;
#[cfg(test)]
mod plans;
