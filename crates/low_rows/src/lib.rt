//! Tests of texts, dates, configurations, patterns and linked records, of what no line of a script says. Nothing stands on these tests;
//! `bk_text`, `tape_config`, `volume_sets`, `dump_levels` and the crates of the database stand below.
#![tactic(auto)]

#[cfg(test)]
mod configs;
#[cfg(test)]
mod dates;
#[cfg(test)]
mod fields;
#[cfg(test)]
mod links;
#[cfg(test)]
mod patterns;
#[cfg(test)]
mod texts;
