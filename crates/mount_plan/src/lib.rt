//! Restores of several volumes that find each tape once for each dump on it. `MountPlan::new` says which tapes that
//! takes, each once, by the dump's id and then by the tape's number; `play_all` plays the volumes: what it answers
//! for each is what a restore of it alone gives. The loads are at most one for each tape of the plan, and one for
//! each slot that has its label and doesn't hold it. Enter at `MountPlan::new`, then at `play_all`.
//! `restore_commands` stands above; `restore_chain`, `archive_model` and `budb` stand below.
//!
//! # Example
//!
//! ```
//! let plan = MountPlan::new(alloc, &budb, &names, None)?;
//! let played = play_all(alloc, &plan, &budb, None, &mut plant)?; // one for each name, in order
//! ```
#![tactic(auto)]

mod among;
mod course;
mod courses;
mod fault;
mod meeting;
mod next;
mod outcomes;
mod plan;
mod playing;
mod told;

pub use among::mounts_stand_once_in_order;
pub use fault::{MountFault, Played};
pub use plan::{MountNeed, MountPlan};
pub use playing::play_all;
