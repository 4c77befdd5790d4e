//! A log, tapes that are lists of records, and an output: what every layer above the devices stands on. What a crash
//! may leave of all three together is told at every moment, also inside a call. It leaves the settled log, the
//! settled records of each tape with a front of those put since and at most one bad record behind it, and a front of
//! what was told: `LeftIn` in `specs/Crashes.antt`. No more is settled than there is. Enter at the trait `Plant`, and
//! at `MemPlant` for one in memory; what a call does is an `Effect`, in `specs/Effects.antt`. `plant_effects` and
//! `plant_media` stand above; `crash_moments` stands below.
#![tactic(auto)]

mod event;
mod fault;
mod mem;
mod plant;
mod record;
mod refusals;
mod stored;

pub use fault::{Failed, Memory, PutFault};
pub use mem::MemPlant;
pub use plant::Plant;
pub use record::{Block, Kind};
