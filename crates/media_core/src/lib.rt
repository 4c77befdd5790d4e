//! The traits of the outside: numbered files with one output, a clock and a source of bytes. Each has an
//! implementation in memory. What a crash may leave of files and output together is told at every moment, also inside
//! a call, and what reads give is always one of these images. The disk model for it is `IsLeft` in
//! `specs/Events.antt`, over `specs/Disk.antt`. Enter at `Media`, `Clock` and `Source`; in memory at `MemMedia`,
//! `ClockMem` and `SourceMem`. `crash_log`, `plant_media`, `cell_core` and `host_edge` stand above; `crash_moments`
//! stands below.
#![tactic(auto)]

mod bytes;
mod clock;
mod event;
mod failures;
mod media;
mod mem;
mod plan;
mod replay;
mod source;

pub use clock::{Clock, ClockMem};
pub use media::{Failed, Media, Memory};
pub use mem::MemMedia;
pub use plan::{Plan, Turn};
pub use replay::Pick;
pub use source::{Source, SourceMem};
