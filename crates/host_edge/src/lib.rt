//! The system as media, clock and source: files in a folder, standard input and the system's clock. This is the
//! trusted edge: no clause says what a real file, stream or clock gives. A `DirMedia` always has the journal and 256
//! slots, each with a file or none (`all_slots`). Enter at `open_all`, which opens what a program needs in its order,
//! at `DirMedia::open`, and at `SysClock` and `StdSource`. `dir_cell`, `backup_top` and `backup_program` stand above;
//! `media_core` and `crash_moments` stand below.
//!
//! Writing past the file size limit of a process ends it with a signal that the standard library cannot catch. What
//! the files then have is what a crash leaves.
#![tactic(auto)]

mod apart;
mod calls;
mod clock;
mod config;
mod counting;
mod dir_media;
mod disk_file;
mod fault;
mod files;
mod lists;
mod lock;
mod node;
mod opening;
mod refusal;
mod slots;
mod source;
mod waiting;

pub use calls::{again, read_again};
pub use clock::SysClock;
pub use config::read_config;
pub use dir_media::DirMedia;
pub use disk_file::DiskFile;
pub use fault::{EdgeFault, at_path};
pub use files::{make_folder, make_new, not_regular, open_file, path_in, remove_file, sync_folder};
pub use lists::add;
pub use lock::{FolderLock, lock_folder};
pub use node::Node;
pub use opening::{Doors, Opened, Place, Unopened, open_all};
pub use refusal::{Explains, ExplainsMedia, Refusal};
pub use slots::changed;
pub use source::StdSource;
