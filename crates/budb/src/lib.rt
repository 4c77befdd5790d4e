//! The Backup Database on the journal of a plant: opened from the log, changed by commits that take all memory before
//! they write, looked up, and made short by checkpoints. A `Budb` keeps an index of exactly its listed dumps, and
//! what is prepared is ready for a commit (`IsKept` in `specs/Views.antt`). Its database is what the log's changes
//! make (`Keeps` in `specs/Kept.antt`). Enter at `Budb::open`, then at `Budb::commit`, or at `Budb::prepare` and
//! `Budb::commit_prepared` where memory must be taken before other effects. `dump_job`, `restore_chain` and
//! `backup_session` stand above; `budb_index`, `budb_journal` and `budb_fold` stand below.
#![tactic(auto)]

mod appending;
mod checkpoints;
mod copies;
mod database;
mod fault;
mod folding;
mod histories;
mod laws;
mod lookups;
mod prepared;

pub use budb_journal::HostPort;
pub use database::Budb;
pub use fault::{BudbFault, CommitFault, PreparedFault};
pub use histories::descending;
pub use laws::{checkpoint_has_bytes, listed_dumps_are_records};
