//! The Backup Database as the fold of its changes, and its look-ups: parents, from times, latest dumps and chains,
//! each by a plain and slow function. A change that doesn't fit changes nothing, so each list of changes makes a
//! database, and an orderly one: sets, levels, ports and ids stand once, and each parent's id is below its dump's.
//! Enter at `after` in `specs/Database.antt`, at `fold` and `Database::make`, and at `checkpoint` for the changes
//! that make a database anew. `budb_index` has the look-ups without going over all records; it stands above with
//! `budb_journal` and `budb`. `budb_changes`, `volume_sets` and `dump_levels` stand below.
#![tactic(auto)]

mod chain_laws;
mod chains;
mod checkpoints;
mod database;
mod fault;
mod fits;
mod fitting;
mod fold_laws;
mod folding;
mod latest_dumps;
mod lookups;
mod preparing;

pub use chain_laws::{
    chain_has_an_outcome, chain_has_its_dumps, chain_has_one_outcome, chain_looks_at_its_dumps,
    chain_stays_with_more, chain_stays_without_others, chain_unfolds, record_is_found_by_its_id,
};
pub use chains::chain_of;
pub use checkpoints::checkpoint;
pub use database::{Database, HostPort};
pub use fault::ChainFault;
pub use fold_laws::{
    checkpoint_makes_the_same_database, database_of_a_log_is_orderly, entry_fits_by_its_pattern,
};
pub use folding::{fold, fold_of_more};
pub use latest_dumps::{VolumeDump, latest};
pub use lookups::{from_of, greatest_at, parent_of, record_of, volume_of};
