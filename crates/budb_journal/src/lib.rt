//! The journal's log of a plant: changes of the Backup Database appended by one commit, and read again. A log is the
//! bytes of a list of changes; after a crash in `append` that the plant survives it is the old log, or has all of the
//! new changes behind it. Enter at `append` and `replay`, which only looks; what it answers is `Replays` in
//! `specs/Replays.antt`. `budb` stands above; `budb_fold`, `budb_changes` and `plant_effects` stand below.
#![tactic(auto)]

mod fault;
mod log;

pub use budb_changes::{
    Change, ChangeFault, DumpRecord, DumpRecordFields, Frag, PatternBytes, PlainRecord, TapePart,
    VolRecord, VolRecordFields, decode, encode, no_change_begins_another, one_encoding,
};
pub use budb_fold::{
    ChainFault, Database, HostPort, VolumeDump, chain_has_an_outcome, chain_has_its_dumps,
    chain_has_one_outcome, chain_looks_at_its_dumps, chain_of, chain_stays_with_more,
    chain_stays_without_others, chain_unfolds, checkpoint, checkpoint_makes_the_same_database,
    database_of_a_log_is_orderly, entry_fits_by_its_pattern, fold, fold_of_more, from_of,
    greatest_at, latest, parent_of, record_is_found_by_its_id, record_of, volume_of,
};
pub use fault::{AppendFault, ReplayFault};
pub use log::{append, replay};
