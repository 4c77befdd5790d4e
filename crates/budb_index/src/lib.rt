//! Look-ups in the listed dumps by chains, so that none goes over all records. An `Index` keeps each id once, and
//! each volume of its records has a fragment, by which a walk along the volume's name comes to the record. Each
//! look-up answers what the slow one of `budb_fold` answers. Enter at `index_of`, `latest_of`, `parent_of` and
//! `chain_of`; `Index::prepare` takes the room for changes, and `follow` then lists and drops without memory. `budb`
//! stands above; `budb_links` and `budb_fold` stand below.
#![tactic(auto)]

mod chains;
mod dropping;
mod filling;
mod following;
mod holders;
mod index;
mod latest_dumps;
mod lookups;
mod relistings;
mod stepping;
mod uncounted;
mod walks;

pub use budb_links::Steps;
pub use index::Index;
pub use relistings::{Relisting, relistings_list_the_same};
pub use uncounted::{
    chain_of, find, follow, holders_of, index_of, latest_for_set, latest_of, parent_of, take,
};
