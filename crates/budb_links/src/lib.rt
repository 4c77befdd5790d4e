//! Records of dumps linked by index, for look-ups by id, volume set, initial id and volume's name that don't go
//! through the whole database. A look-up of an id looks at one record at most, and a step of a walk at one link;
//! `Steps` counts these, and not the search for a key.
//! What `Links` keeps: each record and each fragment of a volume stands at a place of its own, no two records have
//! one id, and the fragments are those of the records, in the order of recording.
//! Enter at `Links`, whose value is `Linked` in `specs/Linked.antt`: `reserve` takes the memory, `insert` and
//! `unlink` take none. `budb_index` stands above; `budb_changes`, whose records these are, and `bk_text` stand below.
#![tactic(auto)]

mod arena;
mod frags;
mod ids;
mod keys;
mod links;
mod numbers;
mod records;
mod shelf;
mod spare;
mod steps;
mod volumes;

pub use frags::FragPlace;
pub use links::Links;
pub use steps::Steps;
pub use volumes::frag_count;
