//! The changes of the Backup Database: sets, levels, tape hosts and dumps. Each list of changes has one spelling in
//! bytes, and bytes that no list has are refused at their exact place. The layout is this project's own. A
//! `DumpRecord` and its volumes always fit their bytes: names have their forms, and no list is longer than its count
//! can tell. Enter at `Change`, `encode` and `decode`; the layout is `encoded` in `specs/Bytes.antt`. What a change
//! does to the database is told by `budb_fold`, which stands above; `byte_formats` and `bk_text` stand below.
#![tactic(auto)]

mod change;
mod change_reading;
mod decoding;
mod fault;
mod kinds;
mod pattern_bytes;
mod pattern_reading;
mod plain_record;
mod record_reading;
mod records;
mod version;
mod writing;

pub use change::Change;
pub use decoding::{decode, no_change_begins_another, one_encoding};
pub use fault::ChangeFault;
pub use pattern_bytes::PatternBytes;
pub use plain_record::PlainRecord;
pub use records::{DumpRecord, DumpRecordFields, Frag, TapePart, VolRecord, VolRecordFields};
pub use writing::{encode, put_changes};
