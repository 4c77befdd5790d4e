//! The reading of a log as a function: the changes that bytes spell, or the place of the first byte with which no
//! list of changes goes on. Its definition puts readers together as the formats of `budb_changes` are put together,
//! from single bytes up. The law says that a log has exactly one reading, so the code that decodes one answers it
//! unless memory runs out. Nothing here runs. Enter at `reading_of` in `specs/Readings.antt` and at the law
//! `a_log_has_one_reading`. `budb_save` stands above, where a saved log is read back; `budb_changes` and
//! `byte_formats` stand below.
#![tactic(auto)]

mod laws;

pub use laws::a_log_has_one_reading;
