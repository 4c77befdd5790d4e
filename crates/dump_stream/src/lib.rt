//! AFS volume dump format, version 1: what its streams say, their reader and their writer. What bytes say is `Spells`
//! in `specs/Stream.antt`; what is written of an increment is `written` in `specs/Written.antt`. No bytes say two
//! things, and no stream is the front of another (`no_stream_begins_another`).
//!
//! A `Reader` answers each piece as `read` answers all bytes that were fed so far (`FeedAnswers` in
//! `specs/Feeds.antt`), and a `Writer` is the bytes of its volume's stream that weren't given yet (`left` in
//! `specs/Left.antt`).
//!
//! Enter at `read` for bytes at hand, at `Reader` for a stream in pieces, at `InputReader` for an input that is to be
//! one stream; at `Writer` for a volume's stream in pieces, at `write` for an increment. `cell_core`, `dump_job`,
//! `archive_model` and `restore_chain` stand above; `vnode_model` and `bk_text` stand below.
#![tactic(auto)]

mod answers;
mod fields;
mod form;
mod input;
mod judge;
mod machine;
mod part;
mod pieces;
mod places;
mod prefixes;
mod reader;
mod reading;
mod records;
mod said;
mod sections;
mod sofar;
mod tables;
mod writer;
mod writing;

pub use answers::{StreamFault, read};
pub use input::{Input, InputReader, an_input_is_one_thing};
pub use prefixes::{bytes_have_one_answer, no_stream_begins_another};
pub use reader::{Fed, Reader};
pub use said::{
    increment_is_allowed, said_is_allowed, volume_is_allowed, written_is_a_stream, written_is_read,
};
pub use writer::Writer;
pub use writing::write;
