//! The frames of a tape: blocks of 16,384 bytes that label it and carry the dumps of volumes. Each frame has one
//! block, and a block that is no frame's is refused at its exact place. The layout is this project's own.
//! What the types of frames keep: their fields fit the table in `specs/Layouts.antt`, so that each frame can be
//! written, and its block is no other frame's (`Fits` and `spelling` in `specs/Frames.antt`, `one_frame`).
//! Enter at `decode` for a block that was read, and at `Frame::encode` for one to be put. `tape_text`, `tape_writer`
//! and `tape_scan` stand above; `byte_formats` and `bk_text` stand below.
#![tactic(auto)]

mod blank;
mod data;
mod decoding;
mod dump_end;
mod dump_head;
mod fault;
mod frame;
mod head;
mod kind;
mod label;
mod page;
mod reading;
mod tape_names;
mod views;
mod vol_end;
mod vol_head;
mod whole;

pub use data::{Data, DataFields};
pub use decoding::{Piece, decode, one_frame, piece_of, uses_of};
pub use dump_end::{DumpEnd, DumpEndFields};
pub use dump_head::{DumpHead, DumpHeadFields};
pub use fault::FrameFault;
pub use frame::Frame;
pub use label::{Label, LabelFields};
pub use page::Block;
pub use tape_names::{one_base_and_number, one_number, tape_name};
pub use vol_end::{VolEnd, VolEndFields};
pub use vol_head::{VolHead, VolHeadFields};
