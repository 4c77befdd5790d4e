//! Filling tapes: the frames of a dump are put on the loaded tape of a plant, each only where what must follow it
//! stays within the capacity too. `specs/` says which records a dump puts on each of its tapes (`TapeText` in
//! `specs/Filling.antt`). A `Writer` counts the blocks and filemarks of one tape of a port: the port is within its
//! limits, and there are no more filemarks than blocks. Enter at `Writer::new`, then at `Writer::begin_tape`,
//! `Writer::begin_volume`, `Writer::data`, `Writer::end_volume` and `Writer::end_dump`. `dump_job` stands above;
//! `tape_text`, `tape_frames`, `tape_config` and `plant_effects` stand below.
#![tactic(auto)]

mod fault;
mod laws;
mod puts;
mod writer;

pub use fault::WriteFault;
pub use laws::{
    a_dump_on_one_tape_is_a_filling, a_part_of_a_taken_tape_is_found,
    a_refused_frame_leaves_a_full_tape, an_appended_part_is_found, one_filling, puts_joined,
    smallest_part, what_is_put_is_read, what_is_put_stands,
};
pub use writer::Writer;
