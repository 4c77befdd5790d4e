//! A restore of one volume from the tapes of a chain of dumps: first the plan, which dumps and which tapes, then the playing. A plan
//! that is played gives exactly what the look-up in the archive gives, or its refusal: `what_is_planned_and_played_is_looked_up`. Tapes
//! are loaded, and nothing is written. Enter at `plan`, then at `play`. `restore_commands` stands above; `archive_model`, `budb` and
//! `dump_stream` stand below.
//!
//! # Example
//!
//! ```
//! let plan = plan(alloc, &budb, &mut plant, &name, None)?; // of the latest dump; Some(second) for the latest one before it
//! let volume = play(alloc, &plan, &budb, &mut plant)?;
//! ```
#![tactic(auto)]

mod chain_plan;
mod fault;
mod holders;
mod keep_fragment;
mod keeping;
mod kept_playing;
mod laws;
mod needs;
mod planning;
mod play_apply;
mod play_called;
mod play_chain;
mod play_dump;
mod play_fragment;
mod play_joined;
mod play_judge;
mod play_read;
mod play_volume;
mod reading;
mod tape_keeping;

pub use chain_plan::{ChainPlan, TapeNeed};
pub use fault::{LookFault, RestoreFault};
pub use holders::holder_of;
pub use keeping::{Kept, KeptPiece, Reading};
pub use kept_playing::play_kept;
pub use laws::{
    a_dump_with_its_clone_is_played, a_look_up_is_computed, a_plan_has_one_answer,
    a_plan_leads_to_the_contents, a_plan_may_be_played, a_played_plan_has_one_answer,
    a_refused_plan_is_a_refused_look_up, what_is_planned_and_played_is_looked_up,
    what_is_put_away_is_read_as_before, what_was_written_is_restored,
};
pub use planning::plan;
pub use play_chain::play;
pub use play_joined::Site;
pub use tape_keeping::keep_tape;
