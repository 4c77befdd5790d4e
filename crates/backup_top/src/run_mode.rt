//! The mode `run`: a script is run by the bytes of a configuration.

ghost use Rattle.std.specs.Prelude.{◌≡◌, ◌≢◌, ◌⊎◌, ◌-◌, ◌^◌, ◌≤◌, ℕ, min, length, Ok, Err};
ghost use Rattle.crash_moments.specs.Moments.{LeavesSince};
ghost use Rattle.media_core.specs.Still.{AreStill};
ghost use Rattle.plant_media.specs.Stock.{stock_of};
ghost use Rattle.tape_config.specs.Configs.{Settings, config_of};
ghost use Rattle.tape_config.specs.declared.fault.ConfigFault.{ConfigFault as AnyFault};
ghost use Rattle.backup_top.specs.declared.status.Status.TheVariants.{Done, SomeRefused, Usage, ReadFault, MediaFault, CellFault, OutputFault, BadConfig, BadLog, Memory};
ghost use Rattle.backup_top.specs.Answers.{config_status};
ghost use Rattle.backup_session.specs.Worlds.{Contents};
ghost use Rattle.backup_top.specs.Courses.{course_of, Entry, Journal, IsBadLog, SameStock, IsRefusedAt, RefusesJournal, Runs, TellsLines, SameFiles, TakesBy, CellAtStage, EndsAt, LeavesImages, FindsHeld, outcome, HasCauseAs};

use crate::running::run_media;
use crate::status::Status;
use crate::statuses::of_config;
use cell_core::Cell;
use media_core::{Clock, Media, Source};
use script_journals::journals_of_scripts;
use session_archives::{
    images_hold_the_archive, opened_worlds_have_their_forms, scripts_keep_the_archive,
    scripts_leave_a_ready_world_ready,
};
use std::alloc::Global;
use tape_config::Config;

/// Runs a script by the bytes of a configuration.
pub fn run_mode<M: Media, C: Cell, K: Clock, S: Source>(
    alloc: Global,
    config: &[u8],
    media: M,
    cell: &mut C,
    clock: &mut K,
    source: &mut S,
) -> (Status, M)
    ensures runs { M.tells → C.tells → K.tells → S.tells → (entry : Entry config.now (stock_of (M.seen media))) → (contents : Contents)
        → let c = course_of M.seen M.count M.present contents media entry result.1 (C.list cell.old) (C.list cell.new) (K.moments clock.old) (K.moments clock.new) (S.left source.old) (S.left source.new) in
        FindsHeld c → Runs c result.0 }
    ensures images { M.tells → C.tells → K.tells → S.tells → AreStill M.time M.seen media → (entry : Entry config.now (stock_of (M.seen media))) → (contents : Contents)
        → let c = course_of M.seen M.count M.present contents media entry result.1 (C.list cell.old) (C.list cell.new) (K.moments clock.old) (K.moments clock.new) (S.left source.old) (S.left source.new) in
        FindsHeld c → LeavesImages M.time media result.1 c (outcome c).effects }
    ensures ends { M.tells → C.tells → K.tells → S.tells → AreStill M.time M.seen media → (entry : Entry config.now (stock_of (M.seen media))) → (contents : Contents)
        → let c = course_of M.seen M.count M.present contents media entry result.1 (C.list cell.old) (C.list cell.new) (K.moments clock.old) (K.moments clock.new) (S.left source.old) (S.left source.new) in
        FindsHeld c → EndsAt M.time M.seen media result.1 c }
    ensures still { M.tells → C.tells → K.tells → S.tells → AreStill M.time M.seen media → (entry : Entry config.now (stock_of (M.seen media))) → (contents : Contents)
        → let c = course_of M.seen M.count M.present contents media entry result.1 (C.list cell.old) (C.list cell.new) (K.moments clock.old) (K.moments clock.new) (S.left source.old) (S.left source.new) in
        FindsHeld c → (result.0 ≡ Done) ⊎ (result.0 ≡ SomeRefused) → AreStill M.time M.seen result.1 }
    ensures told_lines { M.tells → C.tells → TellsLines (stock_of (M.seen media)).told (stock_of (M.seen result.1)).told result.0 }
    ensures takes { S.tells → TakesBy (S.left source.old) (S.left source.new) result.0 }
    ensures bad_config { (line : ℕ) → result.0 ≡ BadConfig line → IsRefusedAt config.now line }
    ensures only_bad_config { (fault : AnyFault) → config_of config.now ≡ Err fault → (result.0 ≡ config_status fault) ⊎ (result.0 ≡ Memory) }
    ensures bad_config_same { (line : ℕ) → result.0 ≡ BadConfig line → (result.1 ≡ media) × (cell.new ≡ cell.old) × (clock.new ≡ clock.old) × (source.new ≡ source.old) }
    ensures bad_log { M.tells → (at : ℕ) → result.0 ≡ BadLog at → IsBadLog (stock_of (M.seen media)).log at }
    ensures bad_log_config { (at : ℕ) → result.0 ≡ BadLog at → (settings : Settings) × (config_of config.now ≡ Ok settings) }
    ensures only_bad_log { M.tells → (settings : Settings) → config_of config.now ≡ Ok settings → (Journal (stock_of (M.seen media)) → ⊥) → RefusesJournal result.0 }
    ensures refused_log_media { M.tells → (Journal (stock_of (M.seen media)) → ⊥) → M.seen result.1 ≡ M.seen media }
    ensures refused_log_images { M.tells → (Journal (stock_of (M.seen media)) → ⊥) → LeavesSince M.time media result.1 SameStock }
    ensures refused_log_same { M.tells → (Journal (stock_of (M.seen media)) → ⊥) → (cell.new ≡ cell.old) × (clock.new ≡ clock.old) × (source.new ≡ source.old) }
    ensures bad_log_media { M.tells → (at : ℕ) → result.0 ≡ BadLog at → M.seen result.1 ≡ M.seen media }
    ensures bad_log_same { (at : ℕ) → result.0 ≡ BadLog at → (cell.new ≡ cell.old) × (clock.new ≡ clock.old) × (source.new ≡ source.old) }
    ensures refused_config_same { (fault : AnyFault) → config_of config.now ≡ Err fault → (result.1 ≡ media) × (cell.new ≡ cell.old) × (clock.new ≡ clock.old) × (source.new ≡ source.old) }
    ensures order { result.0 ≡ CellFault → K.tells → S.tells → 2 ≤ length (K.moments clock.old) → K.moments clock.new ≡ K.moments clock.old → S.left source.new ≡ S.left source.old }
    ensures media_order { result.0 ≡ MediaFault → K.tells → S.tells → 2 ≤ length (K.moments clock.old) → K.moments clock.new ≡ K.moments clock.old → S.left source.new ≡ S.left source.old }
    ensures cell_at_end { M.tells → C.tells → K.tells → S.tells → (entry : Entry config.now (stock_of (M.seen media))) → (contents : Contents)
        → let c = course_of M.seen M.count M.present contents media entry result.1 (C.list cell.old) (C.list cell.new) (K.moments clock.old) (K.moments clock.new) (S.left source.old) (S.left source.new) in
        FindsHeld c → CellAtStage c }
    ensures media_cause { HasCauseAs MediaFault (M.faults media) (M.faults result.1) result.0 }
    ensures cell_cause { HasCauseAs CellFault (C.faults cell.old) (C.faults cell.new) result.0 }
    ensures output_cause { HasCauseAs OutputFault (M.tell_faults media) (M.tell_faults result.1) result.0 }
    ensures read_cause { HasCauseAs ReadFault (S.faults source.old) (S.faults source.new) result.0 }
    ensures same_files { SameFiles M.count M.present media result.1 }
    ensures media_later { min (M.faults media) (2 ^ 64 - 1) ≤ M.faults result.1 }
    ensures cell_later { C.faults cell.old ≤ C.faults cell.new }
    ensures output_later { M.tell_faults media ≤ M.tell_faults result.1 }
    ensures read_later { S.faults source.old ≤ S.faults source.new }
    ensures usage { result.0 ≡ Usage → ⊥ }
{
    journals_of_scripts();
    scripts_keep_the_archive();
    scripts_leave_a_ready_world_ready();
    images_hold_the_archive();
    opened_worlds_have_their_forms();
    cell.listed_is_allowed();
    match Config::parse(alloc, config) {
        Ok(config) => run_media(alloc, config, media, cell, clock, source),
        Err(fault) => (of_config(fault), media),
    }
}
