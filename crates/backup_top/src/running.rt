//! A run of a script over media and a cell.

ghost use Rattle.std.specs.Prelude.{◌≡◌, ◌≢◌, ◌⊎◌, ◌-◌, ◌^◌, ◌≤◌, ℕ, min, List, length, Ok};
ghost use Rattle.crash_moments.specs.Moments.{LeavesSince};
ghost use Rattle.media_core.specs.Still.{AreStill};
ghost use Rattle.plant_media.specs.Stock.{stock_of};
ghost use Rattle.tape_config.specs.Configs.{config_of};
ghost use Rattle.backup_top.specs.declared.status.Status.TheVariants.{Done, SomeRefused, ReadFault, MediaFault, CellFault, OutputFault, BadLog};
ghost use Rattle.backup_session.specs.Worlds.{Contents};
ghost use Rattle.backup_top.specs.Courses.{course, Journal, IsBadLog, SameStock, IsRunStatus, RefusesJournal, Runs, TellsLines, SameFiles, TakesBy, CellAtStage, EndsAt, LeavesImages, FindsHeld, outcome, HasCauseAs};

use crate::status::Status;
use crate::statuses::{of_opening, of_run};
use backup_script::run_on;
use cell_core::Cell;
use media_core::{Clock, Media, Source};
use plant_media::MediaPlant;
use script_journals::journals_of_scripts;
use session_archives::{
    absent_tapes_stay, images_hold_the_archive, opened_worlds_have_their_forms,
    scripts_keep_the_archive, scripts_leave_a_ready_world_ready,
};
use std::alloc::Global;
use tape_config::Config;

/// Runs a script over media and a cell, by a configuration. The media are handed back as the run leaves them.
pub fn run_media<M: Media, C: Cell, K: Clock, S: Source>(
    alloc: Global,
    config: Config,
    media: M,
    cell: &mut C,
    clock: &mut K,
    source: &mut S,
) -> (Status, M)
    ensures runs { M.tells → C.tells → K.tells → S.tells → (bytes : List ℕ) → config_of bytes ≡ Ok config → (journal : Journal (stock_of (M.seen media))) → (contents : Contents)
        → let c = course M.seen M.count M.present config journal.log contents media result.1 (C.list cell.old) (C.list cell.new) (K.moments clock.old) (K.moments clock.new) (S.left source.old) (S.left source.new) in
        FindsHeld c → Runs c result.0 }
    ensures images { M.tells → C.tells → K.tells → S.tells → AreStill M.time M.seen media → (bytes : List ℕ) → config_of bytes ≡ Ok config → (journal : Journal (stock_of (M.seen media))) → (contents : Contents)
        → let c = course M.seen M.count M.present config journal.log contents media result.1 (C.list cell.old) (C.list cell.new) (K.moments clock.old) (K.moments clock.new) (S.left source.old) (S.left source.new) in
        FindsHeld c → LeavesImages M.time media result.1 c (outcome c).effects }
    ensures ends { M.tells → C.tells → K.tells → S.tells → AreStill M.time M.seen media → (bytes : List ℕ) → config_of bytes ≡ Ok config → (journal : Journal (stock_of (M.seen media))) → (contents : Contents)
        → let c = course M.seen M.count M.present config journal.log contents media result.1 (C.list cell.old) (C.list cell.new) (K.moments clock.old) (K.moments clock.new) (S.left source.old) (S.left source.new) in
        FindsHeld c → EndsAt M.time M.seen media result.1 c }
    ensures still { M.tells → C.tells → K.tells → S.tells → AreStill M.time M.seen media → (bytes : List ℕ) → config_of bytes ≡ Ok config → (journal : Journal (stock_of (M.seen media))) → (contents : Contents)
        → let c = course M.seen M.count M.present config journal.log contents media result.1 (C.list cell.old) (C.list cell.new) (K.moments clock.old) (K.moments clock.new) (S.left source.old) (S.left source.new) in
        FindsHeld c → (result.0 ≡ Done) ⊎ (result.0 ≡ SomeRefused) → AreStill M.time M.seen result.1 }
    ensures told_lines { M.tells → C.tells → TellsLines (stock_of (M.seen media)).told (stock_of (M.seen result.1)).told result.0 }
    ensures takes { S.tells → TakesBy (S.left source.old) (S.left source.new) result.0 }
    ensures bad_log { M.tells → (at : ℕ) → result.0 ≡ BadLog at → IsBadLog (stock_of (M.seen media)).log at }
    ensures only_bad_log { M.tells → (Journal (stock_of (M.seen media)) → ⊥) → RefusesJournal result.0 }
    ensures refused_log_media { M.tells → (Journal (stock_of (M.seen media)) → ⊥) → M.seen result.1 ≡ M.seen media }
    ensures refused_log_images { M.tells → (Journal (stock_of (M.seen media)) → ⊥) → LeavesSince M.time media result.1 SameStock }
    ensures refused_log_same { M.tells → (Journal (stock_of (M.seen media)) → ⊥) → (cell.new ≡ cell.old) × (clock.new ≡ clock.old) × (source.new ≡ source.old) }
    ensures bad_log_media { M.tells → (at : ℕ) → result.0 ≡ BadLog at → M.seen result.1 ≡ M.seen media }
    ensures bad_log_same { (at : ℕ) → result.0 ≡ BadLog at → (cell.new ≡ cell.old) × (clock.new ≡ clock.old) × (source.new ≡ source.old) }
    ensures order { result.0 ≡ CellFault → K.tells → S.tells → 2 ≤ length (K.moments clock.old) → K.moments clock.new ≡ K.moments clock.old → S.left source.new ≡ S.left source.old }
    ensures media_order { result.0 ≡ MediaFault → K.tells → S.tells → 2 ≤ length (K.moments clock.old) → K.moments clock.new ≡ K.moments clock.old → S.left source.new ≡ S.left source.old }
    ensures cell_at_end { M.tells → C.tells → K.tells → S.tells → (journal : Journal (stock_of (M.seen media))) → (contents : Contents)
        → let c = course M.seen M.count M.present config journal.log contents media result.1 (C.list cell.old) (C.list cell.new) (K.moments clock.old) (K.moments clock.new) (S.left source.old) (S.left source.new) in
        FindsHeld c → CellAtStage c }
    ensures media_cause { HasCauseAs MediaFault (M.faults media) (M.faults result.1) result.0 }
    ensures cell_cause { HasCauseAs CellFault (C.faults cell.old) (C.faults cell.new) result.0 }
    ensures output_cause { HasCauseAs OutputFault (M.tell_faults media) (M.tell_faults result.1) result.0 }
    ensures read_cause { HasCauseAs ReadFault (S.faults source.old) (S.faults source.new) result.0 }
    ensures same_files { SameFiles M.count M.present media result.1 }
    ensures media_later { min (M.faults media) (2 ^ 64 - 1) ≤ M.faults result.1 }
    ensures cell_later { C.faults cell.old ≤ C.faults cell.new }
    ensures output_later { M.tell_faults media ≤ M.tell_faults result.1 }
    ensures read_later { S.faults source.old ≤ S.faults source.new }
    ensures statuses { IsRunStatus result.0 }
{
    journals_of_scripts();
    absent_tapes_stay();
    scripts_keep_the_archive();
    scripts_leave_a_ready_world_ready();
    images_hold_the_archive();
    opened_worlds_have_their_forms();
    cell.listed_is_allowed();
    match MediaPlant::open(media) {
        Ok(mut plant) => {
            let answer = run_on(alloc, config, &mut plant, cell, clock, source);
            (of_run(answer), plant.into_media())
        }
        Err(unopened) => (of_opening(unopened.fault), unopened.media),
    }
}
