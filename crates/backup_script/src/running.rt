//! A run of a script over a plant and a cell: the session is opened, and the script is run.

ghost use Rattle.std.specs.Prelude.{◌≡◌, ◌≢◌, ◌≤◌, ℕ, [], List as AnyList, length, Err, IfOk};
ghost use Rattle.std.specs.Str.Lines.{lines};
ghost use Rattle.bk_text.specs.Places.{FailsAt};
ghost use Rattle.crash_moments.specs.Moments.{HasCauseAt};
ghost use Rattle.budb_changes.specs.declared.change.Change.{Change as AnyChange};
ghost use Rattle.budb_changes.specs.Bytes.{encoded};
ghost use Rattle.budb_changes.specs.Forms.{AreChanges, IsLog};
ghost use Rattle.plant_core.specs.Crashes.{IsSettled};
ghost use Rattle.plant_core.specs.Effects.{told_by};
ghost use Rattle.plant_effects.specs.Runs.{state_of, Done, OnlyLooks, Stays};
ghost use Rattle.backup_replies.specs.Texts.{has_refusal};
ghost use Rattle.backup_session.specs.Worlds.{Contents};
ghost use Rattle.backup_script.specs.Scripts.{script};
ghost use Rattle.backup_script.specs.Held.{IsHeldThroughout};
ghost use Rattle.backup_script.specs.Running.{LeftAt, HasTold};
ghost use Rattle.backup_script.specs.Ended.{world_on, Ends, EndsShort, TakesBytes, IsRefusedLog};

use crate::serve::run_script;
use crate::serving::ServeStop;
use backup_session::{OpenStop, Session};
use cell_core::Cell;
use media_core::{Clock, Source};
use plant_core::Plant;
use std::alloc::Global;
use tape_config::Config;
use thiserror::Error;

/// Why a run over a plant and a cell has stopped.
#[derive(Clone, Copy, Debug, PartialEq, Eq, Drop, Error)]
pub enum RunStop {
    /// A read of the script failed.
    #[error("a read of the script failed")]
    Read,
    /// A call on the journal or a tape failed.
    #[error("a call on the journal or a tape failed")]
    Plant,
    /// A call on the cell failed.
    #[error("a call on the cell failed")]
    Cell,
    /// The output took no more.
    #[error("the output took no more")]
    Output,
    /// The script is too long.
    #[error("the script is too long")]
    TooLong,
    /// The journal's log is no list of changes from this byte on.
    #[error("the log is no list of changes: byte {at}")]
    BadLog { at: u64 },
    /// Memory was refused.
    #[error("memory was refused")]
    Memory,
}

fn opening_stop(stop: OpenStop) -> RunStop
    ensures plant { result ≡ RunStop.Plant → stop ≡ OpenStop.Plant }
    ensures plant_back { stop ≡ OpenStop.Plant → result ≡ RunStop.Plant }
    ensures cell { result ≡ RunStop.Cell → stop ≡ OpenStop.Cell }
    ensures cell_back { stop ≡ OpenStop.Cell → result ≡ RunStop.Cell }
    ensures log { (at : ℕ) → result ≡ RunStop.BadLog at → stop ≡ OpenStop.BadLog at }
    ensures output { result ≢ RunStop.Output }
    ensures read { result ≢ RunStop.Read }
    ensures long { result ≢ RunStop.TooLong }
{
    match stop {
        OpenStop::Plant => RunStop::Plant,
        OpenStop::Cell => RunStop::Cell,
        OpenStop::BadLog { at } => RunStop::BadLog { at },
        OpenStop::Memory => RunStop::Memory,
    }
}

fn serving_stop(stop: ServeStop) -> RunStop
    ensures read { result ≡ RunStop.Read → stop ≡ ServeStop.Read }
    ensures read_back { stop ≡ ServeStop.Read → result ≡ RunStop.Read }
    ensures plant { result ≡ RunStop.Plant → stop ≡ ServeStop.Plant }
    ensures plant_back { stop ≡ ServeStop.Plant → result ≡ RunStop.Plant }
    ensures cell { result ≡ RunStop.Cell → stop ≡ ServeStop.Cell }
    ensures cell_back { stop ≡ ServeStop.Cell → result ≡ RunStop.Cell }
    ensures output { result ≡ RunStop.Output → stop ≡ ServeStop.Output }
    ensures output_back { stop ≡ ServeStop.Output → result ≡ RunStop.Output }
    ensures long { result ≡ RunStop.TooLong → stop ≡ ServeStop.TooLong }
    ensures long_back { stop ≡ ServeStop.TooLong → result ≡ RunStop.TooLong }
    ensures log { (at : ℕ) → result ≢ RunStop.BadLog at }
{
    match stop {
        ServeStop::Read => RunStop::Read,
        ServeStop::Plant => RunStop::Plant,
        ServeStop::Cell => RunStop::Cell,
        ServeStop::Output => RunStop::Output,
        ServeStop::TooLong => RunStop::TooLong,
        ServeStop::Memory => RunStop::Memory,
    }
}

/// Runs a script on a plant and a cell: the session is opened, then line after line is run. It says whether some line that was
/// told begins with `refused`.
pub fn run_on<P: Plant, C: Cell, K: Clock, S: Source>(
    alloc: Global,
    config: Config,
    plant: &mut P,
    cell: &mut C,
    clock: &mut K,
    source: &mut S,
) -> Result<bool, RunStop>
    requires { P.sound plant.old }

    // All lines were run; cut short by a read or the limit, those that were ended.
    ensures ran { P.tells → C.tells → K.tells → S.tells → IsSettled (state_of P.Plant plant.old) → (log : AnyList AnyChange) → AreChanges log → (state_of P.Plant plant.old).log ≡ encoded log
        → (contents : Contents) → let w = world_on P.Plant C.Cell config log contents plant.old cell.old in let s = script w (K.moments clock.old) (lines (S.left source.old)) in
        IsHeldThroughout w (K.moments clock.old) (lines (S.left source.old)) → IfOk result (λ refused. Ends P.Plant C.Cell s plant.old plant.new cell.new (K.moments clock.new) × (refused ≡ has_refusal (told_by s.effects))) }
    ensures read_short { P.tells → C.tells → K.tells → S.tells → IsSettled (state_of P.Plant plant.old) → (log : AnyList AnyChange) → AreChanges log → (state_of P.Plant plant.old).log ≡ encoded log
        → (contents : Contents) → let w = world_on P.Plant C.Cell config log contents plant.old cell.old in
        IsHeldThroughout w (K.moments clock.old) (lines (S.left source.old)) → result ≡ Err RunStop.Read → EndsShort P.Plant C.Cell w (K.moments clock.old) (S.left source.old) (S.left source.new) plant.old plant.new cell.new (K.moments clock.new) }
    ensures long_short { P.tells → C.tells → K.tells → S.tells → IsSettled (state_of P.Plant plant.old) → (log : AnyList AnyChange) → AreChanges log → (state_of P.Plant plant.old).log ≡ encoded log
        → (contents : Contents) → let w = world_on P.Plant C.Cell config log contents plant.old cell.old in
        IsHeldThroughout w (K.moments clock.old) (lines (S.left source.old)) → result ≡ Err RunStop.TooLong → EndsShort P.Plant C.Cell w (K.moments clock.old) (S.left source.old) (S.left source.new) plant.old plant.new cell.new (K.moments clock.new) }
    // However it ended: each line is run as soon as it is complete.
    ensures left { P.tells → C.tells → K.tells → S.tells → IsSettled (state_of P.Plant plant.old) → (log : AnyList AnyChange) → AreChanges log → (state_of P.Plant plant.old).log ≡ encoded log
        → (contents : Contents) → let w = world_on P.Plant C.Cell config log contents plant.old cell.old in
        IsHeldThroughout w (K.moments clock.old) (lines (S.left source.old)) → LeftAt P.Plant C.Cell w (K.moments clock.old) (S.left source.old) (S.left source.new) plant.old plant.new cell.new (K.moments clock.new) }
    // Whatever stood on the plant, it is said of what was told whether some line begins with `refused`.
    ensures flag { P.tells → C.tells → IsSettled (state_of P.Plant plant.old) → IfOk result (λ refused. HasTold P.Plant plant.old plant.new refused) }
    ensures takes { S.tells → TakesBytes (S.left source.old) (S.left source.new) result }
    ensures stays { Stays P.Plant plant.old plant.new }

    // A log that is no list of changes is refused, and then nothing has changed.
    ensures bad_log { P.tells → (at : ℕ) → result ≡ Err (RunStop.BadLog at) → FailsAt IsLog (state_of P.Plant plant.old).log at }
    ensures only_bad_log { P.tells → (IsLog (state_of P.Plant plant.old).log → ⊥) → IsRefusedLog result }
    ensures bad_log_done { (at : ℕ) → result ≡ Err (RunStop.BadLog at) → Done P.Plant [] plant.old plant.new }
    ensures bad_log_looks { (at : ℕ) → result ≡ Err (RunStop.BadLog at) → OnlyLooks P.Plant plant.old plant.new }
    ensures bad_log_cell { (at : ℕ) → result ≡ Err (RunStop.BadLog at) → cell.new ≡ cell.old }
    ensures bad_log_clock { (at : ℕ) → result ≡ Err (RunStop.BadLog at) → (clock.new ≡ clock.old) × (source.new ≡ source.old) }

    ensures refused_log_looks { P.tells → (IsLog (state_of P.Plant plant.old).log → ⊥) → OnlyLooks P.Plant plant.old plant.new }
    ensures refused_log_cell { P.tells → (IsLog (state_of P.Plant plant.old).log → ⊥) → cell.new ≡ cell.old }
    ensures refused_log_clock { P.tells → (IsLog (state_of P.Plant plant.old).log → ⊥) → (clock.new ≡ clock.old) × (source.new ≡ source.old) }

    // Where it ends by a fault of the cell or of the plant and no moment of the clock was used, nothing was taken of the source: so it is
    // where the log can't be read or the cell's entries can't be listed at the opening, since in front of any other fault of the two a moment
    // is used, unless the clock had only one.
    ensures order { result ≡ Err RunStop.Cell → K.tells → S.tells → 2 ≤ length (K.moments clock.old) → K.moments clock.new ≡ K.moments clock.old → S.left source.new ≡ S.left source.old }
    ensures plant_order { result ≡ Err RunStop.Plant → K.tells → S.tells → 2 ≤ length (K.moments clock.old) → K.moments clock.new ≡ K.moments clock.old → S.left source.new ≡ S.left source.old }

    // Each fault has its cause.
    ensures plant_cause { HasCauseAt RunStop.Plant (P.view plant.old).faults (P.view plant.new).faults result }
    ensures cell_cause { HasCauseAt RunStop.Cell (C.faults cell.old) (C.faults cell.new) result }
    ensures output_cause { HasCauseAt RunStop.Output (P.view plant.old).tell_faults (P.view plant.new).tell_faults result }
    ensures read_cause { HasCauseAt RunStop.Read (S.faults source.old) (S.faults source.new) result }
{
    match Session::open(alloc, config, plant, cell) {
        Ok(mut session) => {
            let ran = run_script(&mut session, alloc, plant, cell, clock, source);
            drop(session);
            match ran {
                Ok(refused) => Ok(refused),
                Err(stop) => Err(serving_stop(stop)),
            }
        }
        Err(stop) => Err(opening_stop(stop)),
    }
}
