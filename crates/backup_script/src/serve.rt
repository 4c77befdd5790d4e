//! The loop over a script.

ghost use Rattle.std.specs.Prelude.{◌≡◌, Err, IfOk, OnOk};
ghost use Rattle.std.specs.Str.Lines.{lines};
ghost use Rattle.crash_moments.specs.Moments.{HasCauseAt};
ghost use Rattle.plant_effects.specs.Runs.{Stays};
ghost use Rattle.backup_session.specs.Worlds.{World};
ghost use Rattle.backup_session.specs.Fitting.{Fits};
ghost use Rattle.backup_script.specs.Scripts.{script};
ghost use Rattle.backup_script.specs.Held.{IsHeldThroughout};
ghost use Rattle.backup_script.specs.Running.{LeftAt, ScriptRan, WentShort, Takes, HasUsed, HasTold};

use crate::lines::MOST;
use crate::next_line::serve_line;
use crate::serving::ServeStop;
use crate::watch::Watch;
use backup_session::Session;
use cell_core::Cell;
use media_core::{Clock, Source};
use plant_core::Plant;
use std::alloc::Global;

/// Runs a script, line by line: each line is run as soon as it is complete, and its whole reply is told before the next one. It says
/// whether some line that was told begins with `refused`. A line `quit` ends the script, and nothing behind it is read. A line that no line
/// feed ended isn't run where a read failed or the script is too long.
///
/// A script is too long exactly where it gives more than 16,777,216 bytes with no end and no `quit` (this project's own limit); one byte
/// more than so many is taken, and where that is a line feed, the line that it ends is run.
pub fn run_script<P: Plant, C: Cell, K: Clock, S: Source>(
    session: &mut Session,
    alloc: Global,
    plant: &mut P,
    cell: &mut C,
    clock: &mut K,
    source: &mut S,
) -> Result<bool, ServeStop>
    requires { P.sound plant.old }
    ensures sound { OnOk result (P.sound plant.new) }

    // All lines were run.
    ensures ran { P.tells → C.tells → K.tells → S.tells → (w : World) → Fits P.Plant C.Cell w plant.old cell.old session.old
        → IsHeldThroughout w (K.moments clock.old) (lines (S.left source.old)) → OnOk result (ScriptRan P.Plant C.Cell (script w (K.moments clock.old) (lines (S.left source.old))) plant.old plant.new cell.new session.new (K.moments clock.new)) }
    // Whatever stood on the plant, it is said of what was told whether some line begins with `refused`.
    ensures flag { P.tells → C.tells → (w : World) → Fits P.Plant C.Cell w plant.old cell.old session.old → IfOk result (λ refused. HasTold P.Plant plant.old plant.new refused) }
    // Cut short by a read or the limit, the lines that were ended were run.
    ensures read_short { P.tells → C.tells → K.tells → S.tells → (w : World) → Fits P.Plant C.Cell w plant.old cell.old session.old
        → IsHeldThroughout w (K.moments clock.old) (lines (S.left source.old)) → result ≡ Err ServeStop.Read → WentShort P.Plant C.Cell w (K.moments clock.old) (S.left source.old) (S.left source.new) plant.old plant.new cell.new session.new (K.moments clock.new) }
    ensures long_short { P.tells → C.tells → K.tells → S.tells → (w : World) → Fits P.Plant C.Cell w plant.old cell.old session.old
        → IsHeldThroughout w (K.moments clock.old) (lines (S.left source.old)) → result ≡ Err ServeStop.TooLong → WentShort P.Plant C.Cell w (K.moments clock.old) (S.left source.old) (S.left source.new) plant.old plant.new cell.new session.new (K.moments clock.new) }
    // However it ended: each line is run as soon as it is complete.
    ensures left { P.tells → C.tells → K.tells → S.tells → (w : World) → Fits P.Plant C.Cell w plant.old cell.old session.old
        → IsHeldThroughout w (K.moments clock.old) (lines (S.left source.old)) → LeftAt P.Plant C.Cell w (K.moments clock.old) (S.left source.old) (S.left source.new) plant.old plant.new cell.new (K.moments clock.new) }
    ensures takes { S.tells → Takes (S.left source.old) (S.left source.new) result }
    // A command uses its moment before the cell or the plant can fail in it.
    ensures used { K.tells → result ≡ Err ServeStop.Cell → HasUsed (K.moments clock.old) (K.moments clock.new) }
    ensures plant_used { K.tells → result ≡ Err ServeStop.Plant → HasUsed (K.moments clock.old) (K.moments clock.new) }
    ensures stays { Stays P.Plant plant.old plant.new }

    // Each fault has its cause.
    ensures plant_cause { HasCauseAt ServeStop.Plant (P.view plant.old).faults (P.view plant.new).faults result }
    ensures cell_cause { HasCauseAt ServeStop.Cell (C.faults cell.old) (C.faults cell.new) result }
    ensures output_cause { HasCauseAt ServeStop.Output (P.view plant.old).tell_faults (P.view plant.new).tell_faults result }
    ensures read_cause { HasCauseAt ServeStop.Read (S.faults source.old) (S.faults source.new) result }
{
    let mut taken = 0;
    let mut watch = Watch::new();
    while taken <= MOST {
        match serve_line(
            session, alloc, plant, cell, clock, &mut watch, source, &mut taken,
        ) {
            Err(stop) => return Err(stop),
            Ok(passed) => {
                if !passed.goes {
                    return Ok(watch.refused());
                }
            }
        }
    }
    Err(ServeStop::TooLong)
}
