//! Running the next line of a script.

ghost use Rattle.std.specs.Prelude.{◌≡◌, ◌≢◌, ◌+◌, ◌<◌, ◌≤◌, ℕ, List as AnyList, [], ◌∷◌, length, true, false, Err, IfOk, OnOk, OnErr};
ghost use Rattle.std.specs.Str.Lines.{lines, strip_carriage_return};
ghost use Rattle.crash_moments.specs.Moments.{HasCauseAt};
ghost use Rattle.plant_effects.specs.Runs.{Stays};
ghost use Rattle.backup_session.specs.Worlds.{World};
ghost use Rattle.backup_session.specs.Fitting.{Fits};
ghost use Rattle.backup_script.specs.Items.{item_of};
ghost use Rattle.backup_script.specs.Scripts.{nothing, script};
ghost use Rattle.backup_script.specs.Held.{HeldForLine, IsHeldThroughout};
ghost use Rattle.backup_script.specs.Running.{Went, LeftWith, LineLeft, ScriptRan, LinePassed, TakesNext, HasUsed, IsWatched};

use crate::lines::{LineStop, Next, take_line};
use crate::serving::{Passed, ServeStop, run_line};
use crate::watch::Watch;
use backup_session::Session;
use cell_core::Cell;
use media_core::{Clock, Source};
use plant_core::Plant;
use std::alloc::Global;

/// A line that a line feed ended loses one carriage return in front of it.
fn without_return(line: &[u8]) -> &[u8]
    ensures { result.now ≡ strip_carriage_return line.now }
{
    if !line.is_empty() && line[line.len() - 1] == b'\r' {
        &line[..line.len() - 1]
    } else {
        line
    }
}

fn stop_of(stop: LineStop) -> ServeStop
    ensures read { result ≡ ServeStop.Read → stop ≡ LineStop.Failed }
    ensures read_back { stop ≡ LineStop.Failed → result ≡ ServeStop.Read }
    ensures long { result ≡ ServeStop.TooLong → stop ≡ LineStop.TooLong }
    ensures plant { result ≢ ServeStop.Plant }
    ensures cell { result ≢ ServeStop.Cell }
    ensures output { result ≢ ServeStop.Output }
{
    match stop {
        LineStop::Failed => ServeStop::Read,
        LineStop::TooLong => ServeStop::TooLong,
        LineStop::Memory => ServeStop::Memory,
    }
}

/// Runs the last line, which no line feed ended; the script ends behind it.
fn run_last<P: Plant, C: Cell, K: Clock>(
    session: &mut Session,
    alloc: Global,
    plant: &mut P,
    cell: &mut C,
    clock: &mut K,
    watch: &mut Watch,
    line: &[u8],
) -> Result<Passed, ServeStop>
    requires { P.sound plant.old }
    ensures sound { OnOk result (P.sound plant.new) }
    ensures ran { P.tells → C.tells → K.tells → (w : World) → Fits P.Plant C.Cell w plant.old cell.old session.old
        → HeldForLine w (K.moments clock.old) (item_of line.now) → OnOk result (ScriptRan P.Plant C.Cell (script w (K.moments clock.old) (line.now ∷ [])) plant.old plant.new cell.new session.new (K.moments clock.new)) }
    ensures watched { P.tells → C.tells → (before : AnyList ℕ) → IsWatched P.Plant C.Cell before plant.old cell.old session.old watch.old → OnOk result (IsWatched P.Plant C.Cell before plant.new cell.new session.new watch.new) }
    ensures left { P.tells → C.tells → K.tells → (w : World) → Fits P.Plant C.Cell w plant.old cell.old session.old → HeldForLine w (K.moments clock.old) (item_of line.now) → OnErr result (LineLeft P.Plant C.Cell w (K.moments clock.old) (item_of line.now) plant.old plant.new cell.new (K.moments clock.new)) }
    ensures ends { IfOk result (λ passed. passed.goes ≡ false) }
    ensures fewer { K.tells → length (K.moments clock.new) ≤ length (K.moments clock.old) }
    ensures used { K.tells → result ≡ Err ServeStop.Cell → HasUsed (K.moments clock.old) (K.moments clock.new) }
    ensures plant_used { K.tells → result ≡ Err ServeStop.Plant → HasUsed (K.moments clock.old) (K.moments clock.new) }
    ensures stays { Stays P.Plant plant.old plant.new }
    ensures plant_cause { HasCauseAt ServeStop.Plant (P.view plant.old).faults (P.view plant.new).faults result }
    ensures cell_cause { HasCauseAt ServeStop.Cell (C.faults cell.old) (C.faults cell.new) result }
    ensures output_cause { HasCauseAt ServeStop.Output (P.view plant.old).tell_faults (P.view plant.new).tell_faults result }
    ensures no_read { result ≢ Err ServeStop.Read }
    ensures no_long { result ≢ Err ServeStop.TooLong }
{
    match run_line(session, alloc, plant, cell, clock, watch, line) {
        Ok(_) => Ok(Passed { goes: false }),
        Err(stop) => Err(stop),
    }
}

/// Runs the next line of a source, and counts the bytes taken of it.
pub fn serve_line<P: Plant, C: Cell, K: Clock, S: Source>(
    session: &mut Session,
    alloc: Global,
    plant: &mut P,
    cell: &mut C,
    clock: &mut K,
    watch: &mut Watch,
    source: &mut S,
    taken: &mut usize,
) -> Result<Passed, ServeStop>
    requires sound { P.sound plant.old }
    requires few { taken.old ≤ 16777217 }
    ensures sound { OnOk result (P.sound plant.new) }
    ensures passed { P.tells → C.tells → K.tells → S.tells → (w : World) → Fits P.Plant C.Cell w plant.old cell.old session.old
        → IsHeldThroughout w (K.moments clock.old) (lines (S.left source.old)) → IfOk result (λ passed. passed.goes ≡ true → LinePassed P.Plant C.Cell w (K.moments clock.old) (S.left source.old) (S.left source.new) plant.old plant.new cell.new session.new (K.moments clock.new)) }
    ensures ended { P.tells → C.tells → K.tells → S.tells → (w : World) → Fits P.Plant C.Cell w plant.old cell.old session.old
        → IsHeldThroughout w (K.moments clock.old) (lines (S.left source.old)) → IfOk result (λ passed. passed.goes ≡ false → ScriptRan P.Plant C.Cell (script w (K.moments clock.old) (lines (S.left source.old))) plant.old plant.new cell.new session.new (K.moments clock.new)) }
    ensures left { P.tells → C.tells → K.tells → S.tells → (w : World) → Fits P.Plant C.Cell w plant.old cell.old session.old → IsHeldThroughout w (K.moments clock.old) (lines (S.left source.old)) → OnErr result (LeftWith P.Plant C.Cell w (K.moments clock.old) (lines (S.left source.old)) [] plant.old plant.new cell.new (K.moments clock.new)) }
    ensures watched { P.tells → C.tells → (before : AnyList ℕ) → IsWatched P.Plant C.Cell before plant.old cell.old session.old watch.old → OnOk result (IsWatched P.Plant C.Cell before plant.new cell.new session.new watch.new) }
    ensures read_short { P.tells → C.tells → K.tells → (w : World) → Fits P.Plant C.Cell w plant.old cell.old session.old → result ≡ Err ServeStop.Read → Went P.Plant C.Cell (nothing w (K.moments clock.old) true) plant.old plant.new cell.new session.new (K.moments clock.new) }
    ensures long_short { P.tells → C.tells → K.tells → (w : World) → Fits P.Plant C.Cell w plant.old cell.old session.old → result ≡ Err ServeStop.TooLong → Went P.Plant C.Cell (nothing w (K.moments clock.old) true) plant.old plant.new cell.new session.new (K.moments clock.new) }
    ensures took { S.tells → TakesNext (S.left source.old) (S.left source.new) taken.new result }
    ensures count { S.tells → length (S.left source.old) + taken.old ≡ length (S.left source.new) + taken.new }
    ensures within { taken.new ≤ 16777217 }
    ensures more { IfOk result (λ passed. passed.goes ≡ true → taken.old < taken.new) }
    ensures long { result ≡ Err ServeStop.TooLong → taken.new ≡ 16777217 }
    ensures fewer { K.tells → length (K.moments clock.new) ≤ length (K.moments clock.old) }
    ensures used { K.tells → result ≡ Err ServeStop.Cell → HasUsed (K.moments clock.old) (K.moments clock.new) }
    ensures plant_used { K.tells → result ≡ Err ServeStop.Plant → HasUsed (K.moments clock.old) (K.moments clock.new) }
    ensures stays { Stays P.Plant plant.old plant.new }
    ensures plant_cause { HasCauseAt ServeStop.Plant (P.view plant.old).faults (P.view plant.new).faults result }
    ensures cell_cause { HasCauseAt ServeStop.Cell (C.faults cell.old) (C.faults cell.new) result }
    ensures output_cause { HasCauseAt ServeStop.Output (P.view plant.old).tell_faults (P.view plant.new).tell_faults result }
    ensures read_cause { HasCauseAt ServeStop.Read (S.faults source.old) (S.faults source.new) result }
{
    match take_line(alloc, source, taken) {
        Ok(Next::Ended(line)) => {
            let text = without_return(line.as_slice());
            let ran = run_line(session, alloc, plant, cell, clock, watch, text);
            drop(line);
            ran
        }
        Ok(Next::Last(line)) => {
            let ran = run_last(session, alloc, plant, cell, clock, watch, line.as_slice());
            drop(line);
            ran
        }
        Ok(Next::End) => Ok(Passed { goes: false }),
        Err(stop) => Err(stop_of(stop)),
    }
}
