//! Running a script: each line is run as soon as it is complete, and its whole reply is told before the next one.

ghost use Rattle.std.specs.Prelude.{◌≡◌, ◌≢◌, ◌≤◌, [], ◌∷◌, ℕ, List as AnyList, length, not, true, false, Err, IfOk, OnOk, OnErr};
ghost use Rattle.crash_moments.specs.Moments.{HasCauseAt};
ghost use Rattle.media_core.specs.Later.{later};
ghost use Rattle.plant_core.specs.Effects.{tells};
ghost use Rattle.plant_effects.specs.Runs.{Done, Leaves, SameNumbers, Stays, StaysTelling};
ghost use Rattle.backup_session.specs.Worlds.{World, at_moment};
ghost use Rattle.backup_session.specs.Machine.{turn};
ghost use Rattle.backup_session.specs.Fitting.{Fits};
ghost use Rattle.backup_session.specs.Held.{HeldFor};
ghost use Rattle.backup_script.specs.Lines.{is_quit};
ghost use Rattle.backup_script.specs.Items.{item_of};
ghost use Rattle.backup_script.specs.Scripts.{first_of, one_line, command_told};
ghost use Rattle.backup_script.specs.Held.{HeldForLine};
ghost use Rattle.backup_script.specs.Watching.{with_text};
ghost use Rattle.backup_script.specs.Running.{LineRan, LineLeft, TurnLeft, HasUsed, IsWatched, goes_behind};

use crate::item::{Item, read_item};
use crate::watch::Watch;
use backup_session::{Session, Stop};
use backup_words::Command;
use cell_core::Cell;
use media_core::Clock;
use plant_core::Plant;
use plant_effects::tell_whole;
use std::alloc::Global;
use thiserror::Error;

/// Why a script wasn't run to its end.
#[derive(Clone, Copy, Debug, PartialEq, Eq, Drop, Error)]
pub enum ServeStop {
    /// A read of the script failed.
    #[error("a read of the script failed")]
    Read,
    /// A call on the journal or a tape failed.
    #[error("a call on the journal or a tape failed")]
    Plant,
    /// A call on the cell failed.
    #[error("a call on the cell failed")]
    Cell,
    /// The output took no more.
    #[error("the output took no more")]
    Output,
    /// The script is too long.
    #[error("the script is too long")]
    TooLong,
    /// Memory was refused.
    #[error("memory was refused")]
    Memory,
}

/// What is known of a line that was run.
#[derive(Clone, Copy, Debug, Drop)]
pub struct Passed {
    /// Whether the script goes on.
    pub goes: bool,
}

fn stop_of(stop: Stop) -> ServeStop
    ensures plant { result ≡ ServeStop.Plant → stop ≡ Stop.Plant }
    ensures plant_back { stop ≡ Stop.Plant → result ≡ ServeStop.Plant }
    ensures cell { result ≡ ServeStop.Cell → stop ≡ Stop.Cell }
    ensures cell_back { stop ≡ Stop.Cell → result ≡ ServeStop.Cell }
    ensures output { result ≢ ServeStop.Output }
    ensures read { result ≢ ServeStop.Read }
    ensures long { result ≢ ServeStop.TooLong }
{
    match stop {
        Stop::Plant => ServeStop::Plant,
        Stop::Cell => ServeStop::Cell,
        Stop::Memory => ServeStop::Memory,
    }
}

/// Executes a command and tells its reply, to a watch too.
fn run_command<P: Plant, C: Cell>(
    session: &mut Session,
    alloc: Global,
    plant: &mut P,
    cell: &mut C,
    watch: &mut Watch,
    now: u64,
    command: &Command,
) -> Result<(), ServeStop>
    requires { P.sound plant.old }
    ensures sound { OnOk result (P.sound plant.new) }
    ensures went { P.tells → C.tells → (w : World) → Fits P.Plant C.Cell w plant.old cell.old session.old
        → HeldFor (at_moment w now) command.now → (ms : AnyList ℕ) → OnOk result (LineRan P.Plant C.Cell (command_told w ms (turn w now command.now)) plant.old plant.new cell.new session.new (later ms) true) }
    ensures watched { P.tells → C.tells → (before : AnyList ℕ) → IsWatched P.Plant C.Cell before plant.old cell.old session.old watch.old → OnOk result (IsWatched P.Plant C.Cell before plant.new cell.new session.new watch.new) }
    ensures left { P.tells → C.tells → (w : World) → Fits P.Plant C.Cell w plant.old cell.old session.old → HeldFor (at_moment w now) command.now → (ms : AnyList ℕ) → OnErr result (TurnLeft P.Plant C.Cell w ms (turn w now command.now) plant.old plant.new cell.new ms) }
    ensures stays { Stays P.Plant plant.old plant.new }
    ensures plant_cause { HasCauseAt ServeStop.Plant (P.view plant.old).faults (P.view plant.new).faults result }
    ensures cell_cause { HasCauseAt ServeStop.Cell (C.faults cell.old) (C.faults cell.new) result }
    ensures output_cause { HasCauseAt ServeStop.Output (P.view plant.old).tell_faults (P.view plant.new).tell_faults result }
    ensures no_read { result ≢ Err ServeStop.Read }
    ensures no_long { result ≢ Err ServeStop.TooLong }
{
    match session.exec(alloc, plant, cell, now, command) {
        Ok(reply) => {
            let text = reply.text();
            match tell_whole(plant, text) {
                Ok(()) => {
                    watch.watch(text);
                    Ok(())
                }
                Err(_) => Err(ServeStop::Output),
            }
        }
        Err(stop) => Err(stop_of(stop)),
    }
}

/// Tells the reply to a line that is refused for its words, to a watch too. It uses a moment of the clock.
fn tell_refusal<P: Plant, K: Clock>(
    plant: &mut P,
    clock: &mut K,
    watch: &mut Watch,
    text: &[u8],
) -> Result<Passed, ServeStop>
    requires { P.sound plant.old }
    ensures done { OnOk result (Done P.Plant (tells text.now ∷ []) plant.old plant.new) }
    ensures leaves { Leaves P.Plant (tells text.now ∷ []) plant.old plant.new }
    ensures numbers { OnOk result (SameNumbers P.Plant plant.old plant.new) }
    ensures clock { K.tells → K.moments clock.new ≡ later (K.moments clock.old) }
    ensures goes { IfOk result (λ passed. passed.goes ≡ true) }
    ensures watched { OnOk result (watch.new ≡ with_text watch.old text.now) }
    ensures stays { StaysTelling P.Plant plant.old plant.new }
    ensures output_cause { HasCauseAt ServeStop.Output (P.view plant.old).tell_faults (P.view plant.new).tell_faults result }
    ensures only { OnErr result (result ≡ Err ServeStop.Output) }
{
    let _now = clock.now();
    match tell_whole(plant, text) {
        Ok(()) => {
            watch.watch(text);
            Ok(Passed { goes: true })
        }
        Err(_) => Err(ServeStop::Output),
    }
}

/// Executes a command at the next moment of the clock.
fn run_next<P: Plant, C: Cell, K: Clock>(
    session: &mut Session,
    alloc: Global,
    plant: &mut P,
    cell: &mut C,
    clock: &mut K,
    watch: &mut Watch,
    command: &Command,
) -> Result<Passed, ServeStop>
    requires { P.sound plant.old }
    ensures sound { OnOk result (P.sound plant.new) }
    ensures went { P.tells → C.tells → K.tells → (w : World) → Fits P.Plant C.Cell w plant.old cell.old session.old
        → HeldFor (at_moment w (first_of (K.moments clock.old))) command.now → IfOk result (λ passed. LineRan P.Plant C.Cell (command_told w (K.moments clock.old) (turn w (first_of (K.moments clock.old)) command.now)) plant.old plant.new cell.new session.new (K.moments clock.new) passed.goes) }
    ensures watched { P.tells → C.tells → (before : AnyList ℕ) → IsWatched P.Plant C.Cell before plant.old cell.old session.old watch.old → OnOk result (IsWatched P.Plant C.Cell before plant.new cell.new session.new watch.new) }
    ensures left { P.tells → C.tells → K.tells → (w : World) → Fits P.Plant C.Cell w plant.old cell.old session.old
        → HeldFor (at_moment w (first_of (K.moments clock.old))) command.now → OnErr result (TurnLeft P.Plant C.Cell w (later (K.moments clock.old)) (turn w (first_of (K.moments clock.old)) command.now) plant.old plant.new cell.new (K.moments clock.new)) }
    ensures goes { IfOk result (λ passed. passed.goes ≡ true) }
    ensures fewer { K.tells → length (K.moments clock.new) ≤ length (K.moments clock.old) }
    ensures used { K.tells → result ≡ Err ServeStop.Cell → HasUsed (K.moments clock.old) (K.moments clock.new) }
    ensures plant_used { K.tells → result ≡ Err ServeStop.Plant → HasUsed (K.moments clock.old) (K.moments clock.new) }
    ensures stays { Stays P.Plant plant.old plant.new }
    ensures plant_cause { HasCauseAt ServeStop.Plant (P.view plant.old).faults (P.view plant.new).faults result }
    ensures cell_cause { HasCauseAt ServeStop.Cell (C.faults cell.old) (C.faults cell.new) result }
    ensures output_cause { HasCauseAt ServeStop.Output (P.view plant.old).tell_faults (P.view plant.new).tell_faults result }
    ensures no_read { result ≢ Err ServeStop.Read }
    ensures no_long { result ≢ Err ServeStop.TooLong }
{
    let now = clock.now();
    match run_command(session, alloc, plant, cell, watch, now, command) {
        Ok(()) => Ok(Passed { goes: true }),
        Err(stop) => Err(stop),
    }
}

/// Runs what a line says.
fn run_item<P: Plant, C: Cell, K: Clock>(
    session: &mut Session,
    alloc: Global,
    plant: &mut P,
    cell: &mut C,
    clock: &mut K,
    watch: &mut Watch,
    item: Item,
) -> Result<Passed, ServeStop>
    requires { P.sound plant.old }
    ensures sound { OnOk result (P.sound plant.new) }
    ensures went { P.tells → C.tells → K.tells → (w : World) → Fits P.Plant C.Cell w plant.old cell.old session.old
        → HeldForLine w (K.moments clock.old) item → IfOk result (λ passed. LineRan P.Plant C.Cell (one_line w (K.moments clock.old) item) plant.old plant.new cell.new session.new (K.moments clock.new) passed.goes) }
    ensures watched { P.tells → C.tells → (before : AnyList ℕ) → IsWatched P.Plant C.Cell before plant.old cell.old session.old watch.old → OnOk result (IsWatched P.Plant C.Cell before plant.new cell.new session.new watch.new) }
    ensures left { P.tells → C.tells → K.tells → (w : World) → Fits P.Plant C.Cell w plant.old cell.old session.old → HeldForLine w (K.moments clock.old) item → OnErr result (LineLeft P.Plant C.Cell w (K.moments clock.old) item plant.old plant.new cell.new (K.moments clock.new)) }
    ensures goes { IfOk result (λ passed. passed.goes ≡ goes_behind item) }
    ensures not_quit { OnErr result (goes_behind item ≡ true) }
    ensures fewer { K.tells → length (K.moments clock.new) ≤ length (K.moments clock.old) }
    ensures used { K.tells → result ≡ Err ServeStop.Cell → HasUsed (K.moments clock.old) (K.moments clock.new) }
    ensures plant_used { K.tells → result ≡ Err ServeStop.Plant → HasUsed (K.moments clock.old) (K.moments clock.new) }
    ensures stays { Stays P.Plant plant.old plant.new }
    ensures plant_cause { HasCauseAt ServeStop.Plant (P.view plant.old).faults (P.view plant.new).faults result }
    ensures cell_cause { HasCauseAt ServeStop.Cell (C.faults cell.old) (C.faults cell.new) result }
    ensures output_cause { HasCauseAt ServeStop.Output (P.view plant.old).tell_faults (P.view plant.new).tell_faults result }
    ensures no_read { result ≢ Err ServeStop.Read }
    ensures no_long { result ≢ Err ServeStop.TooLong }
{
    match item {
        Item::Silent => Ok(Passed { goes: true }),
        Item::Quit => Ok(Passed { goes: false }),
        Item::Refused(text) => {
            let told = tell_refusal(plant, clock, watch, text.as_slice());
            drop(text);
            told
        }
        Item::Runs(command) => {
            let ran = run_next(session, alloc, plant, cell, clock, watch, &command);
            drop(command);
            ran
        }
    }
}

/// Runs a line, without its end.
pub fn run_line<P: Plant, C: Cell, K: Clock>(
    session: &mut Session,
    alloc: Global,
    plant: &mut P,
    cell: &mut C,
    clock: &mut K,
    watch: &mut Watch,
    line: &[u8],
) -> Result<Passed, ServeStop>
    requires { P.sound plant.old }
    ensures sound { OnOk result (P.sound plant.new) }
    ensures went { P.tells → C.tells → K.tells → (w : World) → Fits P.Plant C.Cell w plant.old cell.old session.old
        → HeldForLine w (K.moments clock.old) (item_of line.now) → IfOk result (λ passed. LineRan P.Plant C.Cell (one_line w (K.moments clock.old) (item_of line.now)) plant.old plant.new cell.new session.new (K.moments clock.new) passed.goes) }
    ensures watched { P.tells → C.tells → (before : AnyList ℕ) → IsWatched P.Plant C.Cell before plant.old cell.old session.old watch.old → OnOk result (IsWatched P.Plant C.Cell before plant.new cell.new session.new watch.new) }
    ensures left { P.tells → C.tells → K.tells → (w : World) → Fits P.Plant C.Cell w plant.old cell.old session.old → HeldForLine w (K.moments clock.old) (item_of line.now) → OnErr result (LineLeft P.Plant C.Cell w (K.moments clock.old) (item_of line.now) plant.old plant.new cell.new (K.moments clock.new)) }
    ensures goes { IfOk result (λ passed. passed.goes ≡ not (is_quit line.now)) }
    ensures not_quit { OnErr result (is_quit line.now ≡ false) }
    ensures fewer { K.tells → length (K.moments clock.new) ≤ length (K.moments clock.old) }
    ensures used { K.tells → result ≡ Err ServeStop.Cell → HasUsed (K.moments clock.old) (K.moments clock.new) }
    ensures plant_used { K.tells → result ≡ Err ServeStop.Plant → HasUsed (K.moments clock.old) (K.moments clock.new) }
    ensures stays { Stays P.Plant plant.old plant.new }
    ensures plant_cause { HasCauseAt ServeStop.Plant (P.view plant.old).faults (P.view plant.new).faults result }
    ensures cell_cause { HasCauseAt ServeStop.Cell (C.faults cell.old) (C.faults cell.new) result }
    ensures output_cause { HasCauseAt ServeStop.Output (P.view plant.old).tell_faults (P.view plant.new).tell_faults result }
    ensures no_read { result ≢ Err ServeStop.Read }
    ensures no_long { result ≢ Err ServeStop.TooLong }
{
    match read_item(alloc, line) {
        Ok(item) => run_item(session, alloc, plant, cell, clock, watch, item),
        Err(_) => Err(ServeStop::Memory),
    }
}
