//! Dumps: a volume set is dumped as the database, the tapes and the cell have it.

ghost use Rattle.std.specs.Prelude.{◌≡◌, ◌≢◌, Err, IfOk, OnOk, OnErr};
ghost use Rattle.crash_moments.specs.Moments.{HasCauseAt};
ghost use Rattle.plant_effects.specs.Runs.{Leaves, StaysQuiet};
ghost use Rattle.dump_courses.specs.Ahead.{LeftAhead};
ghost use Rattle.dump_commands.specs.Answers.{dump_answer};
ghost use Rattle.backup_session.specs.Worlds.{World};
ghost use Rattle.backup_session.specs.Dumps.{scene_of, answered};

use crate::reply::Reply;
use crate::session::Session;
use crate::stops::Stop;
use backup_words::DumpCommand;
use cell_core::Cell;
use dump_commands::dump;
use dump_courses::DumpStop;
use plant_core::Plant;
use std::alloc::Global;

/// What a dump stops for, as a session says it.
pub(crate) fn stop_of(stop: DumpStop) -> Stop
    ensures plant { result ≡ Stop.Plant → stop ≡ DumpStop.Plant }
    ensures only_plant { stop ≡ DumpStop.Plant → result ≡ Stop.Plant }
    ensures cell { result ≡ Stop.Cell → stop ≡ DumpStop.Cell }
    ensures only_cell { stop ≡ DumpStop.Cell → result ≡ Stop.Cell }
{
    match stop {
        DumpStop::Plant => Stop::Plant,
        DumpStop::Cell => Stop::Cell,
        DumpStop::Memory => Stop::Memory,
    }
}

impl Session {
    ghost use Rattle.backup_session.specs.Fitting.{Stands, TurnDone, OnTheWay};

    /// Makes a dump, or tells what it is refused by, at the session's time, which takes in the id of a dump that is begun.
    pub(crate) fn make_dump<P: Plant, C: Cell>(
        &mut self,
        alloc: Global,
        plant: &mut P,
        cell: &mut C,
        asked: &DumpCommand,
    ) -> Result<Reply, Stop>
        requires { P.sound plant.old }
        ensures sound { OnOk result (P.sound plant.new) }
        ensures unfailed { result ≢ Err Stop.Plant → P.sound plant.new }
        ensures turned { P.tells → C.tells → (w : World) → Stands P.Plant C.Cell w plant.old cell.old self.old → IfOk result (λ reply. TurnDone P.Plant C.Cell w (answered w (dump_answer (scene_of w) asked.now)) plant.old plant.new cell.new self.new reply) }
        ensures leaves { P.tells → C.tells → (w : World) → Stands P.Plant C.Cell w plant.old cell.old self.old → Leaves P.Plant (dump_answer (scene_of w) asked.now).effects plant.old plant.new }
        ensures stopped { P.tells → C.tells → (w : World) → Stands P.Plant C.Cell w plant.old cell.old self.old → OnErr result (result ≢ Err Stop.Plant → LeftAhead P.Plant (dump_answer (scene_of w) asked.now).effects plant.old plant.new) }
        ensures list { C.tells → C.list cell.new ≡ C.list cell.old }
        ensures stays { StaysQuiet P.Plant plant.old plant.new }
        ensures plant_cause { HasCauseAt Stop.Plant (P.view plant.old).faults (P.view plant.new).faults result }
        ensures cell_cause { HasCauseAt Stop.Cell (C.faults cell.old) (C.faults cell.new) result }
    {
        match dump(
            alloc,
            &self.config,
            &mut self.budb,
            plant,
            cell,
            self.time,
            asked,
        ) {
            Ok(dumped) => {
                self.time = dumped.time;
                Ok(Reply::new(dumped.text))
            }
            Err(stop) => Err(stop_of(stop)),
        }
    }
}
