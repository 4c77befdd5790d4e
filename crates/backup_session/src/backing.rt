//! A saved database is read back.

ghost use Rattle.std.specs.Prelude.{◌≡◌, ◌≢◌, Ok, Err, IfOk, OnOk, OnErr};
ghost use Rattle.crash_moments.specs.Moments.{HasCauseAt};
ghost use Rattle.plant_effects.specs.Runs.{Leaves, StaysQuiet};
ghost use Rattle.budb_fold.specs.Database.{after};
ghost use Rattle.dump_courses.specs.Ahead.{LeftAhead};
ghost use Rattle.backup_session.specs.Worlds.{World};
ghost use Rattle.backup_session.specs.Scanning.{port_of};
ghost use Rattle.backup_session.specs.Saves.{back_turn, back_text};

use crate::opening::database_time;
use crate::reply::Reply;
use crate::scanning::port_of;
use crate::session::Session;
use crate::stops::Stop;
use backup_replies::{Refusal, back_lines, refused_alone, refused_number, refused_numbers};
use budb_save::{LoadFault, a_save_is_read_in_one_way, an_unused_database_is_told, load_back};
use plant_core::Plant;
use std::alloc::Global;
use tape_answers::the_slots_are_read;
use tape_config::Port;

/// The reply where a database isn't read back, or what the session stops for.
fn refusal_reply(alloc: Global, offset: u16, fault: LoadFault) -> Result<Reply, Stop>
    ensures text { IfOk result (λ reply. reply.text ≡ back_text offset fault) }
    ensures plant { result ≡ Err Stop.Plant → fault ≡ LoadFault.Failed }
    ensures failed { fault ≡ LoadFault.Failed → result ≡ Err Stop.Plant }
    ensures memory { fault ≡ LoadFault.Memory → result ≡ Err Stop.Memory }
    ensures never { result ≢ Err Stop.Cell }
{
    match fault {
        LoadFault::InUse => Ok(Reply::new(refused_alone(alloc, Refusal::DatabaseInUse)?)),
        LoadFault::NoSave => {
            Ok(Reply::new(refused_number(alloc, Refusal::NoSave, offset as u64)?))
        }
        LoadFault::BadSave { slot, place } => Ok(Reply::new(refused_numbers(
            alloc,
            Refusal::BadSave,
            slot as u64,
            place as u64,
        )?)),
        LoadFault::LogFull { length } => {
            Ok(Reply::new(refused_number(alloc, Refusal::LogFull, length)?))
        }
        LoadFault::Failed => Err(Stop::Plant),
        LoadFault::Memory => Err(Stop::Memory),
    }
}

impl Session {
    ghost use Rattle.backup_session.specs.Fitting.{FitsPlant, TurnedPlant};

    /// Reads the database back from a tape of a port. The session's time takes in the ids and clone times that are read.
    fn back_on<P: Plant>(
        &mut self,
        alloc: Global,
        plant: &mut P,
        port: &Port,
    ) -> Result<Reply, Stop>
        requires { P.sound plant.old }
        ensures sound { OnOk result (P.sound plant.new) }
        ensures unfailed { result ≢ Err Stop.Plant → P.sound plant.new }
        ensures turned { P.tells → (w : World) → FitsPlant P.Plant w plant.old self.old → IfOk result (λ reply. TurnedPlant P.Plant w (back_turn w (Ok port.now)) plant.old plant.new self.new reply) }
        ensures leaves { P.tells → (w : World) → FitsPlant P.Plant w plant.old self.old → Leaves P.Plant (back_turn w (Ok port.now)).effects plant.old plant.new }
        ensures stopped { P.tells → (w : World) → FitsPlant P.Plant w plant.old self.old → OnErr result (result ≢ Err Stop.Plant → LeftAhead P.Plant (back_turn w (Ok port.now)).effects plant.old plant.new) }
        ensures stays { StaysQuiet P.Plant plant.old plant.new }
        ensures cause { HasCauseAt Stop.Plant (P.view plant.old).faults (P.view plant.new).faults result }
        ensures never { result ≢ Err Stop.Cell }
    {
        the_slots_are_read();
        a_save_is_read_in_one_way();
        an_unused_database_is_told();
        let offset = port.fields().offset;
        match load_back(alloc, &mut self.budb, plant, port) {
            Ok(dumps) => {
                self.time = self.time.max(database_time(self.budb.database()));
                Ok(Reply::new(back_lines(alloc, dumps as u64)?))
            }
            Err(fault) => refusal_reply(alloc, offset, fault),
        }
    }

    /// `restoredb`.
    pub(crate) fn back<P: Plant>(
        &mut self,
        alloc: Global,
        plant: &mut P,
        offset: u16,
    ) -> Result<Reply, Stop>
        requires { P.sound plant.old }
        ensures sound { OnOk result (P.sound plant.new) }
        ensures unfailed { result ≢ Err Stop.Plant → P.sound plant.new }
        ensures turned { P.tells → (w : World) → FitsPlant P.Plant w plant.old self.old → IfOk result (λ reply. TurnedPlant P.Plant w (back_turn w (port_of w.setting.config (after w.log).hosts offset)) plant.old plant.new self.new reply) }
        ensures leaves { P.tells → (w : World) → FitsPlant P.Plant w plant.old self.old → Leaves P.Plant (back_turn w (port_of w.setting.config (after w.log).hosts offset)).effects plant.old plant.new }
        ensures stopped { P.tells → (w : World) → FitsPlant P.Plant w plant.old self.old → OnErr result (result ≢ Err Stop.Plant → LeftAhead P.Plant (back_turn w (port_of w.setting.config (after w.log).hosts offset)).effects plant.old plant.new) }
        ensures stays { StaysQuiet P.Plant plant.old plant.new }
        ensures cause { HasCauseAt Stop.Plant (P.view plant.old).faults (P.view plant.new).faults result }
        ensures never { result ≢ Err Stop.Cell }
    {
        match port_of(alloc, &self.config, self.budb.hosts(), offset)? {
            Ok(port) => self.back_on(alloc, plant, &port),
            Err(text) => Ok(Reply::new(text)),
        }
    }
}
