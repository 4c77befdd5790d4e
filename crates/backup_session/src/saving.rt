//! The database is saved on a tape of its own.

ghost use Rattle.std.specs.Prelude.{◌≡◌, ◌≢◌, Ok, Err, IfOk, OnOk, OnErr};
ghost use Rattle.crash_moments.specs.Moments.{HasCauseAt};
ghost use Rattle.plant_effects.specs.Runs.{Leaves, StaysQuiet};
ghost use Rattle.budb_fold.specs.Database.{after};
ghost use Rattle.dump_courses.specs.Ahead.{LeftAhead};
ghost use Rattle.backup_session.specs.Worlds.{World};
ghost use Rattle.backup_session.specs.Scanning.{port_of};
ghost use Rattle.backup_session.specs.Saves.{saved_turn, save_text};

use crate::reply::Reply;
use crate::scanning::port_of;
use crate::session::Session;
use crate::stops::Stop;
use backup_replies::{Refusal, refused_number, refused_word, saved_lines};
use budb_save::{SaveFault, Saved, save};
use plant_core::Plant;
use std::alloc::Global;
use tape_answers::the_slots_are_read;
use tape_config::Port;

/// The reply of a save, or what the session stops for.
fn save_reply(alloc: Global, offset: u16, saved: Result<Saved, SaveFault>) -> Result<Reply, Stop>
    ensures text { IfOk result (λ reply. reply.text ≡ save_text offset saved) }
    ensures plant { result ≡ Err Stop.Plant → saved ≡ Err SaveFault.Failed }
    ensures failed { saved ≡ Err SaveFault.Failed → result ≡ Err Stop.Plant }
    ensures memory { saved ≡ Err SaveFault.Memory → result ≡ Err Stop.Memory }
    ensures never { result ≢ Err Stop.Cell }
{
    match saved {
        Ok(saved) => Ok(Reply::new(saved_lines(alloc, saved.bytes, saved.slot)?)),
        Err(SaveFault::NoTape) => {
            Ok(Reply::new(refused_word(alloc, Refusal::NoTape, b"Ubik_db_dump.1")?))
        }
        Err(SaveFault::TooBig) => {
            Ok(Reply::new(refused_number(alloc, Refusal::SaveTooBig, offset as u64)?))
        }
        Err(SaveFault::Failed) => Err(Stop::Plant),
        Err(SaveFault::Memory) => Err(Stop::Memory),
    }
}

impl Session {
    ghost use Rattle.backup_session.specs.Fitting.{FitsPlant, TurnedPlant};

    /// Saves the database on a tape of a port.
    fn save_on<P: Plant>(&self, alloc: Global, plant: &mut P, port: &Port) -> Result<Reply, Stop>
        requires { P.sound plant.old }
        ensures sound { OnOk result (P.sound plant.new) }
        ensures unfailed { result ≢ Err Stop.Plant → P.sound plant.new }
        ensures turned { P.tells → (w : World) → FitsPlant P.Plant w plant.old self.now → IfOk result (λ reply. TurnedPlant P.Plant w (saved_turn w (Ok port.now)) plant.old plant.new self.now reply) }
        ensures leaves { P.tells → (w : World) → FitsPlant P.Plant w plant.old self.now → Leaves P.Plant (saved_turn w (Ok port.now)).effects plant.old plant.new }
        ensures stopped { P.tells → (w : World) → FitsPlant P.Plant w plant.old self.now → OnErr result (result ≢ Err Stop.Plant → LeftAhead P.Plant (saved_turn w (Ok port.now)).effects plant.old plant.new) }
        ensures stays { StaysQuiet P.Plant plant.old plant.new }
        ensures cause { HasCauseAt Stop.Plant (P.view plant.old).faults (P.view plant.new).faults result }
        ensures never { result ≢ Err Stop.Cell }
    {
        the_slots_are_read();
        let offset = port.fields().offset;
        let saved = save(alloc, &self.budb, plant, port);
        save_reply(alloc, offset, saved)
    }

    /// `savedb`.
    pub(crate) fn save<P: Plant>(
        &self,
        alloc: Global,
        plant: &mut P,
        offset: u16,
    ) -> Result<Reply, Stop>
        requires { P.sound plant.old }
        ensures sound { OnOk result (P.sound plant.new) }
        ensures unfailed { result ≢ Err Stop.Plant → P.sound plant.new }
        ensures turned { P.tells → (w : World) → FitsPlant P.Plant w plant.old self.now → IfOk result (λ reply. TurnedPlant P.Plant w (saved_turn w (port_of w.setting.config (after w.log).hosts offset)) plant.old plant.new self.now reply) }
        ensures leaves { P.tells → (w : World) → FitsPlant P.Plant w plant.old self.now → Leaves P.Plant (saved_turn w (port_of w.setting.config (after w.log).hosts offset)).effects plant.old plant.new }
        ensures stopped { P.tells → (w : World) → FitsPlant P.Plant w plant.old self.now → OnErr result (result ≢ Err Stop.Plant → LeftAhead P.Plant (saved_turn w (port_of w.setting.config (after w.log).hosts offset)).effects plant.old plant.new) }
        ensures stays { StaysQuiet P.Plant plant.old plant.new }
        ensures cause { HasCauseAt Stop.Plant (P.view plant.old).faults (P.view plant.new).faults result }
        ensures never { result ≢ Err Stop.Cell }
    {
        match port_of(alloc, &self.config, self.budb.hosts(), offset)? {
            Ok(port) => self.save_on(alloc, plant, &port),
            Err(text) => Ok(Reply::new(text)),
        }
    }
}
