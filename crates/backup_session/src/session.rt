//! The session: commands are decided, carried out on the plant or the cell, and answered.

ghost use Rattle.std.specs.Prelude.{◌≡◌, ◌≢◌, ◌<◌, ◌≤◌, ◌+◌, [], ℕ, true, List as AnyList, None, Ok, Err, OnOk, OnErr, IfOk, IfSome, Contains, IsTrue};
ghost use Rattle.crash_moments.specs.Moments.{HasCauseAt, Rose};
ghost use Rattle.bk_text.specs.Places.{FailsAt};
ghost use Rattle.budb_changes.specs.declared.change.Change.{Change as AnyChange};
ghost use Rattle.budb_changes.specs.declared.records.DumpRecordFields.{DumpRecordFields};
ghost use Rattle.budb_changes.specs.Bytes.{encoded};
ghost use Rattle.budb_changes.specs.Forms.{AreChanges, IsLog};
ghost use Rattle.budb_fold.specs.Database.{after};
ghost use Rattle.plant_core.specs.Crashes.{seen_in};
ghost use Rattle.plant_core.specs.Stock.{Stock};
ghost use Rattle.plant_effects.specs.Runs.{state_of, Done, Leaves, OnlyLooks, SameNumbers, StaysQuiet};
ghost use Rattle.tape_config.specs.declared.port.PortFields.{PortFields};
ghost use Rattle.archive_model.specs.Archives.{Archive, listed_of, Holds};
ghost use Rattle.dump_courses.specs.Ahead.{LeftAhead};
ghost use Rattle.backup_words.specs.declared.command.Command.TheVariants.{Tape as TapeAsked, Restore as RestoreAsked};
ghost use Rattle.backup_words.specs.declared.command.TapeCommand.TheVariants.{Scantape};
ghost use Rattle.backup_words.specs.declared.command.RestoreCommand.{RestoreCommand as AnyRestore};
ghost use Rattle.backup_session.specs.declared.verdict.Verdict.TheVariants.{Makes, Shortens};
ghost use Rattle.backup_session.specs.Worlds.{World, Contents, at_moment};
ghost use Rattle.backup_session.specs.Scanning.{port_of, slots_here};
ghost use Rattle.backup_session.specs.Verdicts.{verdict};
ghost use Rattle.backup_session.specs.Machine.{carried, alone, done, turn};
ghost use Rattle.backup_session.specs.Held.{HeldFor};

use crate::decide::decide;
use crate::groups::Groups;
use crate::opening::{first_time, open_database};
use crate::reply::Reply;
use crate::stops::{OpenStop, Stop};
use crate::verdict::Verdict;
use crate::vos::on_cell;
use backup_replies::{Refusal, ok_line, refused_number};
use backup_words::{Command, DatabaseCommand};
use bk_text::Bytes;
use budb::{Budb, CommitFault};
use budb_journal::Change;
use cell_core::Cell;
use plant_core::Plant;
use std::alloc::Global;
use std::marker::Model;
use tape_config::Config;
use tape_text::one_reading;

/// The service between two commands. Contracts see it as the configuration, the database, the time and the groups.
pub struct Session {
    pub(crate) config: Config,
    pub(crate) budb: Budb,
    pub(crate) time: u32,
    pub(crate) groups: Groups,
}

/// It is written out, so that each function that lets one go calls it.
impl Drop for Session {
    fn drop(self) {
        let Session {
            config,
            budb,
            time,
            groups,
        } = self;
    }
}

impl Model for Session {
    ghost use Rattle.std.specs.Prelude.{◌≡◌, None};
    ghost use Rattle.backup_session.specs.Views.{SessionView};

    ghost Value = { SessionView };

    ghost view = { λ a. record { config = a.config; budb = a.budb; time = a.time; groups = a.groups } };

    ghost invariant = { λ a. a.budb.prepared ≡ None };
}

impl Session {
    ghost use Rattle.backup_session.specs.Fitting.{Stands, TurnDone, SomeTurnDone, SomeRestore, OnTheWay, FitsPlant, TurnedPlant};
    ghost use Rattle.backup_session.specs.Asks.{asks_archive};
    ghost use Rattle.backup_session.specs.Restores.{MayRestore};
    ghost use Rattle.backup_session.specs.Loading.{restore_loads};
    ghost use Rattle.backup_session.specs.Opening.{opened, UnlessFailed, OpensOrLacksMemory};
    ghost use Rattle.backup_session.specs.Bounded.{HasTapes};
    ghost use Rattle.backup_session.specs.Listing.{ListsWhole};
    ghost use Rattle.backup_session.specs.Again.{HasTheseTapes, IsHeldOn, IsListedBehind};

    /// Opens the session of a plant's journal and of a cell. Its time is the greatest of all ids and clone times of the
    /// database and of what the cell's entries tell. No group is open. Nothing is written. Over a list of changes it answers a
    /// session or that memory ran out, unless a call is refused. Where the plant holds an archive the session has the database
    /// of its journal.
    pub fn open<P: Plant, C: Cell>(
        alloc: Global,
        config: Config,
        plant: &mut P,
        cell: &mut C,
    ) -> Result<Session, OpenStop>
        requires { P.sound plant.old }
        ensures stands { P.tells → IfOk result (λ session. (log : AnyList AnyChange) × AreChanges log × ((state_of P.Plant plant.old).log ≡ encoded log) × (C.tells → (contents : Contents) → Stands P.Plant C.Cell (opened (record { config = config; slots = (P.view plant.old).slots; present = (P.view plant.old).present }) log (C.list cell.old) contents (state_of P.Plant plant.old)) plant.new cell.new session)) }
        ensures bad { P.tells → (at : ℕ) → result ≡ Err (OpenStop.BadLog at) → FailsAt IsLog (state_of P.Plant plant.old).log at }
        ensures listed { P.tells → result ≡ Err OpenStop.Cell → IsLog (state_of P.Plant plant.old).log }
        ensures holds { P.tells → (a : Archive) (records : AnyList DumpRecordFields) → Holds (seen_in (state_of P.Plant plant.old)) a records → IfOk result (λ session. session.budb.database ≡ after a.log) }
        ensures done { UnlessFailed result (Done P.Plant [] plant.old plant.new) }
        ensures leaves { Leaves P.Plant [] plant.old plant.new }
        ensures looks { OnlyLooks P.Plant plant.old plant.new }
        ensures numbers { UnlessFailed result (SameNumbers P.Plant plant.old plant.new) }
        ensures stays { StaysQuiet P.Plant plant.old plant.new }
        ensures cell { C.tells → C.list cell.new ≡ C.list cell.old }
        ensures bad_cell { (at : ℕ) → result ≡ Err (OpenStop.BadLog at) → cell.new ≡ cell.old }
        ensures untouched { P.tells → (IsLog (state_of P.Plant plant.old).log → ⊥) → cell.new ≡ cell.old }
        ensures plant_cause { HasCauseAt OpenStop.Plant (P.view plant.old).faults (P.view plant.new).faults result }
        ensures cell_cause { HasCauseAt OpenStop.Cell (C.faults cell.old) (C.faults cell.new) result }
        ensures answers { P.tells → IsLog (state_of P.Plant plant.old).log → (Rose (P.view plant.old).faults (P.view plant.new).faults → ⊥) → (Rose (C.faults cell.old) (C.faults cell.new) → ⊥) → OpensOrLacksMemory result }
    {
        match open_database(alloc, plant) {
            Ok(budb) => match first_time(cell, budb.database()) {
                Ok(time) => Ok(Session {
                    config,
                    budb,
                    time,
                    groups: Groups::new(alloc),
                }),
                Err(stop) => {
                    drop(budb);
                    drop(config);
                    Err(stop)
                }
            },
            Err(stop) => {
                drop(config);
                Err(stop)
            }
        }
    }

    /// Makes changes by one commit, where the log has room for them, and has this reply then.
    fn make<P: Plant>(
        &mut self,
        alloc: Global,
        plant: &mut P,
        changes: &[Change],
        text: Bytes,
    ) -> Result<Reply, Stop>
        requires { P.sound plant.old }
        ensures sound { OnOk result (P.sound plant.new) }
        ensures unfailed { result ≢ Err Stop.Plant → P.sound plant.new }
        ensures turned { P.tells → (w : World) → FitsPlant P.Plant w plant.old self.old → IfOk result (λ reply. TurnedPlant P.Plant w (carried w (Makes changes.now text)) plant.old plant.new self.new reply) }
        ensures leaves { P.tells → (w : World) → FitsPlant P.Plant w plant.old self.old → Leaves P.Plant (carried w (Makes changes.now text)).effects plant.old plant.new }
        ensures stopped { P.tells → (w : World) → FitsPlant P.Plant w plant.old self.old → OnErr result (result ≢ Err Stop.Plant → LeftAhead P.Plant (carried w (Makes changes.now text)).effects plant.old plant.new) }
        ensures stays { StaysQuiet P.Plant plant.old plant.new }
        ensures cause { HasCauseAt Stop.Plant (P.view plant.old).faults (P.view plant.new).faults result }
        ensures never { result ≢ Err Stop.Cell }
    {
        match self.budb.commit(plant, changes) {
            Ok(()) => Ok(Reply::new(text)),
            Err(CommitFault::LogFull { length }) => {
                Ok(Reply::new(refused_number(alloc, Refusal::LogFull, length)?))
            }
            Err(CommitFault::Failed) => Err(Stop::Plant),
            Err(CommitFault::Memory) => Err(Stop::Memory),
        }
    }

    /// Makes the log short by a checkpoint, where the new one has room. The reply has its memory before anything is written.
    fn shorten<P: Plant>(&mut self, alloc: Global, plant: &mut P) -> Result<Reply, Stop>
        requires { P.sound plant.old }
        ensures sound { OnOk result (P.sound plant.new) }
        ensures unfailed { result ≢ Err Stop.Plant → P.sound plant.new }
        ensures turned { P.tells → (w : World) → FitsPlant P.Plant w plant.old self.old → IfOk result (λ reply. TurnedPlant P.Plant w (carried w Shortens) plant.old plant.new self.new reply) }
        ensures leaves { P.tells → (w : World) → FitsPlant P.Plant w plant.old self.old → Leaves P.Plant (carried w Shortens).effects plant.old plant.new }
        ensures stopped { P.tells → (w : World) → FitsPlant P.Plant w plant.old self.old → OnErr result (result ≢ Err Stop.Plant → LeftAhead P.Plant (carried w Shortens).effects plant.old plant.new) }
        ensures stays { StaysQuiet P.Plant plant.old plant.new }
        ensures cause { HasCauseAt Stop.Plant (P.view plant.old).faults (P.view plant.new).faults result }
        ensures never { result ≢ Err Stop.Cell }
    {
        let done = ok_line(alloc)?;
        match self.budb.checkpoint(plant) {
            Ok(()) => Ok(Reply::new(done)),
            Err(CommitFault::LogFull { length }) => {
                Ok(Reply::new(refused_number(alloc, Refusal::LogFull, length)?))
            }
            Err(CommitFault::Failed) => Err(Stop::Plant),
            Err(CommitFault::Memory) => Err(Stop::Memory),
        }
    }

    /// Carries out what a command has decided.
    fn carry<P: Plant>(
        &mut self,
        alloc: Global,
        plant: &mut P,
        verdict: Verdict,
    ) -> Result<Reply, Stop>
        requires { P.sound plant.old }
        ensures sound { OnOk result (P.sound plant.new) }
        ensures unfailed { result ≢ Err Stop.Plant → P.sound plant.new }
        ensures turned { P.tells → (w : World) → FitsPlant P.Plant w plant.old self.old → IfOk result (λ reply. TurnedPlant P.Plant w (carried w verdict) plant.old plant.new self.new reply) }
        ensures leaves { P.tells → (w : World) → FitsPlant P.Plant w plant.old self.old → Leaves P.Plant (carried w verdict).effects plant.old plant.new }
        ensures stopped { P.tells → (w : World) → FitsPlant P.Plant w plant.old self.old → OnErr result (result ≢ Err Stop.Plant → LeftAhead P.Plant (carried w verdict).effects plant.old plant.new) }
        ensures stays { StaysQuiet P.Plant plant.old plant.new }
        ensures cause { HasCauseAt Stop.Plant (P.view plant.old).faults (P.view plant.new).faults result }
        ensures never { result ≢ Err Stop.Cell }
    {
        match verdict {
            Verdict::Refuses(text) => Ok(Reply::new(text)),
            Verdict::Shows(text) => Ok(Reply::new(text)),
            Verdict::Makes(changes, text) => self.make(alloc, plant, changes.as_slice(), text),
            Verdict::Shortens => self.shorten(alloc, plant),
        }
    }

    /// A command on the database, at the session's time.
    fn on_database<P: Plant>(
        &mut self,
        alloc: Global,
        plant: &mut P,
        command: &DatabaseCommand,
    ) -> Result<Reply, Stop>
        requires { P.sound plant.old }
        ensures sound { OnOk result (P.sound plant.new) }
        ensures unfailed { result ≢ Err Stop.Plant → P.sound plant.new }
        ensures turned { P.tells → (w : World) → FitsPlant P.Plant w plant.old self.old → IfOk result (λ reply. TurnedPlant P.Plant w (carried w (verdict (after w.log) command.now)) plant.old plant.new self.new reply) }
        ensures leaves { P.tells → (w : World) → FitsPlant P.Plant w plant.old self.old → Leaves P.Plant (carried w (verdict (after w.log) command.now)).effects plant.old plant.new }
        ensures stopped { P.tells → (w : World) → FitsPlant P.Plant w plant.old self.old → OnErr result (result ≢ Err Stop.Plant → LeftAhead P.Plant (carried w (verdict (after w.log) command.now)).effects plant.old plant.new) }
        ensures stays { StaysQuiet P.Plant plant.old plant.new }
        ensures cause { HasCauseAt Stop.Plant (P.view plant.old).faults (P.view plant.new).faults result }
        ensures never { result ≢ Err Stop.Cell }
    {
        let verdict = decide(alloc, &self.budb, command)?;
        self.carry(alloc, plant, verdict)
    }

    /// A command outside of a group, at the session's time.
    fn run_alone<P: Plant, C: Cell>(
        &mut self,
        alloc: Global,
        plant: &mut P,
        cell: &mut C,
        command: &Command,
    ) -> Result<Reply, Stop>
        requires { P.sound plant.old }
        ensures sound { OnOk result (P.sound plant.new) }
        ensures unfailed { result ≢ Err Stop.Plant → P.sound plant.new }
        ensures turned { P.tells → C.tells → (w : World) → Stands P.Plant C.Cell w plant.old cell.old self.old → HeldFor w command.now → IfOk result (λ reply. TurnDone P.Plant C.Cell w (alone w command.now) plant.old plant.new cell.new self.new reply) }
        ensures some_turn { P.tells → C.tells → (w : World) → Stands P.Plant C.Cell w plant.old cell.old self.old → IfOk result (λ reply. SomeTurnDone P.Plant C.Cell w plant.old plant.new cell.new self.new reply) }
        ensures some_restore { P.tells → C.tells → (w : World) → Stands P.Plant C.Cell w plant.old cell.old self.old → asks_archive command.now ≡ true → IfOk result (λ reply. SomeRestore P.Plant C.Cell w plant.old plant.new cell.new self.new reply) }
        ensures may { P.tells → C.tells → (w : World) → Stands P.Plant C.Cell w plant.old cell.old self.old → (asked : AnyRestore) → command.now ≡ RestoreAsked asked → MayRestore (after w.log) w.time asked w.cell (C.list cell.new) }
        ensures leaves { P.tells → C.tells → (w : World) → Stands P.Plant C.Cell w plant.old cell.old self.old → Leaves P.Plant (alone w command.now).effects plant.old plant.new }
        ensures stopped { P.tells → C.tells → (w : World) → Stands P.Plant C.Cell w plant.old cell.old self.old → OnErr result (result ≢ Err Stop.Plant → LeftAhead P.Plant (alone w command.now).effects plant.old plant.new) }
        ensures cells { P.tells → C.tells → (w : World) → Stands P.Plant C.Cell w plant.old cell.old self.old → HeldFor w command.now → OnTheWay w.cell (alone w command.now).cells (C.list cell.new) }
        ensures loads { P.tells → (w : World) → Stands P.Plant C.Cell w plant.old cell.old self.old → (asked : AnyRestore) → command.now ≡ RestoreAsked asked → IfSome (restore_loads w asked) (λ most. (P.view plant.new).loads ≤ (P.view plant.old).loads + most) }
        ensures stays { StaysQuiet P.Plant plant.old plant.new }
        ensures plant_cause { HasCauseAt Stop.Plant (P.view plant.old).faults (P.view plant.new).faults result }
        ensures cell_cause { HasCauseAt Stop.Cell (C.faults cell.old) (C.faults cell.new) result }
    {
        match command {
            Command::Database(asked) => self.on_database(alloc, plant, asked),
            Command::Tape(asked) => self.on_tape(alloc, plant, asked),
            Command::Cell(asked) => on_cell(alloc, cell, asked, self.time),
            Command::Dump(asked) => self.make_dump(alloc, plant, cell, asked),
            Command::Group(asked) => self.on_groups_alone(alloc, asked),
            Command::Restore(asked) => self.on_archive(alloc, plant, cell, asked),
        }
    }

    /// A command at the session's time: in the group that is open, or outside of one.
    fn run<P: Plant, C: Cell>(
        &mut self,
        alloc: Global,
        plant: &mut P,
        cell: &mut C,
        command: &Command,
    ) -> Result<Reply, Stop>
        requires { P.sound plant.old }
        ensures sound { OnOk result (P.sound plant.new) }
        ensures unfailed { result ≢ Err Stop.Plant → P.sound plant.new }
        ensures turned { P.tells → C.tells → (w : World) → Stands P.Plant C.Cell w plant.old cell.old self.old → HeldFor w command.now → IfOk result (λ reply. TurnDone P.Plant C.Cell w (done w command.now) plant.old plant.new cell.new self.new reply) }
        ensures some_turn { P.tells → C.tells → (w : World) → Stands P.Plant C.Cell w plant.old cell.old self.old → IfOk result (λ reply. SomeTurnDone P.Plant C.Cell w plant.old plant.new cell.new self.new reply) }
        ensures some_restore { P.tells → C.tells → (w : World) → Stands P.Plant C.Cell w plant.old cell.old self.old → asks_archive command.now ≡ true → IfOk result (λ reply. SomeRestore P.Plant C.Cell w plant.old plant.new cell.new self.new reply) }
        ensures may { P.tells → C.tells → (w : World) → Stands P.Plant C.Cell w plant.old cell.old self.old → (asked : AnyRestore) → command.now ≡ RestoreAsked asked → MayRestore (after w.log) w.time asked w.cell (C.list cell.new) }
        ensures leaves { P.tells → C.tells → (w : World) → Stands P.Plant C.Cell w plant.old cell.old self.old → Leaves P.Plant (done w command.now).effects plant.old plant.new }
        ensures stopped { P.tells → C.tells → (w : World) → Stands P.Plant C.Cell w plant.old cell.old self.old → OnErr result (result ≢ Err Stop.Plant → LeftAhead P.Plant (done w command.now).effects plant.old plant.new) }
        ensures cells { P.tells → C.tells → (w : World) → Stands P.Plant C.Cell w plant.old cell.old self.old → HeldFor w command.now → OnTheWay w.cell (done w command.now).cells (C.list cell.new) }
        ensures loads { P.tells → (w : World) → Stands P.Plant C.Cell w plant.old cell.old self.old → (asked : AnyRestore) → command.now ≡ RestoreAsked asked → IfSome (restore_loads w asked) (λ most. (P.view plant.new).loads ≤ (P.view plant.old).loads + most) }
        ensures stays { StaysQuiet P.Plant plant.old plant.new }
        ensures plant_cause { HasCauseAt Stop.Plant (P.view plant.old).faults (P.view plant.new).faults result }
        ensures cell_cause { HasCauseAt Stop.Cell (C.faults cell.old) (C.faults cell.new) result }
    {
        if self.groups.open.is_some() {
            self.run_in_group(alloc, plant, cell, command)
        } else {
            self.run_alone(alloc, plant, cell, command)
        }
    }

    /// Executes a command at a moment of the clock. What it tells is handed back and not told. A world that stands there has
    /// tapes as a plant has them. Outside of a group `scantape -dbadd` lists in it the dumps that are whole on the coordinator's
    /// tapes that are here, but for those that are listed, those with a wrong parent, and from the first on for which the log has
    /// no room; over a database without listed dumps each dump that another journal has listed, and whose tapes are all held
    /// there, is listed again, unless the log has no room. In a group a scan is refused, and so is a restore. Elsewhere a restore
    /// over tapes that hold no archive changes nothing but the cell, into which it puts, for each wanted volume in turn, one
    /// volume under the name that it gets, or none; whatever comes of it, of the volumes of a partition or of a volume set each sixteen load
    /// each tape once for each dump on it, but for slots with a tape's label that don't hold it. A stop that isn't the plant's leaves a sound plant, with the first so many
    /// effects of the command.
    pub fn exec<P: Plant, C: Cell>(
        &mut self,
        alloc: Global,
        plant: &mut P,
        cell: &mut C,
        now: u64,
        command: &Command,
    ) -> Result<Reply, Stop>
        requires { P.sound plant.old }
        ensures sound { OnOk result (P.sound plant.new) }
        ensures unfailed { result ≢ Err Stop.Plant → P.sound plant.new }
        ensures turned { P.tells → C.tells → (w : World) → Stands P.Plant C.Cell w plant.old cell.old self.old → HeldFor (at_moment w now) command.now → IfOk result (λ reply. TurnDone P.Plant C.Cell w (turn w now command.now) plant.old plant.new cell.new self.new reply) }
        ensures some_turn { P.tells → C.tells → (w : World) → Stands P.Plant C.Cell w plant.old cell.old self.old → IfOk result (λ reply. SomeTurnDone P.Plant C.Cell w plant.old plant.new cell.new self.new reply) }
        ensures leaves { P.tells → C.tells → (w : World) → Stands P.Plant C.Cell w plant.old cell.old self.old → Leaves P.Plant (turn w now command.now).effects plant.old plant.new }
        ensures stopped { P.tells → C.tells → (w : World) → Stands P.Plant C.Cell w plant.old cell.old self.old → OnErr result (result ≢ Err Stop.Plant → LeftAhead P.Plant (turn w now command.now).effects plant.old plant.new) }
        ensures cells { P.tells → C.tells → (w : World) → Stands P.Plant C.Cell w plant.old cell.old self.old → HeldFor (at_moment w now) command.now → OnTheWay w.cell (turn w now command.now).cells (C.list cell.new) }
        ensures some_restore { P.tells → C.tells → (w : World) → Stands P.Plant C.Cell w plant.old cell.old self.old → asks_archive command.now ≡ true → IfOk result (λ reply. SomeRestore P.Plant C.Cell (at_moment w now) plant.old plant.new cell.new self.new reply) }
        ensures may { P.tells → C.tells → (w : World) → Stands P.Plant C.Cell w plant.old cell.old self.old → (asked : AnyRestore) → command.now ≡ RestoreAsked asked → MayRestore (after w.log) (at_moment w now).time asked w.cell (C.list cell.new) }
        ensures tapes { P.tells → C.tells → (w : World) → Stands P.Plant C.Cell w plant.old cell.old self.old → HasTapes w × ((k : ℕ) → IsTrue (w.setting.present k) → k < w.setting.slots) }
        ensures scans { P.tells → C.tells → (w : World) → Stands P.Plant C.Cell w plant.old cell.old self.old → w.groups.open ≡ None → (offset : ℕ) (port : PortFields) → command.now ≡ TapeAsked (Scantape true offset) → port_of w.setting.config (after w.log).hosts offset ≡ Ok port
            → IfOk result (λ reply. ListsWhole w (slots_here w.setting.present port) (turn w now command.now)) }
        ensures again { P.tells → C.tells → (w : World) → Stands P.Plant C.Cell w plant.old cell.old self.old → w.groups.open ≡ None → (offset : ℕ) (port : PortFields) → command.now ≡ TapeAsked (Scantape true offset) → port_of w.setting.config (after w.log).hosts offset ≡ Ok port
            → (after w.log).listed ≡ [] → (stock : Stock) (a : Archive) (records : AnyList DumpRecordFields) → Holds stock a records → HasTheseTapes w stock a
            → (d : DumpRecordFields) → Contains (listed_of a) d → IsHeldOn d (slots_here w.setting.present port) a.slots → IfOk result (λ reply. IsListedBehind w (slots_here w.setting.present port) (turn w now command.now) d) }
        ensures loads { P.tells → (w : World) → Stands P.Plant C.Cell w plant.old cell.old self.old → (asked : AnyRestore) → command.now ≡ RestoreAsked asked → IfSome (restore_loads w asked) (λ most. (P.view plant.new).loads ≤ (P.view plant.old).loads + most) }
        ensures stays { StaysQuiet P.Plant plant.old plant.new }
        ensures plant_cause { HasCauseAt Stop.Plant (P.view plant.old).faults (P.view plant.new).faults result }
        ensures cell_cause { HasCauseAt Stop.Cell (C.faults cell.old) (C.faults cell.new) result }
    {
        one_reading();
        self.time = self.time.max(now.min(4_294_967_295) as u32);
        self.run(alloc, plant, cell, command)
    }
}
