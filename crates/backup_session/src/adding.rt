//! `scantape`: dumps that are found on tapes are told, and may be added.

ghost use Rattle.std.specs.Prelude.{◌≡◌, ◌≢◌, ◌++◌, [], ◌∷◌, max, ℕ, List as AnyList, Ok, Err, IfOk, OnOk, OnErr, if◌then◌else◌};
ghost use Rattle.std.specs.List.{flat_map};
ghost use Rattle.crash_moments.specs.Moments.{HasCauseAt};
ghost use Rattle.plant_effects.specs.Runs.{Leaves, StaysQuiet};
ghost use Rattle.tape_config.specs.declared.port.PortFields.{PortFields};
ghost use Rattle.budb_changes.specs.declared.change.Change.TheVariants as change;
ghost use Rattle.budb_fold.specs.Database.{after};
ghost use Rattle.backup_replies.specs.Texts.{ok_line};
ghost use Rattle.dump_courses.specs.Ahead.{LeftAhead};
ghost use Rattle.backup_session.specs.Opening.{with_clones};
ghost use Rattle.backup_session.specs.Worlds.{World};
ghost use Rattle.backup_session.specs.Scanning.{port_of, slots_here, stopped_line, left_line, time_with, added, added_if, adding, dumps_turn, slots_turn, scan_turn, with_front};

use crate::dumps::any_of_id;
use crate::opening::with_clones;
use crate::reply::Reply;
use crate::scanning::{
    found_in, has_wrong_parent, port_of, put_dumps, put_parts, put_stops, scan_slots, slots_here,
};
use crate::session::Session;
use crate::stops::Stop;
use backup_replies::{Refusal, put_added, put_found, put_refused_number, put_refused_numbers};
use bk_text::{List, Out};
use budb::CommitFault;
use budb_journal::{Change, DumpRecord};
use plant_core::Plant;
use std::alloc::{AllocError, Global};
use tape_config::Port;
use tape_scan::{Found, PartId, Sections};

/// The change that lists a dump that was found.
fn one_found(alloc: Global, dump: &DumpRecord) -> Result<List<Change>, AllocError>
    ensures { IfOk result (λ changes. changes ≡ change.Found dump.now ∷ []) }
{
    let mut changes = List::new(alloc);
    changes.push(Change::Found(dump.clone()?))?;
    Ok(changes)
}

/// The greatest of a time and the id and the clone times of a dump.
fn time_with(time: u32, dump: &DumpRecord) -> u32
    ensures { result ≡ time_with time dump.now }
{
    with_clones(time.max(dump.fields().id), dump)
}

/// The reply of lines, of a line for each part that is left over, and of `ok`.
fn with_parts(mut lines: Out, parts: &[PartId]) -> Result<Reply, AllocError>
    ensures { IfOk result (λ reply. reply.text ≡ lines ++ (flat_map left_line parts.now ++ ok_line)) }
{
    put_parts(&mut lines, parts)?;
    lines.piece(b"ok\n")?;
    Ok(Reply::new(lines.into_bytes()))
}

impl Session {
    ghost use Rattle.backup_session.specs.Fitting.{FitsPlant, TurnedPlant, Stepped};

    /// Adds the record of a dump by one commit, where the log has room for it. It tells whether the log had none.
    fn add<P: Plant>(
        &mut self,
        alloc: Global,
        plant: &mut P,
        lines: &mut Out,
        dump: &DumpRecord,
    ) -> Result<bool, Stop>
        requires { P.sound plant.old }
        ensures sound { OnOk result (P.sound plant.new) }
        ensures unfailed { result ≢ Err Stop.Plant → P.sound plant.new }
        ensures stepped { P.tells → (w : World) → FitsPlant P.Plant w plant.old self.old → OnOk result (Stepped P.Plant w (added w dump.now).turn plant.old plant.new self.new lines.old lines.new) }
        ensures full { P.tells → (w : World) → FitsPlant P.Plant w plant.old self.old → IfOk result (λ full. full ≡ (added w dump.now).full) }
        ensures leaves { P.tells → (w : World) → FitsPlant P.Plant w plant.old self.old → Leaves P.Plant (added w dump.now).turn.effects plant.old plant.new }
        ensures stopped { P.tells → (w : World) → FitsPlant P.Plant w plant.old self.old → OnErr result (result ≢ Err Stop.Plant → LeftAhead P.Plant (added w dump.now).turn.effects plant.old plant.new) }
        ensures stays { StaysQuiet P.Plant plant.old plant.new }
        ensures cause { HasCauseAt Stop.Plant (P.view plant.old).faults (P.view plant.new).faults result }
        ensures never { result ≢ Err Stop.Cell }
    {
        let changes = one_found(alloc, dump)?;
        let time = time_with(self.time, dump);
        match self.budb.commit(plant, changes.as_slice()) {
            Ok(()) => {
                self.time = time;
                put_added(lines, dump.fields().id)?;
                Ok(false)
            }
            Err(CommitFault::LogFull { length }) => {
                put_refused_number(lines, Refusal::LogFull, length)?;
                Ok(true)
            }
            Err(CommitFault::Failed) => Err(Stop::Plant),
            Err(CommitFault::Memory) => Err(Stop::Memory),
        }
    }

    /// Adds a found dump that isn't listed and whose parent isn't wrong, unless the log had no room for an earlier one. It tells
    /// whether the log had none for this one or for an earlier one.
    fn add_if<P: Plant>(
        &mut self,
        alloc: Global,
        plant: &mut P,
        lines: &mut Out,
        dump: &DumpRecord,
        full: bool,
    ) -> Result<bool, Stop>
        requires { P.sound plant.old }
        ensures sound { OnOk result (P.sound plant.new) }
        ensures unfailed { result ≢ Err Stop.Plant → P.sound plant.new }
        ensures stepped { P.tells → (w : World) → FitsPlant P.Plant w plant.old self.old → OnOk result (Stepped P.Plant w (added_if w full dump.now).turn plant.old plant.new self.new lines.old lines.new) }
        ensures full { P.tells → (w : World) → FitsPlant P.Plant w plant.old self.old → IfOk result (λ now. now ≡ (added_if w full dump.now).full) }
        ensures leaves { P.tells → (w : World) → FitsPlant P.Plant w plant.old self.old → Leaves P.Plant (added_if w full dump.now).turn.effects plant.old plant.new }
        ensures stopped { P.tells → (w : World) → FitsPlant P.Plant w plant.old self.old → OnErr result (result ≢ Err Stop.Plant → LeftAhead P.Plant (added_if w full dump.now).turn.effects plant.old plant.new) }
        ensures stays { StaysQuiet P.Plant plant.old plant.new }
        ensures cause { HasCauseAt Stop.Plant (P.view plant.old).faults (P.view plant.new).faults result }
        ensures never { result ≢ Err Stop.Cell }
    {
        let fields = dump.fields();
        let (id, parent) = (fields.id, fields.parent);
        if any_of_id(self.budb.database().listed.as_slice(), id) {
            put_refused_number(lines, Refusal::DumpKnown, id as u64)?;
            return Ok(full);
        }
        if has_wrong_parent(dump) {
            put_refused_numbers(lines, Refusal::WrongParent, id as u64, parent as u64)?;
            return Ok(full);
        }
        if full {
            return Ok(true);
        }
        self.add(alloc, plant, lines, dump)
    }

    /// Tells found dumps, and adds each that may be, one after the other.
    fn add_all<P: Plant>(
        &mut self,
        alloc: Global,
        plant: &mut P,
        lines: &mut Out,
        dumps: &[DumpRecord],
    ) -> Result<(), Stop>
        requires { P.sound plant.old }
        ensures sound { OnOk result (P.sound plant.new) }
        ensures unfailed { result ≢ Err Stop.Plant → P.sound plant.new }
        ensures stepped { P.tells → (w : World) → FitsPlant P.Plant w plant.old self.old → OnOk result (Stepped P.Plant w (adding w dumps.now).turn plant.old plant.new self.new lines.old lines.new) }
        ensures leaves { P.tells → (w : World) → FitsPlant P.Plant w plant.old self.old → Leaves P.Plant (adding w dumps.now).turn.effects plant.old plant.new }
        ensures stopped { P.tells → (w : World) → FitsPlant P.Plant w plant.old self.old → OnErr result (result ≢ Err Stop.Plant → LeftAhead P.Plant (adding w dumps.now).turn.effects plant.old plant.new) }
        ensures stays { StaysQuiet P.Plant plant.old plant.new }
        ensures cause { HasCauseAt Stop.Plant (P.view plant.old).faults (P.view plant.new).faults result }
        ensures never { result ≢ Err Stop.Cell }
    {
        let mut full = false;
        for dump in dumps {
            put_found(lines, dump)?;
            let now = self.add_if(alloc, plant, lines, dump, full)?;
            full = now;
        }
        Ok(())
    }

    /// Tells found dumps, and adds those that may be where that is asked for.
    fn tell_dumps<P: Plant>(
        &mut self,
        alloc: Global,
        plant: &mut P,
        lines: &mut Out,
        dbadd: bool,
        dumps: &[DumpRecord],
    ) -> Result<(), Stop>
        requires { P.sound plant.old }
        ensures sound { OnOk result (P.sound plant.new) }
        ensures unfailed { result ≢ Err Stop.Plant → P.sound plant.new }
        ensures stepped { P.tells → (w : World) → FitsPlant P.Plant w plant.old self.old → OnOk result (Stepped P.Plant w (dumps_turn w dbadd dumps.now) plant.old plant.new self.new lines.old lines.new) }
        ensures leaves { P.tells → (w : World) → FitsPlant P.Plant w plant.old self.old → Leaves P.Plant (dumps_turn w dbadd dumps.now).effects plant.old plant.new }
        ensures stopped { P.tells → (w : World) → FitsPlant P.Plant w plant.old self.old → OnErr result (result ≢ Err Stop.Plant → LeftAhead P.Plant (dumps_turn w dbadd dumps.now).effects plant.old plant.new) }
        ensures stays { StaysQuiet P.Plant plant.old plant.new }
        ensures cause { HasCauseAt Stop.Plant (P.view plant.old).faults (P.view plant.new).faults result }
        ensures never { result ≢ Err Stop.Cell }
    {
        if dbadd {
            self.add_all(alloc, plant, lines, dumps)
        } else {
            put_dumps(lines, dumps)?;
            Ok(())
        }
    }

    /// Tells what was found over tapes that were scanned, and adds the dumps that may be where that is asked for.
    fn tell_found<P: Plant>(
        &mut self,
        alloc: Global,
        plant: &mut P,
        dbadd: bool,
        tapes: &[Sections],
        found: &Found,
    ) -> Result<Reply, Stop>
        requires { P.sound plant.old }
        ensures sound { OnOk result (P.sound plant.new) }
        ensures unfailed { result ≢ Err Stop.Plant → P.sound plant.new }
        ensures stepped { P.tells → (w : World) → FitsPlant P.Plant w plant.old self.old → IfOk result (λ reply. (lines : AnyList ℕ) × Stepped P.Plant w (dumps_turn w dbadd found.now.whole) plant.old plant.new self.new (flat_map stopped_line tapes.now) lines × (reply.text ≡ lines ++ (flat_map left_line found.now.parts ++ ok_line))) }
        ensures leaves { P.tells → (w : World) → FitsPlant P.Plant w plant.old self.old → Leaves P.Plant (dumps_turn w dbadd found.now.whole).effects plant.old plant.new }
        ensures stopped { P.tells → (w : World) → FitsPlant P.Plant w plant.old self.old → OnErr result (result ≢ Err Stop.Plant → LeftAhead P.Plant (dumps_turn w dbadd found.now.whole).effects plant.old plant.new) }
        ensures stays { StaysQuiet P.Plant plant.old plant.new }
        ensures cause { HasCauseAt Stop.Plant (P.view plant.old).faults (P.view plant.new).faults result }
        ensures never { result ≢ Err Stop.Cell }
    {
        let mut lines = Out::new(alloc);
        put_stops(&mut lines, tapes)?;
        self.tell_dumps(alloc, plant, &mut lines, dbadd, found.whole.as_slice())?;
        Ok(with_parts(lines, found.parts.as_slice())?)
    }

    /// Scans the tapes of a coordinator that are here.
    fn scan_port<P: Plant>(
        &mut self,
        alloc: Global,
        plant: &mut P,
        dbadd: bool,
        port: &Port,
    ) -> Result<Reply, Stop>
        requires { P.sound plant.old }
        ensures sound { OnOk result (P.sound plant.new) }
        ensures unfailed { result ≢ Err Stop.Plant → P.sound plant.new }
        ensures turned { P.tells → (w : World) → FitsPlant P.Plant w plant.old self.old → IfOk result (λ reply. TurnedPlant P.Plant w (scan_turn w dbadd (Ok port.now)) plant.old plant.new self.new reply) }
        ensures leaves { P.tells → (w : World) → FitsPlant P.Plant w plant.old self.old → Leaves P.Plant (scan_turn w dbadd (Ok port.now)).effects plant.old plant.new }
        ensures stopped { P.tells → (w : World) → FitsPlant P.Plant w plant.old self.old → OnErr result (result ≢ Err Stop.Plant → LeftAhead P.Plant (scan_turn w dbadd (Ok port.now)).effects plant.old plant.new) }
        ensures stays { StaysQuiet P.Plant plant.old plant.new }
        ensures cause { HasCauseAt Stop.Plant (P.view plant.old).faults (P.view plant.new).faults result }
        ensures never { result ≢ Err Stop.Cell }
    {
        let slots = slots_here(alloc, plant, port)?;
        let scanned = scan_slots(alloc, plant, slots.as_slice());
        drop(slots);
        let tapes = scanned?;
        match found_in(alloc, tapes.as_slice()) {
            Ok(found) => {
                let told = self.tell_found(alloc, plant, dbadd, tapes.as_slice(), &found);
                drop(found);
                drop(tapes);
                told
            }
            Err(_) => {
                drop(tapes);
                Err(Stop::Memory)
            }
        }
    }

    /// `scantape`.
    pub(crate) fn scan<P: Plant>(
        &mut self,
        alloc: Global,
        plant: &mut P,
        dbadd: bool,
        offset: u16,
    ) -> Result<Reply, Stop>
        requires { P.sound plant.old }
        ensures sound { OnOk result (P.sound plant.new) }
        ensures unfailed { result ≢ Err Stop.Plant → P.sound plant.new }
        ensures turned { P.tells → (w : World) → FitsPlant P.Plant w plant.old self.old → IfOk result (λ reply. TurnedPlant P.Plant w (scan_turn w dbadd (port_of w.setting.config (after w.log).hosts offset)) plant.old plant.new self.new reply) }
        ensures leaves { P.tells → (w : World) → FitsPlant P.Plant w plant.old self.old → Leaves P.Plant (scan_turn w dbadd (port_of w.setting.config (after w.log).hosts offset)).effects plant.old plant.new }
        ensures stopped { P.tells → (w : World) → FitsPlant P.Plant w plant.old self.old → OnErr result (result ≢ Err Stop.Plant → LeftAhead P.Plant (scan_turn w dbadd (port_of w.setting.config (after w.log).hosts offset)).effects plant.old plant.new) }
        ensures stays { StaysQuiet P.Plant plant.old plant.new }
        ensures cause { HasCauseAt Stop.Plant (P.view plant.old).faults (P.view plant.new).faults result }
        ensures never { result ≢ Err Stop.Cell }
    {
        match port_of(alloc, &self.config, self.budb.hosts(), offset)? {
            Ok(port) => self.scan_port(alloc, plant, dbadd, &port),
            Err(text) => Ok(Reply::new(text)),
        }
    }
}
