//! The commands on labels.

ghost use Rattle.std.specs.Prelude.{◌≡◌, ◌≢◌, [], ◌∷◌, ℕ, Some, Ok, Err, MatchOption, IfOk, OnOk, OnErr, IsTrue};
ghost use Rattle.std.specs.List.{list_any};
ghost use Rattle.std.specs.Option.{unwrap_or};
ghost use Rattle.bk_text.specs.Alphabets.{IsTapeName};
ghost use Rattle.byte_formats.specs.Forms.{IsMaybe};
ghost use Rattle.crash_moments.specs.Moments.{HasCauseAt};
ghost use Rattle.plant_effects.specs.Runs.{Leaves, StaysQuiet};
ghost use Rattle.budb_changes.specs.declared.change.Change.TheVariants.{Take};
ghost use Rattle.budb_fold.specs.Database.{after, is_initial};
ghost use Rattle.backup_replies.specs.Labels.{labeled_lines};
ghost use Rattle.dump_courses.specs.Ahead.{LeftAhead};
ghost use Rattle.backup_session.specs.Worlds.{World};
ghost use Rattle.backup_session.specs.Tapes.{slot_of, permanent_of, new_label, taken, labeled, label_turn, read_turn, tape_turn};

use crate::labels::label_of;
use crate::reply::Reply;
use crate::session::Session;
use crate::stops::Stop;
use crate::tapes::{read_label, slot_of, write_label};
use backup_replies::{Refusal, labeled_lines, refused_number};
use backup_words::TapeCommand;
use bk_text::{Bytes, List, TapeName};
use budb::CommitFault;
use budb_journal::{Change, DumpRecord};
use plant_core::Plant;
use std::alloc::{AllocError, Global};
use tape_frames::{Label, LabelFields};

/// A name, or nothing.
fn name_or_none(alloc: Global, name: &Option<TapeName>) -> Result<Bytes, AllocError>
    ensures text { IfOk result (λ text. text ≡ unwrap_or name.now []) }
    ensures form { IfOk result (IsMaybe IsTapeName) }
{
    match name {
        None => Ok(Bytes::new(alloc)),
        Some(name) => Bytes::from_slice(alloc, name.bytes()),
    }
}

/// The permanent name of a label, or nothing.
fn permanent_of(alloc: Global, label: &Option<Label>) -> Result<Bytes, AllocError>
    ensures text { IfOk result (λ text. text ≡ permanent_of label.now) }
    ensures form { IfOk result (IsMaybe IsTapeName) }
{
    match label {
        None => Ok(Bytes::new(alloc)),
        Some(label) => label.fields().permanent.copy(),
    }
}

/// The permanent name that a tape gets: the given one, or that of its old label.
fn permanent_for(
    alloc: Global,
    old: &Option<Label>,
    pname: &Option<TapeName>,
) -> Result<Bytes, AllocError>
    ensures text { IfOk result (λ text. text ≡ unwrap_or pname.now (permanent_of old.now)) }
    ensures form { IfOk result (IsMaybe IsTapeName) }
{
    match pname {
        None => permanent_of(alloc, old),
        Some(name) => Bytes::from_slice(alloc, name.bytes()),
    }
}

/// The new label of a tape, which carries no dump.
fn new_label(
    alloc: Global,
    old: &Option<Label>,
    name: &Option<TapeName>,
    pname: &Option<TapeName>,
) -> Result<Label, AllocError>
    ensures { IfOk result (λ label. label ≡ new_label old.now name.now pname.now) }
{
    let afs = name_or_none(alloc, name)?;
    let permanent = permanent_for(alloc, old, pname)?;
    Ok(Label::new(LabelFields {
        initial: 0,
        tape: 0,
        afs,
        permanent,
    }))
}

/// The new label of a tape, and the reply that tells of it.
fn label_and_reply(
    alloc: Global,
    old: &Option<Label>,
    name: &Option<TapeName>,
    pname: &Option<TapeName>,
    slot: u32,
) -> Result<(Label, Bytes), AllocError>
    ensures label { IfOk result (λ made. made.0 ≡ new_label old.now name.now pname.now) }
    ensures done { IfOk result (λ made. made.1 ≡ labeled_lines made.0.afs made.0.permanent slot) }
{
    let label = new_label(alloc, old, name, pname)?;
    let fields = label.fields();
    let done = labeled_lines(
        alloc,
        fields.afs.as_slice(),
        fields.permanent.as_slice(),
        slot,
    )?;
    Ok((label, done))
}

/// Whether some listed dump has this initial id.
fn any_of_initial(listed: &[DumpRecord], initial: u32) -> bool
    ensures { result ≡ list_any (is_initial initial) listed.now }
{
    for dump in listed {
        if dump.fields().initial == initial {
            return true;
        }
    }
    false
}

/// The initial id of a label, where a listed dump has it.
fn taken(listed: &[DumpRecord], label: &Option<Label>) -> Option<u32>
    ensures { MatchOption result (taken listed.now label.now ≡ []) (λ initial. taken listed.now label.now ≡ Take initial ∷ []) }
{
    match label {
        None => None,
        Some(label) => {
            let initial = label.fields().initial;
            if any_of_initial(listed, initial) {
                Some(initial)
            } else {
                None
            }
        }
    }
}

/// The change that forgets a dump set.
fn one_take(alloc: Global, initial: u32) -> Result<List<Change>, AllocError>
    ensures { IfOk result (λ changes. changes ≡ Take initial ∷ []) }
{
    let mut changes = List::new(alloc);
    changes.push(Change::Take { initial })?;
    Ok(changes)
}

impl Session {
    ghost use Rattle.backup_session.specs.Fitting.{FitsPlant, TurnedPlant};

    /// Labels a tape whose dumps are none that are listed.
    fn label_only<P: Plant>(
        &mut self,
        plant: &mut P,
        slot: u32,
        label: &Label,
        done: Bytes,
    ) -> Result<Reply, Stop>
        requires sound { P.sound plant.old }
        requires here { IsTrue ((P.view plant.old).present slot) }
        requires reply { done ≡ labeled_lines label.now.afs label.now.permanent slot }
        ensures sound { OnOk result (P.sound plant.new) }
        ensures unfailed { result ≢ Err Stop.Plant → P.sound plant.new }
        ensures turned { P.tells → (w : World) → FitsPlant P.Plant w plant.old self.old → IfOk result (λ reply. TurnedPlant P.Plant w (labeled w slot label.now []) plant.old plant.new self.new reply) }
        ensures leaves { P.tells → (w : World) → FitsPlant P.Plant w plant.old self.old → Leaves P.Plant (labeled w slot label.now []).effects plant.old plant.new }
        ensures stopped { P.tells → (w : World) → FitsPlant P.Plant w plant.old self.old → OnErr result (result ≢ Err Stop.Plant → LeftAhead P.Plant (labeled w slot label.now []).effects plant.old plant.new) }
        ensures stays { StaysQuiet P.Plant plant.old plant.new }
        ensures cause { HasCauseAt Stop.Plant (P.view plant.old).faults (P.view plant.new).faults result }
        ensures never { result ≢ Err Stop.Cell }
    {
        write_label(plant, slot, label)?;
        Ok(Reply::new(done))
    }

    /// Forgets the dump set of a tape by one commit, and labels the tape then.
    fn take_and_label<P: Plant>(
        &mut self,
        alloc: Global,
        plant: &mut P,
        slot: u32,
        label: &Label,
        initial: u32,
        done: Bytes,
    ) -> Result<Reply, Stop>
        requires sound { P.sound plant.old }
        requires here { IsTrue ((P.view plant.old).present slot) }
        requires reply { done ≡ labeled_lines label.now.afs label.now.permanent slot }
        ensures sound { OnOk result (P.sound plant.new) }
        ensures unfailed { result ≢ Err Stop.Plant → P.sound plant.new }
        ensures turned { P.tells → (w : World) → FitsPlant P.Plant w plant.old self.old → IfOk result (λ reply. TurnedPlant P.Plant w (labeled w slot label.now (Take initial ∷ [])) plant.old plant.new self.new reply) }
        ensures leaves { P.tells → (w : World) → FitsPlant P.Plant w plant.old self.old → Leaves P.Plant (labeled w slot label.now (Take initial ∷ [])).effects plant.old plant.new }
        ensures stopped { P.tells → (w : World) → FitsPlant P.Plant w plant.old self.old → OnErr result (result ≢ Err Stop.Plant → LeftAhead P.Plant (labeled w slot label.now (Take initial ∷ [])).effects plant.old plant.new) }
        ensures stays { StaysQuiet P.Plant plant.old plant.new }
        ensures cause { HasCauseAt Stop.Plant (P.view plant.old).faults (P.view plant.new).faults result }
        ensures never { result ≢ Err Stop.Cell }
    {
        let changes = one_take(alloc, initial)?;
        match self.budb.commit(plant, changes.as_slice()) {
            Ok(()) => {
                write_label(plant, slot, label)?;
                Ok(Reply::new(done))
            }
            Err(CommitFault::LogFull { length }) => {
                Ok(Reply::new(refused_number(alloc, Refusal::LogFull, length)?))
            }
            Err(CommitFault::Failed) => Err(Stop::Plant),
            Err(CommitFault::Memory) => Err(Stop::Memory),
        }
    }

    /// Labels the tape in a slot that is here. A listed dump set of its old label is forgotten before it is cut.
    fn label_tape<P: Plant>(
        &mut self,
        alloc: Global,
        plant: &mut P,
        slot: u32,
        name: &Option<TapeName>,
        pname: &Option<TapeName>,
    ) -> Result<Reply, Stop>
        requires sound { P.sound plant.old }
        requires here { IsTrue ((P.view plant.old).present slot) }
        ensures sound { OnOk result (P.sound plant.new) }
        ensures unfailed { result ≢ Err Stop.Plant → P.sound plant.new }
        ensures turned { P.tells → (w : World) → FitsPlant P.Plant w plant.old self.old → IfOk result (λ reply. TurnedPlant P.Plant w (label_turn w name.now pname.now (Ok slot)) plant.old plant.new self.new reply) }
        ensures leaves { P.tells → (w : World) → FitsPlant P.Plant w plant.old self.old → Leaves P.Plant (label_turn w name.now pname.now (Ok slot)).effects plant.old plant.new }
        ensures stopped { P.tells → (w : World) → FitsPlant P.Plant w plant.old self.old → OnErr result (result ≢ Err Stop.Plant → LeftAhead P.Plant (label_turn w name.now pname.now (Ok slot)).effects plant.old plant.new) }
        ensures stays { StaysQuiet P.Plant plant.old plant.new }
        ensures cause { HasCauseAt Stop.Plant (P.view plant.old).faults (P.view plant.new).faults result }
        ensures never { result ≢ Err Stop.Cell }
    {
        let old = label_of(alloc, plant, slot)?;
        let made = label_and_reply(alloc, &old, name, pname, slot);
        let set = taken(self.budb.database().listed.as_slice(), &old);
        drop(old);
        let (label, done) = made?;
        match set {
            None => {
                let labeled = self.label_only(plant, slot, &label, done);
                drop(label);
                labeled
            }
            Some(initial) => {
                let labeled = self.take_and_label(alloc, plant, slot, &label, initial, done);
                drop(label);
                labeled
            }
        }
    }

    /// `labeltape`.
    fn label<P: Plant>(
        &mut self,
        alloc: Global,
        plant: &mut P,
        name: &Option<TapeName>,
        pname: &Option<TapeName>,
        offset: u16,
        slot: Option<u32>,
    ) -> Result<Reply, Stop>
        requires { P.sound plant.old }
        ensures sound { OnOk result (P.sound plant.new) }
        ensures unfailed { result ≢ Err Stop.Plant → P.sound plant.new }
        ensures turned { P.tells → (w : World) → FitsPlant P.Plant w plant.old self.old → IfOk result (λ reply. TurnedPlant P.Plant w (label_turn w name.now pname.now (slot_of w.setting (after w.log).hosts offset slot)) plant.old plant.new self.new reply) }
        ensures leaves { P.tells → (w : World) → FitsPlant P.Plant w plant.old self.old → Leaves P.Plant (label_turn w name.now pname.now (slot_of w.setting (after w.log).hosts offset slot)).effects plant.old plant.new }
        ensures stopped { P.tells → (w : World) → FitsPlant P.Plant w plant.old self.old → OnErr result (result ≢ Err Stop.Plant → LeftAhead P.Plant (label_turn w name.now pname.now (slot_of w.setting (after w.log).hosts offset slot)).effects plant.old plant.new) }
        ensures stays { StaysQuiet P.Plant plant.old plant.new }
        ensures cause { HasCauseAt Stop.Plant (P.view plant.old).faults (P.view plant.new).faults result }
        ensures never { result ≢ Err Stop.Cell }
    {
        match slot_of(alloc, plant, &self.config, self.budb.hosts(), offset, slot)? {
            Ok(slot) => self.label_tape(alloc, plant, slot, name, pname),
            Err(text) => Ok(Reply::new(text)),
        }
    }

    /// `readlabel`.
    fn read<P: Plant>(
        &self,
        alloc: Global,
        plant: &mut P,
        offset: u16,
        slot: Option<u32>,
    ) -> Result<Reply, Stop>
        requires { P.sound plant.old }
        ensures sound { OnOk result (P.sound plant.new) }
        ensures unfailed { result ≢ Err Stop.Plant → P.sound plant.new }
        ensures turned { P.tells → (w : World) → FitsPlant P.Plant w plant.old self.now → IfOk result (λ reply. TurnedPlant P.Plant w (read_turn w (slot_of w.setting (after w.log).hosts offset slot)) plant.old plant.new self.now reply) }
        ensures leaves { P.tells → (w : World) → FitsPlant P.Plant w plant.old self.now → Leaves P.Plant (read_turn w (slot_of w.setting (after w.log).hosts offset slot)).effects plant.old plant.new }
        ensures stopped { P.tells → (w : World) → FitsPlant P.Plant w plant.old self.now → OnErr result (result ≢ Err Stop.Plant → LeftAhead P.Plant (read_turn w (slot_of w.setting (after w.log).hosts offset slot)).effects plant.old plant.new) }
        ensures stays { StaysQuiet P.Plant plant.old plant.new }
        ensures cause { HasCauseAt Stop.Plant (P.view plant.old).faults (P.view plant.new).faults result }
        ensures never { result ≢ Err Stop.Cell }
    {
        match slot_of(alloc, plant, &self.config, self.budb.hosts(), offset, slot)? {
            Ok(slot) => read_label(alloc, plant, slot),
            Err(text) => Ok(Reply::new(text)),
        }
    }

    /// A command on tapes, at the session's time.
    pub(crate) fn on_tape<P: Plant>(
        &mut self,
        alloc: Global,
        plant: &mut P,
        command: &TapeCommand,
    ) -> Result<Reply, Stop>
        requires { P.sound plant.old }
        ensures sound { OnOk result (P.sound plant.new) }
        ensures unfailed { result ≢ Err Stop.Plant → P.sound plant.new }
        ensures turned { P.tells → (w : World) → FitsPlant P.Plant w plant.old self.old → IfOk result (λ reply. TurnedPlant P.Plant w (tape_turn w command.now) plant.old plant.new self.new reply) }
        ensures leaves { P.tells → (w : World) → FitsPlant P.Plant w plant.old self.old → Leaves P.Plant (tape_turn w command.now).effects plant.old plant.new }
        ensures stopped { P.tells → (w : World) → FitsPlant P.Plant w plant.old self.old → OnErr result (result ≢ Err Stop.Plant → LeftAhead P.Plant (tape_turn w command.now).effects plant.old plant.new) }
        ensures stays { StaysQuiet P.Plant plant.old plant.new }
        ensures cause { HasCauseAt Stop.Plant (P.view plant.old).faults (P.view plant.new).faults result }
        ensures never { result ≢ Err Stop.Cell }
    {
        match command {
            TapeCommand::Labeltape {
                name,
                pname,
                portoffset,
                slot,
            } => self.label(alloc, plant, name, pname, *portoffset, *slot),
            TapeCommand::Readlabel { portoffset, slot } => self.read(
                alloc,
                plant,
                *portoffset,
                *slot,
            ),
            TapeCommand::Scantape { dbadd, portoffset } => {
                self.scan(alloc, plant, *dbadd, *portoffset)
            }
            TapeCommand::Savedb { portoffset } => self.save(alloc, plant, *portoffset),
            TapeCommand::Restoredb { portoffset } => self.back(alloc, plant, *portoffset),
        }
    }
}
