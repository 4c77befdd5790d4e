//! Groups: dumps are held to be made together, and the end of their group makes them.

ghost use Rattle.std.specs.Prelude.{◌≡◌, ◌≢◌, false, Some, Err, IfOk, OnOk, OnErr, IsSome};
ghost use Rattle.crash_moments.specs.Moments.{HasCauseAt};
ghost use Rattle.plant_effects.specs.Runs.{Leaves, StaysQuiet};
ghost use Rattle.dump_courses.specs.Ahead.{LeftAhead};
ghost use Rattle.dump_courses.specs.Scenes.{Scene, Finds};
ghost use Rattle.dump_commands.specs.Answers.{IsAnswered};
ghost use Rattle.backup_words.specs.FirstWords.{command_word};
ghost use Rattle.backup_words.specs.declared.command.Command.TheVariants.{Restore as RestoreAsked};
ghost use Rattle.backup_words.specs.declared.command.RestoreCommand.{RestoreCommand as AnyRestore};
ghost use Rattle.backup_replies.specs.declared.refusals.Refusal.TheVariants.{InGroup as InGroupRefusal};
ghost use Rattle.backup_replies.specs.Texts.{refused_word};
ghost use Rattle.group_commands.specs.Groups.{GroupView, hold, kill};
ghost use Rattle.group_commands.specs.Answers.{group_answer};
ghost use Rattle.backup_session.specs.Worlds.{World};
ghost use Rattle.backup_session.specs.Dumps.{scene_of};
ghost use Rattle.backup_session.specs.Groups.{left_open, ended_turn, group_in, in_group, group_alone, is_end, ends_group, LeavesGroups};

use crate::dumping::stop_of;
use crate::groups::Groups;
use crate::reply::Reply;
use crate::session::Session;
use crate::stops::Stop;
use backup_replies::{Refusal, ok_line, refused_word};
use backup_words::{Command, DumpCommand, GroupCommand};
use bk_text::Bytes;
use budb::Budb;
use cell_core::Cell;
use dump_courses::DumpStop;
use group_commands::{Ended, end_group, jobs_text};
use plant_core::Plant;
use std::alloc::{AllocError, Global};
use tape_config::Config;

/// Whether a command is the one that ends a group.
fn ends_group(command: &Command) -> bool
    ensures { result ≡ ends_group command.now }
{
    match command {
        Command::Group(GroupCommand::End) => true,
        Command::Group(GroupCommand::Together { .. }) => false,
        Command::Group(GroupCommand::Kill { .. }) => false,
        Command::Group(GroupCommand::Jobs) => false,
        Command::Database(_) => false,
        Command::Tape(_) => false,
        Command::Cell(_) => false,
        Command::Dump(_) => false,
        Command::Restore(_) => false,
    }
}

// ---- in a group

/// Refuses a command that a group doesn't take.
fn barred(alloc: Global, command: &Command) -> Result<Bytes, AllocError>
    ensures { IfOk result (λ text. text ≡ refused_word InGroupRefusal (command_word command.now)) }
{
    refused_word(alloc, Refusal::InGroup, command.word())
}

/// Holds a dump in the group that is open, or tells why it isn't held.
fn hold_in(alloc: Global, groups: &mut Groups, asked: &DumpCommand) -> Result<Bytes, AllocError>
    requires { IsSome groups.old.open }
    ensures { (w : World) (g : GroupView) → groups.old ≡ w.groups → w.groups.open ≡ Some g → IfOk result (LeavesGroups (left_open w (hold g asked.now)) groups.new) }
{
    match &mut groups.open {
        Some(group) => group.hold(alloc, asked),
        None => unreachable!(),
    }
}

/// Notes that a held dump of the group that is open is to be killed, or tells that it isn't one.
fn kill_in(alloc: Global, groups: &mut Groups, job: u32, after: u32) -> Result<Bytes, AllocError>
    requires { IsSome groups.old.open }
    ensures { (w : World) (g : GroupView) → groups.old ≡ w.groups → w.groups.open ≡ Some g → IfOk result (LeavesGroups (left_open w (kill g job after)) groups.new) }
{
    match &mut groups.open {
        Some(group) => group.kill(alloc, job, after),
        None => unreachable!(),
    }
}

/// A command on groups in front of the end of the group that is open: a kill is noted, and all others are refused.
fn group_line(alloc: Global, groups: &mut Groups, asked: &GroupCommand) -> Result<Bytes, AllocError>
    requires open { IsSome groups.old.open }
    requires goes_on { is_end asked.now ≡ false }
    ensures { (w : World) (g : GroupView) → groups.old ≡ w.groups → w.groups.open ≡ Some g → IfOk result (LeavesGroups (group_in w g asked.now) groups.new) }
{
    match asked {
        GroupCommand::Together { .. } => refused_word(alloc, Refusal::InGroup, b"together"),
        GroupCommand::Kill { job, after } => kill_in(alloc, groups, *job, *after),
        GroupCommand::End => unreachable!(),
        GroupCommand::Jobs => refused_word(alloc, Refusal::InGroup, b"jobs"),
    }
}

/// A line in front of the end of the group that is open.
fn line_of(alloc: Global, groups: &mut Groups, command: &Command) -> Result<Bytes, AllocError>
    requires open { IsSome groups.old.open }
    requires goes_on { ends_group command.now ≡ false }
    ensures { (w : World) (g : GroupView) → groups.old ≡ w.groups → w.groups.open ≡ Some g → IfOk result (LeavesGroups (in_group w g command.now) groups.new) }
{
    match command {
        Command::Dump(asked) => hold_in(alloc, groups, asked),
        Command::Group(asked) => group_line(alloc, groups, asked),
        Command::Database(_) => barred(alloc, command),
        Command::Tape(_) => barred(alloc, command),
        Command::Cell(_) => barred(alloc, command),
        Command::Restore(_) => barred(alloc, command),
    }
}

/// Makes the dumps that the group that is open holds.
fn end_in<P: Plant, C: Cell>(
    alloc: Global,
    config: &Config,
    budb: &mut Budb,
    plant: &mut P,
    cell: &mut C,
    time: u32,
    groups: &Groups,
) -> Result<Ended, DumpStop>
    requires sound { P.sound plant.old }
    requires nothing { budb.old.prepared ≡ None }
    requires open { IsSome groups.now.open }
    ensures sound { OnOk result (P.sound plant.new) }
    ensures unfailed { result ≢ Err DumpStop.Plant → P.sound plant.new }
    ensures nothing { budb.new.prepared ≡ None }
    ensures answered { P.tells → C.tells → (s : Scene) (g : GroupView) → Finds P.Plant C.Cell s config.now budb.old plant.old cell.old time → groups.now.open ≡ Some g → IfOk result (λ e. IsAnswered P.Plant s (group_answer s g).answer budb.new plant.old plant.new (record { text = e.text; time = e.time })) }
    ensures jobs { P.tells → C.tells → (s : Scene) (g : GroupView) → Finds P.Plant C.Cell s config.now budb.old plant.old cell.old time → groups.now.open ≡ Some g → IfOk result (λ e. e.jobs ≡ (group_answer s g).jobs) }
    ensures leaves { P.tells → C.tells → (s : Scene) (g : GroupView) → Finds P.Plant C.Cell s config.now budb.old plant.old cell.old time → groups.now.open ≡ Some g → Leaves P.Plant (group_answer s g).answer.effects plant.old plant.new }
    ensures stopped { P.tells → C.tells → (s : Scene) (g : GroupView) → Finds P.Plant C.Cell s config.now budb.old plant.old cell.old time → groups.now.open ≡ Some g → OnErr result (result ≢ Err DumpStop.Plant → LeftAhead P.Plant (group_answer s g).answer.effects plant.old plant.new) }
    ensures list { C.tells → C.list cell.new ≡ C.list cell.old }
    ensures stays { StaysQuiet P.Plant plant.old plant.new }
    ensures plant_cause { HasCauseAt DumpStop.Plant (P.view plant.old).faults (P.view plant.new).faults result }
    ensures cell_cause { HasCauseAt DumpStop.Cell (C.faults cell.old) (C.faults cell.new) result }
{
    match &groups.open {
        Some(group) => end_group(alloc, config, budb, plant, cell, time, group),
        None => unreachable!(),
    }
}

// ---- outside of one

/// A command on groups, where none is open.
fn line_alone(
    alloc: Global,
    groups: &mut Groups,
    command: &GroupCommand,
) -> Result<Bytes, AllocError>
    ensures { (w : World) → groups.old ≡ w.groups → IfOk result (LeavesGroups (group_alone w command.now) groups.new) }
{
    match command {
        GroupCommand::Together { schedule } => {
            let text = ok_line(alloc)?;
            groups.begin(alloc, *schedule);
            Ok(text)
        }
        GroupCommand::Kill { .. } => refused_word(alloc, Refusal::NoGroup, b"kill"),
        GroupCommand::End => refused_word(alloc, Refusal::NoGroup, b"end"),
        GroupCommand::Jobs => jobs_text(alloc, groups.jobs.as_slice()),
    }
}

impl Session {
    ghost use Rattle.backup_session.specs.Fitting.{Stands, TurnDone, SomeTurnDone, SomeRestore, OnTheWay, OnGroups};

    /// A command on groups, where none is open.
    pub(crate) fn on_groups_alone(
        &mut self,
        alloc: Global,
        asked: &GroupCommand,
    ) -> Result<Reply, Stop>
        ensures turned { (w : World) → self.old.groups ≡ w.groups → IfOk result (λ reply. OnGroups (group_alone w asked.now) self.old self.new reply) }
        ensures memory { OnErr result (result ≡ Err Stop.Memory) }
    {
        let text = line_alone(alloc, &mut self.groups, asked)?;
        Ok(Reply::new(text))
    }

    /// A command in front of the end of the group that is open.
    fn on_group(&mut self, alloc: Global, command: &Command) -> Result<Reply, Stop>
        requires open { IsSome self.old.groups.open }
        requires goes_on { ends_group command.now ≡ false }
        ensures turned { (w : World) (g : GroupView) → self.old.groups ≡ w.groups → w.groups.open ≡ Some g → IfOk result (λ reply. OnGroups (in_group w g command.now) self.old self.new reply) }
        ensures memory { OnErr result (result ≡ Err Stop.Memory) }
    {
        let text = line_of(alloc, &mut self.groups, command)?;
        Ok(Reply::new(text))
    }

    /// Ends the group that is open, at the session's time, which takes in each id that is begun.
    fn end_open<P: Plant, C: Cell>(
        &mut self,
        alloc: Global,
        plant: &mut P,
        cell: &mut C,
    ) -> Result<Reply, Stop>
        requires sound { P.sound plant.old }
        requires open { IsSome self.old.groups.open }
        ensures sound { OnOk result (P.sound plant.new) }
        ensures unfailed { result ≢ Err Stop.Plant → P.sound plant.new }
        ensures turned { P.tells → C.tells → (w : World) (g : GroupView) → Stands P.Plant C.Cell w plant.old cell.old self.old → w.groups.open ≡ Some g → IfOk result (λ reply. TurnDone P.Plant C.Cell w (ended_turn w (group_answer (scene_of w) g)) plant.old plant.new cell.new self.new reply) }
        ensures leaves { P.tells → C.tells → (w : World) (g : GroupView) → Stands P.Plant C.Cell w plant.old cell.old self.old → w.groups.open ≡ Some g → Leaves P.Plant (group_answer (scene_of w) g).answer.effects plant.old plant.new }
        ensures stopped { P.tells → C.tells → (w : World) (g : GroupView) → Stands P.Plant C.Cell w plant.old cell.old self.old → w.groups.open ≡ Some g → OnErr result (result ≢ Err Stop.Plant → LeftAhead P.Plant (group_answer (scene_of w) g).answer.effects plant.old plant.new) }
        ensures list { C.tells → C.list cell.new ≡ C.list cell.old }
        ensures stays { StaysQuiet P.Plant plant.old plant.new }
        ensures plant_cause { HasCauseAt Stop.Plant (P.view plant.old).faults (P.view plant.new).faults result }
        ensures cell_cause { HasCauseAt Stop.Cell (C.faults cell.old) (C.faults cell.new) result }
    {
        match end_in(
            alloc,
            &self.config,
            &mut self.budb,
            plant,
            cell,
            self.time,
            &self.groups,
        ) {
            Ok(ended) => {
                self.time = ended.time;
                self.groups.end(ended.jobs);
                Ok(Reply::new(ended.text))
            }
            Err(stop) => Err(stop_of(stop)),
        }
    }

    /// A command in the group that is open, at the session's time: a dump is held, a kill is noted, the end makes the dumps, and
    /// all others are refused.
    pub(crate) fn run_in_group<P: Plant, C: Cell>(
        &mut self,
        alloc: Global,
        plant: &mut P,
        cell: &mut C,
        command: &Command,
    ) -> Result<Reply, Stop>
        requires sound { P.sound plant.old }
        requires open { IsSome self.old.groups.open }
        ensures sound { OnOk result (P.sound plant.new) }
        ensures unfailed { result ≢ Err Stop.Plant → P.sound plant.new }
        ensures turned { P.tells → C.tells → (w : World) (g : GroupView) → Stands P.Plant C.Cell w plant.old cell.old self.old → w.groups.open ≡ Some g → IfOk result (λ reply. TurnDone P.Plant C.Cell w (in_group w g command.now) plant.old plant.new cell.new self.new reply) }
        ensures leaves { P.tells → C.tells → (w : World) (g : GroupView) → Stands P.Plant C.Cell w plant.old cell.old self.old → w.groups.open ≡ Some g → Leaves P.Plant (in_group w g command.now).effects plant.old plant.new }
        ensures stopped { P.tells → C.tells → (w : World) (g : GroupView) → Stands P.Plant C.Cell w plant.old cell.old self.old → w.groups.open ≡ Some g → OnErr result (result ≢ Err Stop.Plant → LeftAhead P.Plant (in_group w g command.now).effects plant.old plant.new) }
        ensures list { C.tells → C.list cell.new ≡ C.list cell.old }
        ensures restores { (asked : AnyRestore) → command.now ≡ RestoreAsked asked → plant.new ≡ plant.old }
        ensures stays { StaysQuiet P.Plant plant.old plant.new }
        ensures plant_cause { HasCauseAt Stop.Plant (P.view plant.old).faults (P.view plant.new).faults result }
        ensures cell_cause { HasCauseAt Stop.Cell (C.faults cell.old) (C.faults cell.new) result }
    {
        if ends_group(command) {
            self.end_open(alloc, plant, cell)
        } else {
            self.on_group(alloc, command)
        }
    }
}
