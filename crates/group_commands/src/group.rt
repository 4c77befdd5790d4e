//! A group that is open.

ghost use Rattle.std.specs.Prelude.{◌≡◌, ◌&&◌, nat_le, None, IfOk, OnErr, length};
ghost use Rattle.std.specs.List.{list_any};
ghost use Rattle.group_commands.specs.Groups.{IsGroup, opened, is_to_port, barred_option, room_refusal, hold_refusal, hold, kill};

use backup_replies::{Refusal, held_line, ok_line, refused_number, refused_word};
use backup_words::DumpCommand;
use bk_text::{Bytes, List};
use job_pool::Kill;
use std::alloc::{AllocError, Global};
use std::marker::Model;

/// A group that is open: the dumps that it holds, in order, and their kills. No two of the dumps go to one port. Contracts see it as its
/// fields.
pub struct Group {
    schedule: u32,
    held: List<DumpCommand>,
    kills: List<Kill>,
}

/// It is written out, so that who lets a group go calls it: derived, it would be proved once more at each such place.
impl Drop for Group {
    fn drop(self) {
        let Group {
            schedule,
            held,
            kills,
        } = self;
    }
}

impl Model for Group {
    ghost use Rattle.group_commands.specs.Groups.{GroupView, IsGroup};

    ghost Value = { GroupView };

    ghost view = { λ a. record { schedule = a.schedule; held = a.held; kills = a.kills } };

    ghost invariant = { λ a. IsGroup (record { schedule = a.schedule; held = a.held; kills = a.kills }) };
}

/// Whether one of these dumps goes to a port.
fn has_port(held: &[DumpCommand], offset: u16) -> bool
    ensures { result ≡ list_any (is_to_port offset) held.now }
{
    held.iter().any(|one| one.offset == offset)
}

/// Whether one of these dumps has a number, which counts from 1.
fn has_number(held: &[DumpCommand], job: u32) -> bool
    ensures { result ≡ (nat_le 1 job && nat_le job (length held.now)) }
{
    1 <= job && job as usize <= held.len()
}

/// The same command once more.
fn copy_of(command: &DumpCommand) -> Result<DumpCommand, AllocError>
    ensures { IfOk result (λ copy. copy ≡ command.now) }
{
    let set = command.set.clone()?;
    let level = command.level.clone()?;
    Ok(DumpCommand {
        set,
        level,
        offset: command.offset,
        append: command.append,
        trial: command.trial,
    })
}

impl Group {
    /// Opens a group, whose dumps take turns by a schedule. It takes no memory.
    pub fn open(alloc: Global, schedule: u32) -> Group
        ensures { result ≡ opened schedule }
    {
        Group {
            schedule,
            held: List::new(alloc),
            kills: List::new(alloc),
        }
    }

    /// By which schedule its dumps take turns.
    pub fn schedule(&self) -> u32
        ensures { result ≡ self.now.schedule }
    {
        self.schedule
    }

    /// The dumps that it holds, in order: at most sixteen, each to tapes of its own and no trial, and no two of them to one port.
    pub fn held(&self) -> &[DumpCommand]
        ensures held { result.now ≡ self.now.held }
        ensures form { IsGroup self.now }
    {
        self.held.as_slice()
    }

    /// Its kills in order, each of a held dump by its place, which counts from 0.
    pub fn kills(&self) -> &[Kill]
        ensures { result.now ≡ self.now.kills }
    {
        self.kills.as_slice()
    }

    /// Why a dump with no option that a group doesn't take isn't held: its port is taken, or the group is full.
    fn room_refusal(
        &self,
        alloc: Global,
        command: &DumpCommand,
    ) -> Result<Option<Bytes>, AllocError>
        ensures { IfOk result (λ text. text ≡ room_refusal self.now command.now) }
    {
        let offset = command.offset;
        if has_port(self.held.as_slice(), offset) {
            let text = refused_number(alloc, Refusal::PortBusy, offset as u64)?;
            return Ok(Some(text));
        }
        if self.held.len() >= 16 {
            let text = refused_number(alloc, Refusal::GroupFull, 16)?;
            return Ok(Some(text));
        }
        Ok(None)
    }

    /// Why a dump isn't held, if it isn't.
    fn refusal(&self, alloc: Global, command: &DumpCommand) -> Result<Option<Bytes>, AllocError>
        ensures { IfOk result (λ text. text ≡ hold_refusal self.now command.now (barred_option command.now)) }
    {
        if command.append {
            let text = refused_word(alloc, Refusal::BadOption, b"-append")?;
            return Ok(Some(text));
        }
        if command.trial {
            let text = refused_word(alloc, Refusal::BadOption, b"-n")?;
            return Ok(Some(text));
        }
        self.room_refusal(alloc, command)
    }

    /// Holds a dump that nothing refuses. Where memory is refused the group is as it was.
    fn add(&mut self, alloc: Global, command: &DumpCommand) -> Result<Bytes, AllocError>
        requires { hold_refusal self.old command.now (barred_option command.now) ≡ None }
        ensures told { IfOk result (λ text. record { group = self.new; text = text } ≡ hold self.old command.now) }
        ensures same { OnErr result (self.new ≡ self.old) }
    {
        let text = held_line(alloc, self.held.len() as u64 + 1)?;
        let copy = copy_of(command)?;
        self.held.push(copy)?;
        Ok(text)
    }

    /// `dump` in a group: holds the dump, and counts it from 1; or tells what it is refused by. Where memory is refused the group is as
    /// it was.
    pub fn hold(&mut self, alloc: Global, command: &DumpCommand) -> Result<Bytes, AllocError>
        ensures told { IfOk result (λ text. record { group = self.new; text = text } ≡ hold self.old command.now) }
        ensures same { OnErr result (self.new ≡ self.old) }
    {
        match self.refusal(alloc, command)? {
            Some(text) => Ok(text),
            None => self.add(alloc, command),
        }
    }

    /// `kill`: a held dump, which counts from 1, is killed at its first turn behind so many of its steps; or tells that there is none of
    /// this number. Where memory is refused the group is as it was.
    pub fn kill(&mut self, alloc: Global, job: u32, after: u32) -> Result<Bytes, AllocError>
        ensures told { IfOk result (λ text. record { group = self.new; text = text } ≡ kill self.old job after) }
        ensures same { OnErr result (self.new ≡ self.old) }
    {
        if has_number(self.held.as_slice(), job) {
            let text = ok_line(alloc)?;
            self.kills.push(Kill {
                job: job - 1,
                after,
            })?;
            Ok(text)
        } else {
            refused_word(alloc, Refusal::BadValue, b"-job")
        }
    }
}
