//! What has to be there for a dump: its volume set, its level and its port.

ghost use Rattle.std.specs.Prelude.{◌≡◌, IfOk};
ghost use Rattle.volume_sets.specs.Sets.{has_set};
ghost use Rattle.budb_fold.specs.Database.{has_port};
ghost use Rattle.dump_commands.specs.Orders.{port_of, asked_port};

use backup_replies::{Refusal, refused_number, refused_word};
use backup_words::DumpCommand;
use bk_text::{Bytes, SetName};
use budb_journal::{Database, HostPort};
use std::alloc::{AllocError, Global};
use tape_config::{Config, Port};
use volume_sets::Sets;

/// Whether there is a volume set of this name.
fn has_set(sets: &Sets, name: &SetName) -> bool
    ensures { result ≡ has_set name.now sets.now }
{
    sets.entries_of(name).is_some()
}

/// Whether some tape host stands at a port.
fn any_at_port(hosts: &[HostPort], port: u16) -> bool
    ensures { result ≡ has_port hosts.now port }
{
    for host in hosts {
        if host.port == port {
            return true;
        }
    }
    false
}

/// The port of this offset, or the reply that refuses it.
fn port_of(
    alloc: Global,
    config: &Config,
    hosts: &[HostPort],
    offset: u16,
) -> Result<Result<Port, Bytes>, AllocError>
    ensures { IfOk result (λ found. found ≡ port_of config.now hosts.now offset) }
{
    if !any_at_port(hosts, offset) {
        return Ok(Err(refused_number(alloc, Refusal::NoSuchPort, offset as u64)?));
    }
    match config.port(offset) {
        None => Ok(Err(refused_number(alloc, Refusal::NoSuchPort, offset as u64)?)),
        Some(port) => Ok(Ok(port)),
    }
}

/// The port to whose tapes a command dumps, or the reply that refuses the command: its volume set, then its level, then its
/// port isn't there.
pub(crate) fn asked_port(
    alloc: Global,
    config: &Config,
    database: &Database,
    command: &DumpCommand,
) -> Result<Result<Port, Bytes>, AllocError>
    ensures { IfOk result (λ found. found ≡ asked_port config.now database.now command.now) }
{
    if !has_set(&database.sets, &command.set) {
        return Ok(Err(refused_word(alloc, Refusal::NoSuchSet, command.set.bytes())?));
    }
    if !database.levels.has(&command.level) {
        return Ok(Err(refused_word(alloc, Refusal::NoSuchLevel, command.level.bytes())?));
    }
    port_of(alloc, config, database.hosts.as_slice(), command.offset)
}
