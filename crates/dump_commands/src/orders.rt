//! What a command orders to be dumped.

ghost use Rattle.std.specs.Prelude.{◌≡◌, ◌<◌, ◌≤◌, length, All, IfOk};
ghost use Rattle.bk_text.specs.Alphabets.{IsHost};
ghost use Rattle.byte_formats.specs.Forms.{IsMaybe};
ghost use Rattle.dump_job.specs.Beginning.{new_id};
ghost use Rattle.tape_config.specs.Configs.{name_or_nothing};
ghost use Rattle.budb_fold.specs.Lookups.{parent_of};
ghost use Rattle.dump_commands.specs.Orders.{expires_with, volumes_of, order_of};

use crate::entries::volumes_of;
use backup_words::DumpCommand;
use bk_text::{Bytes, LevelPath, List, SetName};
use budb::Budb;
use dump_job::DumpOrder;
use std::alloc::{AllocError, Global};
use tape_config::{Config, Port};
use vnode_model::VolEntry;

/// The id of a dump at a time: the time, or one more than the greatest id that was begun or recorded where that is greater; at
/// most 4,294,967,295.
pub(crate) fn new_id(time: u32, greatest: u32) -> u32
    ensures { result ≡ new_id time greatest }
{
    time.max(greatest.saturating_add(1))
}

/// When a dump of a level expires that is begun at a time: as its level says of its id.
fn expires_with(budb: &Budb, level: &LevelPath, time: u32) -> u32
    ensures { result ≡ expires_with budb.now.database level.now time }
{
    match budb
        .levels()
        .expiry_of(level, new_id(time, budb.greatest_begun()))
    {
        Ok(second) => second,
        Err(_) => 0,
    }
}

/// What an order takes memory for: the names, and the volumes in the order of the cell's list; and the parent dump.
struct OrderParts {
    set: SetName,
    level: LevelPath,
    cell: Bytes,
    volumes: List<u32>,
    parent: u32,
}

/// The volume set, the level and the cell's name of an order.
fn names_of(
    alloc: Global,
    config: &Config,
    command: &DumpCommand,
) -> Result<(SetName, LevelPath, Bytes), AllocError>
    ensures set { IfOk result (λ names. names.0 ≡ command.now.set) }
    ensures level { IfOk result (λ names. names.1 ≡ command.now.level) }
    ensures cell { IfOk result (λ names. names.2 ≡ name_or_nothing config.now.cell) }
    ensures form { IfOk result (λ names. IsMaybe IsHost names.2) }
{
    let set = command.set.clone()?;
    let level = command.level.clone()?;
    let cell = Bytes::from_slice(alloc, config.cell())?;
    Ok((set, level, cell))
}

/// What the order of a command takes memory for.
fn parts_of(
    alloc: Global,
    config: &Config,
    budb: &Budb,
    cell: &[VolEntry],
    command: &DumpCommand,
) -> Result<OrderParts, AllocError>
    requires { length cell.now ≤ 65536 }
    ensures set { IfOk result (λ parts. parts.set ≡ command.now.set) }
    ensures level { IfOk result (λ parts. parts.level ≡ command.now.level) }
    ensures cell { IfOk result (λ parts. parts.cell ≡ name_or_nothing config.now.cell) }
    ensures form { IfOk result (λ parts. IsMaybe IsHost parts.cell) }
    ensures volumes { IfOk result (λ parts. parts.volumes ≡ volumes_of budb.now.database.sets command.now.set cell.now) }
    ensures few { IfOk result (λ parts. length parts.volumes ≤ 65536) }
    ensures within { IfOk result (λ parts. All (λ place. place < length cell.now) parts.volumes) }
    ensures parent { IfOk result (λ parts. parts.parent ≡ parent_of budb.now.database.listed command.now.set command.now.level) }
{
    let parent = budb.parent_of(&command.set, &command.level)?;
    let volumes = volumes_of(budb.sets(), &command.set, cell)?;
    let (set, level, cell) = names_of(alloc, config, command)?;
    Ok(OrderParts {
        set,
        level,
        cell,
        volumes,
        parent,
    })
}

/// The order of a command: the volumes of its set, in the order of the cell's list, since the set's parent dump.
pub(crate) fn order_of(
    alloc: Global,
    config: &Config,
    budb: &Budb,
    cell: &[VolEntry],
    time: u32,
    command: &DumpCommand,
    port: Port,
) -> Result<DumpOrder, AllocError>
    requires { length cell.now ≤ 65536 }
    ensures is { IfOk result (λ order. order ≡ order_of config.now budb.now.database cell.now time command.now port) }
    ensures few { IfOk result (λ order. length order.volumes ≤ 65536) }
    ensures within { IfOk result (λ order. All (λ place. place < length cell.now) order.volumes) }
    ensures form { IfOk result (λ order. IsMaybe IsHost order.cell) }
{
    let OrderParts {
        set,
        level,
        cell,
        volumes,
        parent,
    } = parts_of(alloc, config, budb, cell, command)?;
    Ok(DumpOrder {
        set,
        level,
        expires: expires_with(budb, &command.level, time),
        parent,
        port,
        append: command.append,
        volumes,
        time,
        cell,
    })
}
