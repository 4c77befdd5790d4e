//! The command `dump`.

ghost use Rattle.std.specs.Prelude.{◌≡◌, ◌≢◌, ◌<◌, ◌≤◌, None, Ok, Err, length, map, All, IfOk, OnOk, OnErr};
ghost use Rattle.bk_text.specs.Alphabets.{IsHost};
ghost use Rattle.byte_formats.specs.Forms.{IsMaybe};
ghost use Rattle.crash_moments.specs.Moments.{HasCauseAt};
ghost use Rattle.plant_effects.specs.Runs.{Leaves, StaysQuiet};
ghost use Rattle.cell_core.specs.Calls.{entry_of_stored};
ghost use Rattle.dump_courses.specs.Ahead.{LeftAhead};
ghost use Rattle.dump_courses.specs.Scenes.{Scene, IsScene, Finds};
ghost use Rattle.dump_commands.specs.Orders.{asked_port};
ghost use Rattle.dump_commands.specs.Answers.{order_answer, dump_answer, IsAnswered};

use crate::dumping::try_out;
use crate::entries::entries_of;
use crate::made::make_or_refuse;
use crate::orders::order_of;
use crate::ports::asked_port;
use crate::told::Dumped;
use backup_words::DumpCommand;
use budb::Budb;
use cell_core::Cell;
use dump_courses::DumpStop;
use dump_job::DumpOrder;
use plant_core::Plant;
use std::alloc::Global;
use tape_config::{Config, Port};
use vnode_model::VolEntry;

/// Carries out an order: makes the dump, or only tells what would be dumped.
fn carry_out<P: Plant, C: Cell>(
    alloc: Global,
    budb: &mut Budb,
    plant: &mut P,
    cell: &mut C,
    entries: &[VolEntry],
    command: &DumpCommand,
    order: DumpOrder,
) -> Result<Dumped, DumpStop>
    requires sound { P.sound plant.old }
    requires nothing { budb.old.prepared ≡ None }
    requires set { command.now.set ≡ order.set }
    requires few { length order.volumes ≤ 65536 }
    requires cell { IsMaybe IsHost order.cell }
    requires count { length entries.now ≡ C.size cell.old }
    requires within { All (λ place. place < length entries.now) order.volumes }
    requires entries { C.tells → entries.now ≡ map entry_of_stored (C.list cell.old) }
    ensures sound { OnOk result (P.sound plant.new) }
    ensures unfailed { result ≢ Err DumpStop.Plant → P.sound plant.new }
    ensures nothing { budb.new.prepared ≡ None }
    ensures answered { P.tells → C.tells → (s : Scene) → IsScene P.Plant C.Cell s budb.old plant.old cell.old → order.time ≡ s.time → IfOk result (IsAnswered P.Plant s (order_answer s command.now order) budb.new plant.old plant.new) }
    ensures leaves { P.tells → C.tells → (s : Scene) → IsScene P.Plant C.Cell s budb.old plant.old cell.old → Leaves P.Plant (order_answer s command.now order).effects plant.old plant.new }
    ensures stopped { P.tells → C.tells → (s : Scene) → IsScene P.Plant C.Cell s budb.old plant.old cell.old → OnErr result (result ≢ Err DumpStop.Plant → LeftAhead P.Plant (order_answer s command.now order).effects plant.old plant.new) }
    ensures list { C.tells → C.list cell.new ≡ C.list cell.old }
    ensures stays { StaysQuiet P.Plant plant.old plant.new }
    ensures plant_cause { HasCauseAt DumpStop.Plant (P.view plant.old).faults (P.view plant.new).faults result }
    ensures cell_cause { HasCauseAt DumpStop.Cell (C.faults cell.old) (C.faults cell.new) result }
{
    if command.trial {
        let listed = budb.database().listed.as_slice();
        try_out(alloc, cell, listed, entries, &order)
    } else {
        make_or_refuse(alloc, budb, plant, cell, entries, &command.set, order)
    }
}

/// Dumps to the tapes of the port that a command names.
fn dump_to<P: Plant, C: Cell>(
    alloc: Global,
    config: &Config,
    budb: &mut Budb,
    plant: &mut P,
    cell: &mut C,
    time: u32,
    command: &DumpCommand,
    port: Port,
) -> Result<Dumped, DumpStop>
    requires sound { P.sound plant.old }
    requires nothing { budb.old.prepared ≡ None }
    requires port { asked_port config.now budb.old.database command.now ≡ Ok port }
    ensures sound { OnOk result (P.sound plant.new) }
    ensures unfailed { result ≢ Err DumpStop.Plant → P.sound plant.new }
    ensures nothing { budb.new.prepared ≡ None }
    ensures answered { P.tells → C.tells → (s : Scene) → Finds P.Plant C.Cell s config.now budb.old plant.old cell.old time → IfOk result (IsAnswered P.Plant s (dump_answer s command.now) budb.new plant.old plant.new) }
    ensures leaves { P.tells → C.tells → (s : Scene) → Finds P.Plant C.Cell s config.now budb.old plant.old cell.old time → Leaves P.Plant (dump_answer s command.now).effects plant.old plant.new }
    ensures stopped { P.tells → C.tells → (s : Scene) → Finds P.Plant C.Cell s config.now budb.old plant.old cell.old time → OnErr result (result ≢ Err DumpStop.Plant → LeftAhead P.Plant (dump_answer s command.now).effects plant.old plant.new) }
    ensures list { C.tells → C.list cell.new ≡ C.list cell.old }
    ensures stays { StaysQuiet P.Plant plant.old plant.new }
    ensures plant_cause { HasCauseAt DumpStop.Plant (P.view plant.old).faults (P.view plant.new).faults result }
    ensures cell_cause { HasCauseAt DumpStop.Cell (C.faults cell.old) (C.faults cell.new) result }
{
    let entries = entries_of(alloc, cell)?;
    let listed = entries.as_slice();
    let order = order_of(alloc, config, budb, listed, time, command, port)?;
    carry_out(alloc, budb, plant, cell, listed, command, order)
}

/// `dump`: dumps the volumes of a set, as its definition says of the scene that the command finds, or tells what it is refused
/// by; of a trial it tells what would be dumped, and changes nothing. `time` is the session's time, in seconds since 1970.
/// Nothing is told to the plant: the text is handed back. A stop that isn't the plant's leaves a sound plant, with the first so
/// many effects of the dump.
pub fn dump<P: Plant, C: Cell>(
    alloc: Global,
    config: &Config,
    budb: &mut Budb,
    plant: &mut P,
    cell: &mut C,
    time: u32,
    command: &DumpCommand,
) -> Result<Dumped, DumpStop>
    requires sound { P.sound plant.old }
    requires nothing { budb.old.prepared ≡ None }
    ensures sound { OnOk result (P.sound plant.new) }
    ensures unfailed { result ≢ Err DumpStop.Plant → P.sound plant.new }
    ensures nothing { budb.new.prepared ≡ None }
    ensures answered { P.tells → C.tells → (s : Scene) → Finds P.Plant C.Cell s config.now budb.old plant.old cell.old time → IfOk result (IsAnswered P.Plant s (dump_answer s command.now) budb.new plant.old plant.new) }
    ensures leaves { P.tells → C.tells → (s : Scene) → Finds P.Plant C.Cell s config.now budb.old plant.old cell.old time → Leaves P.Plant (dump_answer s command.now).effects plant.old plant.new }
    ensures stopped { P.tells → C.tells → (s : Scene) → Finds P.Plant C.Cell s config.now budb.old plant.old cell.old time → OnErr result (result ≢ Err DumpStop.Plant → LeftAhead P.Plant (dump_answer s command.now).effects plant.old plant.new) }
    ensures list { C.tells → C.list cell.new ≡ C.list cell.old }
    ensures stays { StaysQuiet P.Plant plant.old plant.new }
    ensures plant_cause { HasCauseAt DumpStop.Plant (P.view plant.old).faults (P.view plant.new).faults result }
    ensures cell_cause { HasCauseAt DumpStop.Cell (C.faults cell.old) (C.faults cell.new) result }
{
    match asked_port(alloc, config, budb.database(), command)? {
        Ok(port) => dump_to(alloc, config, budb, plant, cell, time, command, port),
        Err(text) => Ok(Dumped { text, time }),
    }
}
