//! The begin of a dump as a command asks it: it is begun as a dump alone is, or refused, and no step of it is made.

ghost use Rattle.std.specs.Prelude.{◌≡◌, ◌≢◌, ◌<◌, ◌≤◌, None, Some, Ok, Err, length, map, All, IfOk, OnOk, OnErr};
ghost use Rattle.bk_text.specs.Alphabets.{IsHost};
ghost use Rattle.byte_formats.specs.Forms.{IsMaybe};
ghost use Rattle.crash_moments.specs.Moments.{HasCauseAt};
ghost use Rattle.plant_effects.specs.Runs.{Leaves, StaysQuiet};
ghost use Rattle.cell_core.specs.Calls.{entry_of_stored};
ghost use Rattle.tape_config.specs.Configs.{port_in};
ghost use Rattle.dump_job.specs.declared.first_tapes.FirstTape.{FirstTape};
ghost use Rattle.dump_job.specs.Elsewhere.{IsOnPort, LeavesTapes};
ghost use Rattle.dump_job.specs.Jobs.{FitsJob, HasPlaces};
ghost use Rattle.dump_courses.specs.Ahead.{LeftAhead};
ghost use Rattle.dump_courses.specs.Scenes.{Scene, IsScene, Finds};
ghost use Rattle.dump_commands.specs.Orders.{asked_port};
ghost use Rattle.dump_commands.specs.Refusals.{fault_line};
ghost use Rattle.dump_commands.specs.Answers.{commit_of, tape_for};
ghost use Rattle.dump_commands.specs.Starts.{order_start, dump_start, start_effects, Starts};

use crate::dumping::{begin, checked};
use crate::orders::order_of;
use crate::ports::asked_port;
use crate::refusals::{fault_line, refusal_by};
use backup_words::DumpCommand;
use bk_text::{Bytes, SetName};
use budb::Budb;
use cell_core::Cell;
use dump_courses::DumpStop;
use dump_job::{DumpOrder, Job, JobFault, Phase};
use plant_core::Plant;
use std::alloc::Global;
use tape_answers::the_slots_are_read;
use tape_config::{Config, Port};
use vnode_model::VolEntry;

/// Tells what a begin is refused by.
fn refuse(
    alloc: Global,
    set: &SetName,
    offset: u16,
    fault: &JobFault,
) -> Result<Result<Job, Bytes>, DumpStop>
    ensures text { IfOk result (λ started. started ≡ Err (fault_line set.now offset fault.now)) }
    ensures plant { result ≢ Err DumpStop.Plant }
    ensures cell { result ≢ Err DumpStop.Cell }
{
    let text = fault_line(alloc, set, offset, fault)?;
    Ok(Err(text))
}

/// Begins a dump that nothing refuses.
fn start_new<P: Plant, C: Cell>(
    alloc: Global,
    budb: &mut Budb,
    plant: &mut P,
    cell: &C,
    set: &SetName,
    order: DumpOrder,
) -> Result<Result<Job, Bytes>, DumpStop>
    requires sound { P.sound plant.old }
    requires nothing { budb.old.prepared ≡ None }
    requires some { 1 ≤ length order.volumes }
    requires few { length order.volumes ≤ 4294967295 }
    requires cell { IsMaybe IsHost order.cell }
    requires places { HasPlaces C.Cell order.volumes cell.now }
    ensures started { P.tells → C.tells → (s : Scene) (t : FirstTape) → IsScene P.Plant C.Cell s budb.old plant.old cell.now → tape_for s order ≡ Ok t → IfOk result (Starts P.Plant C.Cell s (Ok (record { order = order; tape = t })) budb.old budb.new plant.old plant.new cell.now) }
    ensures leaves { P.tells → C.tells → (s : Scene) (t : FirstTape) → IsScene P.Plant C.Cell s budb.old plant.old cell.now → tape_for s order ≡ Ok t → Leaves P.Plant (commit_of s order t) plant.old plant.new }
    ensures stopped { P.tells → C.tells → (s : Scene) (t : FirstTape) → IsScene P.Plant C.Cell s budb.old plant.old cell.now → tape_for s order ≡ Ok t → OnErr result (result ≢ Err DumpStop.Plant → LeftAhead P.Plant (commit_of s order t) plant.old plant.new) }
    ensures fit { IfOk result (λ started. IfOk started (λ job. FitsJob P.Plant job plant.new)) }
    ensures going { IfOk result (λ started. IfOk started (λ job. job.phase ≢ Phase.Over)) }
    ensures places { IfOk result (λ started. IfOk started (λ job. HasPlaces C.Cell job.places cell.now)) }
    ensures on { P.tells → IfOk result (λ started. IfOk started IsOnPort) }
    ensures port { IfOk result (λ started. IfOk started (λ job. job.port ≡ order.port)) }
    ensures elsewhere { P.tells → result ≢ Err DumpStop.Plant → LeavesTapes P.Plant plant.old plant.new }
    ensures sound { OnOk result (P.sound plant.new) }
    ensures unfailed { result ≢ Err DumpStop.Plant → P.sound plant.new }
    ensures nothing { budb.new.prepared ≡ None }
    ensures stays { StaysQuiet P.Plant plant.old plant.new }
    ensures cause { HasCauseAt DumpStop.Plant (P.view plant.old).faults (P.view plant.new).faults result }
    ensures never_cell { result ≢ Err DumpStop.Cell }
{
    the_slots_are_read();
    let offset = order.port.fields().offset;
    match begin(alloc, budb, plant, order)? {
        Ok(job) => Ok(Ok(job)),
        Err(fault) => refuse(alloc, set, offset, &fault),
    }
}

/// Begins a dump, or tells what it is refused by.
fn start_or_refuse<P: Plant, C: Cell>(
    alloc: Global,
    budb: &mut Budb,
    plant: &mut P,
    cell: &C,
    entries: &[VolEntry],
    set: &SetName,
    order: DumpOrder,
) -> Result<Result<Job, Bytes>, DumpStop>
    requires sound { P.sound plant.old }
    requires nothing { budb.old.prepared ≡ None }
    requires few { length order.volumes ≤ 65536 }
    requires cell { IsMaybe IsHost order.cell }
    requires count { length entries.now ≡ C.size cell.now }
    requires within { All (λ place. place < length entries.now) order.volumes }
    requires entries { C.tells → entries.now ≡ map entry_of_stored (C.list cell.now) }
    ensures started { P.tells → C.tells → (s : Scene) → IsScene P.Plant C.Cell s budb.old plant.old cell.now → IfOk result (Starts P.Plant C.Cell s (order_start s order) budb.old budb.new plant.old plant.new cell.now) }
    ensures leaves { P.tells → C.tells → (s : Scene) → IsScene P.Plant C.Cell s budb.old plant.old cell.now → Leaves P.Plant (start_effects s (order_start s order)) plant.old plant.new }
    ensures stopped { P.tells → C.tells → (s : Scene) → IsScene P.Plant C.Cell s budb.old plant.old cell.now → OnErr result (result ≢ Err DumpStop.Plant → LeftAhead P.Plant (start_effects s (order_start s order)) plant.old plant.new) }
    ensures fit { IfOk result (λ started. IfOk started (λ job. FitsJob P.Plant job plant.new)) }
    ensures going { IfOk result (λ started. IfOk started (λ job. job.phase ≢ Phase.Over)) }
    ensures places { IfOk result (λ started. IfOk started (λ job. HasPlaces C.Cell job.places cell.now)) }
    ensures on { P.tells → IfOk result (λ started. IfOk started IsOnPort) }
    ensures port { IfOk result (λ started. IfOk started (λ job. job.port ≡ order.port)) }
    ensures elsewhere { P.tells → result ≢ Err DumpStop.Plant → LeavesTapes P.Plant plant.old plant.new }
    ensures sound { OnOk result (P.sound plant.new) }
    ensures unfailed { result ≢ Err DumpStop.Plant → P.sound plant.new }
    ensures nothing { budb.new.prepared ≡ None }
    ensures stays { StaysQuiet P.Plant plant.old plant.new }
    ensures cause { HasCauseAt DumpStop.Plant (P.view plant.old).faults (P.view plant.new).faults result }
    ensures never_cell { result ≢ Err DumpStop.Cell }
{
    the_slots_are_read();
    let fault = checked(alloc, budb, plant, &order)?;
    let refusal = refusal_by(alloc, entries, &order, &fault);
    drop(fault);
    match refusal? {
        Some(text) => Ok(Err(text)),
        None => start_new(alloc, budb, plant, cell, set, order),
    }
}

/// Begins a dump to the tapes of the port that a command names, or tells what it is refused by.
fn start_to<P: Plant, C: Cell>(
    alloc: Global,
    config: &Config,
    budb: &mut Budb,
    plant: &mut P,
    cell: &C,
    entries: &[VolEntry],
    time: u32,
    command: &DumpCommand,
    port: Port,
) -> Result<Result<Job, Bytes>, DumpStop>
    requires sound { P.sound plant.old }
    requires nothing { budb.old.prepared ≡ None }
    requires count { length entries.now ≡ C.size cell.now }
    requires few { length entries.now ≤ 65536 }
    requires entries { C.tells → entries.now ≡ map entry_of_stored (C.list cell.now) }
    requires port { asked_port config.now budb.old.database command.now ≡ Ok port }
    ensures started { P.tells → C.tells → (s : Scene) → Finds P.Plant C.Cell s config.now budb.old plant.old cell.now time → IfOk result (Starts P.Plant C.Cell s (dump_start s command.now) budb.old budb.new plant.old plant.new cell.now) }
    ensures leaves { P.tells → C.tells → (s : Scene) → Finds P.Plant C.Cell s config.now budb.old plant.old cell.now time → Leaves P.Plant (start_effects s (dump_start s command.now)) plant.old plant.new }
    ensures stopped { P.tells → C.tells → (s : Scene) → Finds P.Plant C.Cell s config.now budb.old plant.old cell.now time → OnErr result (result ≢ Err DumpStop.Plant → LeftAhead P.Plant (start_effects s (dump_start s command.now)) plant.old plant.new) }
    ensures fit { IfOk result (λ started. IfOk started (λ job. FitsJob P.Plant job plant.new)) }
    ensures going { IfOk result (λ started. IfOk started (λ job. job.phase ≢ Phase.Over)) }
    ensures places { IfOk result (λ started. IfOk started (λ job. HasPlaces C.Cell job.places cell.now)) }
    ensures on { P.tells → IfOk result (λ started. IfOk started IsOnPort) }
    ensures port { IfOk result (λ started. IfOk started (λ job. port_in command.now.offset config.now.entries ≡ Some job.port)) }
    ensures elsewhere { P.tells → result ≢ Err DumpStop.Plant → LeavesTapes P.Plant plant.old plant.new }
    ensures sound { OnOk result (P.sound plant.new) }
    ensures unfailed { result ≢ Err DumpStop.Plant → P.sound plant.new }
    ensures nothing { budb.new.prepared ≡ None }
    ensures stays { StaysQuiet P.Plant plant.old plant.new }
    ensures cause { HasCauseAt DumpStop.Plant (P.view plant.old).faults (P.view plant.new).faults result }
    ensures never_cell { result ≢ Err DumpStop.Cell }
{
    let order = order_of(alloc, config, budb, entries, time, command, port)?;
    start_or_refuse(alloc, budb, plant, cell, entries, &command.set, order)
}

/// Begins the dump of a command, as its definition says of the scene that the command finds, or tells what it is refused by; then
/// nothing of it is left. What the cell's list says of its volumes is handed in, and the cell isn't asked. `time` is the session's
/// time, in seconds since 1970. A dump that is tried out isn't asked for. The dump's tapes are those of the command's port, and no
/// record of a tape is changed. A stop that isn't the plant's leaves a sound plant.
pub fn start_dump<P: Plant, C: Cell>(
    alloc: Global,
    config: &Config,
    budb: &mut Budb,
    plant: &mut P,
    cell: &C,
    entries: &[VolEntry],
    time: u32,
    command: &DumpCommand,
) -> Result<Result<Job, Bytes>, DumpStop>
    requires sound { P.sound plant.old }
    requires nothing { budb.old.prepared ≡ None }
    requires count { length entries.now ≡ C.size cell.now }
    requires few { length entries.now ≤ 65536 }
    requires entries { C.tells → entries.now ≡ map entry_of_stored (C.list cell.now) }
    ensures started { P.tells → C.tells → (s : Scene) → Finds P.Plant C.Cell s config.now budb.old plant.old cell.now time → IfOk result (Starts P.Plant C.Cell s (dump_start s command.now) budb.old budb.new plant.old plant.new cell.now) }
    ensures leaves { P.tells → C.tells → (s : Scene) → Finds P.Plant C.Cell s config.now budb.old plant.old cell.now time → Leaves P.Plant (start_effects s (dump_start s command.now)) plant.old plant.new }
    ensures stopped { P.tells → C.tells → (s : Scene) → Finds P.Plant C.Cell s config.now budb.old plant.old cell.now time → OnErr result (result ≢ Err DumpStop.Plant → LeftAhead P.Plant (start_effects s (dump_start s command.now)) plant.old plant.new) }
    ensures fit { IfOk result (λ started. IfOk started (λ job. FitsJob P.Plant job plant.new)) }
    ensures going { IfOk result (λ started. IfOk started (λ job. job.phase ≢ Phase.Over)) }
    ensures places { IfOk result (λ started. IfOk started (λ job. HasPlaces C.Cell job.places cell.now)) }
    ensures on { P.tells → IfOk result (λ started. IfOk started IsOnPort) }
    ensures port { IfOk result (λ started. IfOk started (λ job. port_in command.now.offset config.now.entries ≡ Some job.port)) }
    ensures elsewhere { P.tells → result ≢ Err DumpStop.Plant → LeavesTapes P.Plant plant.old plant.new }
    ensures sound { OnOk result (P.sound plant.new) }
    ensures unfailed { result ≢ Err DumpStop.Plant → P.sound plant.new }
    ensures nothing { budb.new.prepared ≡ None }
    ensures stays { StaysQuiet P.Plant plant.old plant.new }
    ensures cause { HasCauseAt DumpStop.Plant (P.view plant.old).faults (P.view plant.new).faults result }
    ensures never_cell { result ≢ Err DumpStop.Cell }
{
    match asked_port(alloc, config, budb.database(), command)? {
        Ok(port) => start_to(
            alloc, config, budb, plant, cell, entries, time, command, port,
        ),
        Err(text) => Ok(Err(text)),
    }
}
