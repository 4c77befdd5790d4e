//! What an order to dump is refused by, before a dump is begun.

ghost use Rattle.std.specs.Prelude.{◌≡◌, ◌≢◌, ◌≤◌, ℕ, Bool, List as AnyList, Err, IfOk, OnOk, IsTrue};
ghost use Rattle.tape_scan.specs.Slots.{Slot};
ghost use Rattle.tape_scan.specs.Looking.{HasSlots};
ghost use Rattle.tape_choice.specs.Append.{AreWhole};
ghost use Rattle.tape_writer.specs.Room.{HasRoom};
ghost use Rattle.dump_job.specs.Reels.{records_on, has_room};
ghost use Rattle.dump_job.specs.Faults.{Answers, Searches};
ghost use Rattle.dump_job.specs.Beginning.{new_id, fresh, length_with, unless_refused, id_of, first_tape, IsStart, Stands, Checks};

use crate::fault::JobFault;
use crate::first_tapes::{FirstTape, tape_found};
use crate::order::DumpOrder;
use budb::Budb;
use plant_core::Plant;
use std::alloc::Global;
use tape_config::Port;
use tape_writer::Writer;

/// The greatest id.
const LAST_ID: u32 = 4_294_967_295;

/// The greatest length of a log, in bytes.
const LOG_MOST: u64 = 268_435_456;

/// How many bytes a change that begins a dump, or takes a tape, has in the log.
const CHANGE_LENGTH: u64 = 5;

/// The id of a dump at a time: the time, or one more than the greatest id that was begun or recorded where that is greater.
/// Where that is 4,294,967,295 it is that again, and the dump is refused.
pub(crate) fn new_id(time: u32, greatest: u32) -> u32
    ensures is { result ≡ new_id time greatest }
    ensures some { 1 ≤ result }
{
    time.max(greatest.saturating_add(1))
}

/// Whether a fresh tape of a port has room for the smallest part of a dump.
fn has_room_fresh(port: &Port) -> bool
    ensures is { result ≡ has_room 6 3 (fresh port.now) }
    ensures room { IsTrue result → HasRoom 6 3 (fresh port.now) }
{
    Writer::new(port, 0, 0).has_room(6, 3)
}

/// The length of the log of a plant with the changes that begin a dump.
fn length_with<P: Plant>(plant: &P, take: Option<u32>) -> u64
    requires { P.sound plant.now }
    ensures { (id : ℕ) → result ≡ length_with (P.view plant.now).log_size id take }
{
    let length = plant.log_len();
    match take {
        None => length + CHANGE_LENGTH,
        Some(_) => length + CHANGE_LENGTH + CHANGE_LENGTH,
    }
}

/// Asks what a dump that has a tape may still be refused by: tapes that are too small, spent ids, a log that would be too long.
fn pass<P: Plant>(
    plant: &P,
    order: &DumpOrder,
    greatest: u32,
    tape: FirstTape,
) -> Result<FirstTape, JobFault>
    requires { P.sound plant.now }
    ensures told { (id : ℕ) → result ≡ unless_refused order.now (P.view plant.now).log_size greatest id tape }
    ensures same { IfOk result (λ passed. passed ≡ tape) }
    ensures never { result ≢ Err JobFault.Failed }
    ensures room { OnOk result (HasRoom 6 3 (fresh order.now.port)) }
    ensures length { (id : ℕ) → OnOk result (length_with (P.view plant.now).log_size id tape.take ≤ 268435456) }
{
    if !has_room_fresh(&order.port) {
        return Err(JobFault::CapacityTooSmall);
    }
    if greatest >= LAST_ID {
        return Err(JobFault::IdsSpent);
    }
    let length = length_with(plant, tape.take);
    if length > LOG_MOST {
        return Err(JobFault::LogFull { length });
    }
    Ok(tape)
}

/// The tape on which a dump begins, where it isn't refused. Nothing but the loaded tape is changed.
pub(crate) fn passed_tape<P: Plant>(
    alloc: Global,
    budb: &Budb,
    plant: &mut P,
    order: &DumpOrder,
) -> Result<FirstTape, JobFault>
    requires { P.sound plant.old }
    ensures told { P.tells → (slots : AnyList Slot) (whole : ℕ → Bool) → HasSlots P.Plant slots plant.old → AreWhole P.Plant whole plant.old → Answers (first_tape budb.now.database slots whole order.now (P.view plant.old).log_size) result }
    ensures form { IfOk result (IsStart (P.view plant.new).present order.now.port) }
    ensures within { IfOk result (λ tape. tape.initial ≤ id_of order.now budb.now.database) }
    ensures stands { IfOk result (λ tape. Stands P.Plant tape.reel.slot (records_on tape.reel) plant.new) }
    ensures room { OnOk result (HasRoom 6 3 (fresh order.now.port)) }
    ensures length { IfOk result (λ tape. length_with (P.view plant.new).log_size (id_of order.now budb.now.database) tape.take ≤ 268435456) }
    ensures plant { Searches P.Plant result plant.old plant.new }
{
    let greatest = budb.greatest_begun();
    let id = new_id(order.time, greatest);
    let listed = budb.database().listed.as_slice();
    let tape = tape_found(alloc, plant, listed, order, id)?;
    pass(plant, order, greatest, tape)
}

/// Gives the refusal that a begin would give, also for an order without volumes: `NothingToAppend` of a dump that is appended
/// where no listed dump has its volume set; else `NoTape` where no slot has a tape to take, or the tape to append to, which is
/// told by its name; else `CapacityTooSmall`, also of a dump that is appended; else `IdsSpent`; else `LogFull`. Where the ids are
/// spent, the choice of the tape goes by 4,294,967,295 as the id of the dump. A dump set of a greater id than the dump's own
/// isn't appended to: its tape counts as one that isn't found. Tapes may be loaded; no record and no log is changed.
pub(crate) fn check_order<P: Plant>(
    alloc: Global,
    budb: &Budb,
    plant: &mut P,
    order: &DumpOrder,
) -> Result<(), JobFault>
    requires { P.sound plant.old }
    ensures told { P.tells → (slots : AnyList Slot) (whole : ℕ → Bool) → HasSlots P.Plant slots plant.old → AreWhole P.Plant whole plant.old → Checks (first_tape budb.now.database slots whole order.now (P.view plant.old).log_size) result }
    ensures plant { Searches P.Plant result plant.old plant.new }
{
    match passed_tape(alloc, budb, plant, order) {
        Ok(_) => Ok(()),
        Err(fault) => Err(fault),
    }
}
