//! Checkpoints: the log of a plant made short.

ghost use Rattle.std.specs.Prelude.{◌≡◌, ◌⊎◌, ◌<◌, [], ◌∷◌, ℕ, List as AnyList, length, None, Err, IfOk, OnOk};
ghost use Rattle.crash_moments.specs.Moments.{HasCauseAt};
ghost use Rattle.plant_core.specs.Effects.{replaces};
ghost use Rattle.plant_effects.specs.Runs.{state_of, Done, Leaves, SameTape, StaysQuiet};
ghost use Rattle.budb_changes.specs.declared.change.Change.{Change as AnyChange};
ghost use Rattle.budb_changes.specs.Bytes.{encoded};
ghost use Rattle.budb_changes.specs.Forms.{AreChanges};
ghost use Rattle.budb_fold.specs.Database.{after};
ghost use Rattle.budb_fold.specs.Checkpoints.{checkpoint};
ghost use Rattle.budb.specs.Kept.{Keeps};

use crate::database::Budb;
use crate::fault::{CommitFault, PreparedFault};
use crate::prepared::bytes_of;
use bk_text::Bytes;
use budb_journal::{Database, checkpoint};
use plant_core::{Plant, PutFault};
use plant_effects::replace_whole;
use std::alloc::AllocError;

/// The bytes of the changes that a checkpoint of a database writes.
fn checkpoint_bytes(database: &Database) -> Result<Bytes, AllocError>
    ensures bytes { IfOk result (λ bytes. bytes ≡ encoded (checkpoint database.now)) }
    ensures form { IfOk result (λ bytes. AreChanges (checkpoint database.now)) }
{
    let alloc = database.sets.allocator();
    let changes = checkpoint(alloc, database)?;
    bytes_of(alloc, changes.as_slice())
}

/// Makes these bytes the whole log of a plant. It takes no memory.
fn replace_bytes<P: Plant>(plant: &mut P, bytes: &[u8]) -> Result<(), PreparedFault>
    requires { P.sound plant.old }
    ensures full { (n : ℕ) → result ≡ Err (PreparedFault.LogFull n) → (268435456 < n) × (n ≡ length bytes.now) }
    ensures only_full { 268435456 < length bytes.now → result ≡ Err (PreparedFault.LogFull (length bytes.now)) }
    ensures over_same { 268435456 < length bytes.now → plant.new ≡ plant.old }
    ensures done { OnOk result (Done P.Plant (replaces bytes.now ∷ []) plant.old plant.new) }
    ensures leaves { Leaves P.Plant (replaces bytes.now ∷ []) plant.old plant.new }
    ensures size { OnOk result ((P.view plant.new).log_size ≡ length bytes.now) }
    ensures tape { OnOk result (SameTape P.Plant plant.old plant.new) }
    ensures stays { StaysQuiet P.Plant plant.old plant.new }
    ensures cause { HasCauseAt PreparedFault.Failed (P.view plant.old).faults (P.view plant.new).faults result }
{
    let length = bytes.len() as u64;
    match replace_whole(plant, bytes) {
        Ok(()) => Ok(()),
        Err(PutFault::LogFull) => Err(PreparedFault::LogFull { length }),
        Err(PutFault::Failed) => Err(PreparedFault::Failed),
    }
}

impl Budb {
    /// Makes the log the list of a checkpoint, as one effect: the sets with their entries, the levels, the tape hosts, the greatest
    /// id that was begun or recorded, and the listed dumps, each in order. A crash that the plant survives leaves the old log or the
    /// new one. The database stays, and a log's database is that of the new log. `LogFull` exactly where the new log would have more
    /// than 268,435,456 bytes, and then nothing changes. Memory is refused before anything is written.
    pub fn checkpoint<P: Plant>(&mut self, plant: &mut P) -> Result<(), CommitFault>
        requires sound { P.sound plant.old }
        requires nothing { self.old.prepared ≡ None }
        ensures nothing { self.new.prepared ≡ None }
        ensures same { self.new ≡ self.old }
        ensures form { OnOk result (AreChanges (checkpoint self.old.database)) }
        ensures keeps { P.tells → (log : AnyList AnyChange) → Keeps log (state_of P.Plant plant.old).log self.old → OnOk result (Keeps (checkpoint (after log)) (state_of P.Plant plant.new).log self.new) }
        ensures full { (n : ℕ) → result ≡ Err (CommitFault.LogFull n) → (268435456 < n) × (n ≡ length (encoded (checkpoint self.old.database))) }
        ensures only_full { 268435456 < length (encoded (checkpoint self.old.database)) → (result ≡ Err (CommitFault.LogFull (length (encoded (checkpoint self.old.database))))) ⊎ (result ≡ Err CommitFault.Memory) }
        ensures over_same { 268435456 < length (encoded (checkpoint self.old.database)) → plant.new ≡ plant.old }
        ensures memory_same { result ≡ Err CommitFault.Memory → plant.new ≡ plant.old }
        ensures done { OnOk result (Done P.Plant (replaces (encoded (checkpoint self.old.database)) ∷ []) plant.old plant.new) }
        ensures leaves { Leaves P.Plant (replaces (encoded (checkpoint self.old.database)) ∷ []) plant.old plant.new }
        ensures size { OnOk result ((P.view plant.new).log_size ≡ length (encoded (checkpoint self.old.database))) }
        ensures tape { OnOk result (SameTape P.Plant plant.old plant.new) }
        ensures stays { StaysQuiet P.Plant plant.old plant.new }
        ensures cause { HasCauseAt CommitFault.Failed (P.view plant.old).faults (P.view plant.new).faults result }
    {
        let bytes = match checkpoint_bytes(self.database()) {
            Ok(bytes) => bytes,
            Err(_) => return Err(CommitFault::Memory),
        };
        match replace_bytes(plant, bytes.as_slice()) {
            Ok(()) => Ok(()),
            Err(PreparedFault::LogFull { length }) => Err(CommitFault::LogFull { length }),
            Err(PreparedFault::Failed) => Err(CommitFault::Failed),
        }
    }
}
