//! What is so of the database of every log that has bytes.

ghost use Rattle.std.specs.Prelude.{List as AnyList, All};
ghost use Rattle.budb_changes.specs.declared.change.Change.{Change as AnyChange};
ghost use Rattle.budb_changes.specs.Forms.{IsDumpRecord, AreChanges};
ghost use Rattle.budb_fold.specs.Database.{after};
ghost use Rattle.budb_fold.specs.Checkpoints.{checkpoint};

/// The list of a checkpoint of a log's database has bytes.
pub fn checkpoint_has_bytes()
    ensures { (log : AnyList AnyChange) → AreChanges log → AreChanges (checkpoint (after log)) }
{}

/// Each dump that a log's database lists has the form of a record.
pub fn listed_dumps_are_records()
    ensures { (log : AnyList AnyChange) → AreChanges log → All IsDumpRecord (after log).listed }
{}
