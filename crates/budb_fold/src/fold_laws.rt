//! What is so of the database of every log.

ghost use Rattle.std.specs.Prelude.{◌≡◌, ◌↔◌, ℕ, true, IsTrue, List as AnyList, Option as AnyOption};
ghost use Rattle.bk_text.specs.Patterns.{IsPattern};
ghost use Rattle.volume_sets.specs.Sets.{has_set};
ghost use Rattle.budb_changes.specs.declared.change.Change.{Change as AnyChange};
ghost use Rattle.budb_fold.specs.declared.database.Database.{Database as AnyDatabase};
ghost use Rattle.budb_fold.specs.Database.{fits, after};
ghost use Rattle.budb_fold.specs.Checkpoints.{checkpoint};
ghost use Rattle.budb_fold.specs.FoldLaws.{IsOrderly};

use budb_changes::Change;
use volume_sets::pattern_test;

/// In the database of every log each set, level and port stands once, each level behind the one above it, and each entry's
/// pattern is one. Each id is listed once and isn't 0, is at most the greatest that was begun or recorded, and has its
/// parent below it; a dump without a parent has whole volumes alone.
pub fn database_of_a_log_is_orderly()
    ensures { (log : AnyList AnyChange) → IsOrderly (after log) }
{
    pattern_test();
}

/// The changes of a checkpoint of a log's database make that database again.
pub fn checkpoint_makes_the_same_database()
    ensures { (log : AnyList AnyChange) → after (checkpoint (after log)) ≡ after log }
{}

/// A new entry of a set fits exactly where its pattern is one and the set is there.
pub fn entry_fits_by_its_pattern()
    ensures { (set : AnyList ℕ) (server partition : AnyOption (AnyList ℕ)) (pattern : AnyList ℕ) (db : AnyDatabase)
        → (fits (Change.AddEntry set server partition pattern) db ≡ true) ↔ (IsPattern pattern × (has_set set db.sets ≡ true)) }
{
    pattern_test();
}
