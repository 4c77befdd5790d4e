//! What is read back, as contracts of functions without a body.

ghost use Rattle.std.specs.Prelude.{◌≡◌, ◌≤◌, ◌<◌, ℕ, List as AnyList, length, true, Ok, Err};
ghost use Rattle.bk_text.specs.Alphabets.{IsTapeName};
ghost use Rattle.byte_formats.specs.Forms.{IsMaybe};
ghost use Rattle.plant_core.specs.Crashes.{State};
ghost use Rattle.plant_core.specs.Effects.{come};
ghost use Rattle.plant_core.specs.Records.{Record};
ghost use Rattle.budb_changes.specs.declared.change.Change.{Change as AnyChange};
ghost use Rattle.budb_fold.specs.declared.database.Database.{Database as AnyDatabase};
ghost use Rattle.budb_fold.specs.Database.{after, after_from};
ghost use Rattle.budb_fold.specs.Checkpoints.{checkpoint};
ghost use Rattle.budb_save.specs.Saves.{HasSave, save_label, save_records, save_of};
ghost use Rattle.budb_save.specs.Writing.{putting_save};
ghost use Rattle.budb_save.specs.Loading.{SavesChanges, IsBadSave};
ghost use Rattle.budb_save.specs.Back.{IsUnused, IsBack, is_unused};
ghost use Rattle.budb_save.specs.ReadBack.{read_back};

/// What a save puts on a tape is read again: the tape has the records of a save, these have the bytes that were saved, and no tape has two saves.
pub fn what_is_saved_is_read()
    ensures stands { (s : State) (k : ℕ) (permanent bytes : AnyList ℕ) → (come (putting_save k (save_label permanent) bytes) s).tape k ≡ save_records (save_of permanent bytes) }
    ensures has { (permanent bytes : AnyList ℕ) → IsMaybe IsTapeName permanent → length bytes ≤ 18446744073709551615 → HasSave (save_records (save_of permanent bytes)) bytes }
    ensures one { (tape : AnyList Record) (a b : AnyList ℕ) → HasSave tape a → HasSave tape b → a ≡ b }
{}

/// The changes of a log's checkpoint make its database again of one without sets, levels and dumps.
pub fn a_saved_database_comes_back()
    ensures { (log : AnyList AnyChange) (db : AnyDatabase) → IsUnused db → IsBack (after log) db (after_from (checkpoint (after log)) db) }
{}

/// A tape has one list of saved changes, or one place at which it is bad, and never both.
pub fn a_bad_save_has_one_place()
    ensures one { (tape : AnyList Record) (a b : ℕ) → IsBadSave tape a → IsBadSave tape b → a ≡ b }
    ensures changes { (tape : AnyList Record) (a b : AnyList AnyChange) → SavesChanges tape a → SavesChanges tape b → a ≡ b }
    ensures never { (tape : AnyList Record) (changes : AnyList AnyChange) (place : ℕ) → SavesChanges tape changes → IsBadSave tape place → ⊥ }
{}

/// A save tape is read back in one way: it has changes, or a place at which it is bad. (A tape without records is no save, and has no bad
/// record.)
pub fn a_save_is_read_in_one_way()
    ensures changes { (tape : AnyList Record) (changes : AnyList AnyChange) → SavesChanges tape changes → read_back tape ≡ Ok changes }
    ensures bad { (tape : AnyList Record) (place : ℕ) → IsBadSave tape place → read_back tape ≡ Err place }
    ensures whole { (tape : AnyList Record) (changes : AnyList AnyChange) → read_back tape ≡ Ok changes → SavesChanges tape changes }
    ensures wrong { (tape : AnyList Record) (place : ℕ) → 0 < length tape → read_back tape ≡ Err place → IsBadSave tape place }
{}

/// The test for a database without sets, levels and dumps holds of exactly those.
pub fn an_unused_database_is_told()
    ensures yes { (db : AnyDatabase) → is_unused db ≡ true → IsUnused db }
    ensures only { (db : AnyDatabase) → IsUnused db → is_unused db ≡ true }
{}
