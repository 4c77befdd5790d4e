//! The law of readings, the contract of a function without a body.

ghost use Rattle.bk_text.specs.Places.{FailsAt};
ghost use Rattle.budb_changes.specs.Bytes.{encoded};
ghost use Rattle.budb_changes.specs.declared.change.Change.{Change};
ghost use Rattle.budb_changes.specs.Forms.{AreChanges, IsLog};
ghost use Rattle.log_readings.specs.Readings.{reading_of};
ghost use Rattle.std.specs.Prelude.{◌≡◌, ℕ, Err, List, Ok};

/// A log has exactly one reading: its changes, or the place at which it stops being one.
pub fn a_log_has_one_reading()
    // What is encoded is read again.
    ensures changes { (changes : List Change) → AreChanges changes → reading_of (encoded changes) ≡ Ok changes }
    // What is read is all that the bytes spell.
    ensures whole { (bytes : List ℕ) (changes : List Change) → reading_of bytes ≡ Ok changes → AreChanges changes × (bytes ≡ encoded changes) }
    // A place that is told is the one at which the bytes stop being those of a list.
    ensures fails { (bytes : List ℕ) (at : ℕ) → reading_of bytes ≡ Err at → FailsAt IsLog bytes at }
    // Where bytes stop being those of a list, that place is told.
    ensures stops { (bytes : List ℕ) (at : ℕ) → FailsAt IsLog bytes at → reading_of bytes ≡ Err at }
{}
