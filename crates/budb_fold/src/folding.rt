//! The fold of a log.

ghost use Rattle.std.specs.Prelude.{◌≡◌, ◌++◌, List as AnyList, IfOk};
ghost use Rattle.budb_changes.specs.declared.change.Change.{Change as AnyChange};
ghost use Rattle.budb_fold.specs.declared.database.Database.{Database as AnyDatabase};
ghost use Rattle.budb_fold.specs.Database.{after, after_from};

use crate::database::Database;
use bk_text::List;
use budb_changes::Change;
use std::alloc::{AllocError, Global};

/// The database of a log: what its changes make one after the other, of nothing.
pub fn fold(alloc: Global, changes: List<Change>) -> Result<Database, AllocError>
    ensures { IfOk result (λ db. db ≡ after changes) }
{
    let mut db = Database::new(alloc);
    for change in changes.into_vec() {
        db.make(change)?;
    }
    Ok(db)
}

/// The fold of a list of changes followed by more is the fold of more on the fold of the list; so is the database of a log.
pub fn fold_of_more()
    ensures from { (first more : AnyList AnyChange) (db : AnyDatabase) → after_from (first ++ more) db ≡ after_from more (after_from first db) }
    ensures log { (log more : AnyList AnyChange) → after (log ++ more) ≡ after_from more (after log) }
{}
