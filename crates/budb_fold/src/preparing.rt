//! What a database would be after changes.

ghost use Rattle.std.specs.Prelude.{◌≡◌, IfOk};
ghost use Rattle.budb_fold.specs.Database.{after_from};

use crate::database::Database;
use budb_changes::Change;
use std::alloc::AllocError;

impl Database {
    /// The database after these changes, one after the other. This one stays, also where memory is refused.
    pub fn with(&self, changes: &[Change]) -> Result<Database, AllocError>
        ensures { IfOk result (λ db. db ≡ after_from changes.now self.now) }
    {
        let mut db = self.clone()?;
        for change in changes {
            db.make(change.clone()?)?;
        }
        Ok(db)
    }
}
