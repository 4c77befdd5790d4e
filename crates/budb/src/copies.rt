//! A copy of the database, to which the changes of a commit are made before it: it lags behind by one commit, so that no commit
//! copies the whole.

ghost use Rattle.std.specs.Prelude.{◌≡◌, None, IfOk, OnOk, IfSome};
ghost use Rattle.budb_fold.specs.Database.{after_from};
ghost use Rattle.budb.specs.Views.{CatchesUp};

use bk_text::List;
use budb_journal::{Change, Database};
use std::alloc::AllocError;

/// A copy of the database from before the last commit, and the changes of that commit.
pub(crate) struct Behind {
    pub(crate) database: Database,
    pub(crate) changes: List<Change>,
}

/// It is written out, as that of prepared changes is.
impl Drop for Behind {
    fn drop(self) {
        let Behind { database, changes } = self;
    }
}

impl Behind {
    /// The database after the changes.
    fn caught_up(self) -> Result<Database, AllocError>
        ensures { IfOk result (λ db. db ≡ after_from self.changes self.database) }
    {
        let Behind { database, changes } = self;
        made(database, changes)
    }
}

/// Makes changes one after the other.
fn make_all(database: &mut Database, changes: List<Change>) -> Result<(), AllocError>
    ensures { OnOk result (database.new ≡ after_from changes database.old) }
{
    for change in changes.into_vec() {
        database.make(change)?;
    }
    Ok(())
}

/// The database after changes, one after the other.
pub(crate) fn made(database: Database, changes: List<Change>) -> Result<Database, AllocError>
    ensures { IfOk result (λ db. db ≡ after_from changes database) }
{
    let mut db = database;
    make_all(&mut db, changes)?;
    Ok(db)
}

/// A copy of the database: that which is behind, with its changes made, where there is one.
pub(crate) fn copy_of(
    database: &Database,
    behind: &mut Option<Behind>,
) -> Result<Database, AllocError>
    requires { IfSome behind.old (CatchesUp database.now) }
    ensures copy { IfOk result (λ db. db ≡ database.now) }
    ensures nothing { behind.new ≡ None }
{
    match behind.take() {
        None => database.clone(),
        Some(copy) => copy.caught_up(),
    }
}
