//! The fold of a log beside the index of the dumps that it lists, so that a record is looked for by its id and not among all.

ghost use Rattle.std.specs.Prelude.{◌≡◌, IfOk, OnOk};
ghost use Rattle.std.specs.Option.{unwrap_or};
ghost use Rattle.budb_fold.specs.Database.{fits_record, with_record, after_change, after_from, after};
ghost use Rattle.budb_index.specs.Relistings.{lists as lists_record};

use bk_text::List;
use budb_index::{Index, relistings_list_the_same, take};
use budb_journal::{Change, Database, DumpRecord};
use std::alloc::{AllocError, Global};
use std::mem::replace;

/// Lists a record, last, where it fits, which is told.
fn list(database: &mut Database, dump: DumpRecord, fits: bool) -> Result<(), AllocError>
    requires { fits ≡ fits_record dump database.old.listed }
    ensures { OnOk result (database.new ≡ unwrap_or (with_record database.old dump) database.old) }
{
    if fits {
        database.greatest = database.greatest.max(dump.fields().id);
        database.listed.push(dump)?;
    }
    Ok(())
}

/// Makes a change, of which is told whether it lists a record.
fn make_told(database: &mut Database, change: Change, lists: bool) -> Result<(), AllocError>
    requires { lists ≡ lists_record change database.old.listed }
    ensures { OnOk result (database.new ≡ after_change change database.old) }
{
    match change {
        Change::Done1(dump) | Change::Found1(dump) => list(database, dump.into_record(), lists),
        Change::Done(dump) | Change::Found(dump) => list(database, dump, lists),
        other => database.make(other),
    }
}

/// Makes a change of a database that an index has the listed dumps of, and of the index. It is taken out of its place, at which
/// a small one stands then, so that none is let go here: there are many kinds.
fn make(database: &mut Database, index: &mut Index, change: &mut Change) -> Result<(), AllocError>
    requires { index.old.listed ≡ database.old.listed }
    ensures database { OnOk result (database.new ≡ after_change change.old database.old) }
    ensures index { OnOk result (index.new.listed ≡ database.new.listed) }
{
    relistings_list_the_same();
    let lists = take(index, change)?;
    make_told(database, replace(change, Change::Begin { id: 0 }), lists)
}

/// Makes changes one after the other.
fn make_all(
    database: &mut Database,
    index: &mut Index,
    changes: &mut [Change],
) -> Result<(), AllocError>
    requires { index.old.listed ≡ database.old.listed }
    ensures database { OnOk result (database.new ≡ after_from changes.old database.old) }
    ensures index { OnOk result (index.new.listed ≡ database.new.listed) }
{
    for change in changes.iter_mut() {
        make(database, index, change)?;
    }
    Ok(())
}

/// A database and the index of its listed dumps.
struct Folded {
    database: Database,
    index: Index,
}

/// It is written out, as that of prepared changes is.
impl Drop for Folded {
    fn drop(self) {
        let Folded { database, index } = self;
    }
}

impl Folded {
    /// The database and the index.
    fn into_parts(self) -> (Database, Index)
        ensures database { result.0 ≡ self.database }
        ensures index { result.1 ≡ self.index }
    {
        let Folded { database, index } = self;
        (database, index)
    }
}

/// The database of a log, and the index of its listed dumps: what the changes make one after the other, of nothing.
pub(crate) fn fold_indexed(
    alloc: Global,
    changes: List<Change>,
) -> Result<(Database, Index), AllocError>
    ensures database { IfOk result (λ both. both.0 ≡ after changes) }
    ensures index { IfOk result (λ both. both.1.listed ≡ (after changes).listed) }
{
    let mut folded = Folded {
        database: Database::new(alloc),
        index: Index::new(alloc),
    };
    let mut changes = changes.into_vec();
    make_all(
        &mut folded.database,
        &mut folded.index,
        changes.as_mut_slice(),
    )?;
    Ok(folded.into_parts())
}
