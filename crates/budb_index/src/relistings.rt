//! What changes do to the listed dumps.

ghost use Rattle.std.specs.Prelude.{◌≡◌, ◌++◌, List as AnyList, [], IfOk, OnOk};
ghost use Rattle.std.specs.List.{cons_option};
ghost use Rattle.budb_changes.specs.declared.change.Change.{Change as AnyChange};
ghost use Rattle.budb_fold.specs.declared.database.Database.{Database as AnyDatabase};
ghost use Rattle.budb_fold.specs.Database.{after_from};
ghost use Rattle.budb_index.specs.Relistings.{relisting_of, relistings_of, relisted_from};

use bk_text::List;
use budb_changes::{Change, DumpRecord};
use std::alloc::{AllocError, Global};

/// What a change does to the listed dumps.
#[derive(Debug, Drop)]
pub enum Relisting {
    /// A record is listed, where it fits.
    Put(DumpRecord),
    /// Each dump of an initial id goes.
    DropSet { initial: u32 },
    /// The dump of an id goes.
    DropDump { id: u32 },
}

/// What a change does to the listed dumps, with a copy of its record; `None` where it does nothing to them.
pub(crate) fn relisting_of(change: &Change) -> Result<Option<Relisting>, AllocError>
    ensures { IfOk result (λ one. one ≡ relisting_of change.now) }
{
    Ok(match change {
        Change::Done1(dump) | Change::Found1(dump) => {
            Some(Relisting::Put(dump.as_record().clone()?))
        }
        Change::Done(dump) | Change::Found(dump) => Some(Relisting::Put(dump.clone()?)),
        Change::Take { initial } => Some(Relisting::DropSet { initial: *initial }),
        Change::Forget { id } => Some(Relisting::DropDump { id: *id }),
        Change::AddSet { .. }
        | Change::DelSet { .. }
        | Change::AddEntry { .. }
        | Change::DelEntry { .. }
        | Change::AddLevel { .. }
        | Change::SetExpiry { .. }
        | Change::DelLevel { .. }
        | Change::AddHost { .. }
        | Change::DelHost { .. }
        | Change::Begin { .. } => None,
    })
}

/// Puts what a change does to the listed dumps behind what others do.
fn push_relisting(relistings: &mut List<Relisting>, change: &Change) -> Result<(), AllocError>
    ensures { OnOk result (relistings.new ≡ relistings.old ++ cons_option (relisting_of change.now) []) }
{
    if let Some(one) = relisting_of(change)? {
        relistings.push(one)?;
    }
    Ok(())
}

/// What changes do to the listed dumps, in order, with copies of their records.
pub(crate) fn relistings_of(
    alloc: Global,
    changes: &[Change],
) -> Result<List<Relisting>, AllocError>
    ensures { IfOk result (λ coming. coming ≡ relistings_of changes.now) }
{
    let mut relistings = List::new(alloc);
    for change in changes {
        push_relisting(&mut relistings, change)?;
    }
    Ok(relistings)
}

/// What changes make of a database lists the dumps that their relistings list.
pub fn relistings_list_the_same()
    ensures { (changes : AnyList AnyChange) (db : AnyDatabase) → (after_from changes db).listed ≡ relisted_from (relistings_of changes) db.listed }
{}
