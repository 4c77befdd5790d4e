//! Changes that are ready to be committed.

ghost use Rattle.std.specs.Prelude.{◌≡◌, [], None, IsSome, IfOk, IfSome};
ghost use Rattle.std.specs.Option.{unwrap_or};
ghost use Rattle.budb_fold.specs.Database.{after_from};
ghost use Rattle.budb_changes.specs.Bytes.{encoded};
ghost use Rattle.budb_changes.specs.Forms.{AreChanges};
ghost use Rattle.budb_index.specs.Relistings.{relistings_of, relisted_from, HasRoom};
ghost use Rattle.budb.specs.Views.{changes_of, IsPrepared, CatchesUp};

use crate::copies::{Behind, made};
use bk_text::{Bytes, List, Out};
use budb_index::{Index, Relisting, follow};
use budb_journal::{Change, Database, encode};
use std::alloc::{AllocError, Global};
use std::mem::replace;

/// Changes, their bytes, the database after them, and what they do to the index: all that a commit needs.
pub(crate) struct Prepared {
    pub(crate) changes: List<Change>,
    pub(crate) bytes: Bytes,
    pub(crate) database: Database,
    pub(crate) coming: List<Relisting>,
}

/// It is written out, so that who lets it go calls it: derived, it would be proved once more at each such place.
impl Drop for Prepared {
    fn drop(self) {
        let Prepared {
            changes,
            bytes,
            database,
            coming,
        } = self;
    }
}

/// The bytes of changes.
pub(crate) fn bytes_of(alloc: Global, changes: &[Change]) -> Result<Bytes, AllocError>
    ensures bytes { IfOk result (λ bytes. bytes ≡ encoded changes.now) }
    ensures form { IfOk result (λ bytes. AreChanges changes.now) }
{
    let mut out = Out::new(alloc);
    encode(alloc, changes, &mut out)?;
    Ok(out.into_bytes())
}

/// A copy of changes.
fn copied(alloc: Global, changes: &[Change]) -> Result<List<Change>, AllocError>
    ensures { IfOk result (λ copy. copy ≡ changes.now) }
{
    Ok(List::from_vec(changes.to_vec(alloc)?))
}

/// Changes twice over, to keep and to make, and their bytes.
fn parts_of(
    alloc: Global,
    changes: &[Change],
) -> Result<(List<Change>, List<Change>, Bytes), AllocError>
    ensures kept { IfOk result (λ parts. parts.0 ≡ changes.now) }
    ensures making { IfOk result (λ parts. parts.1 ≡ changes.now) }
    ensures bytes { IfOk result (λ parts. parts.2 ≡ encoded changes.now) }
    ensures form { IfOk result (λ parts. AreChanges changes.now) }
{
    let kept = copied(alloc, changes)?;
    let making = copied(alloc, changes)?;
    let bytes = bytes_of(alloc, changes)?;
    Ok((kept, making, bytes))
}

impl Prepared {
    /// Encodes changes, and makes them of a copy of the database. What they do to the index is given.
    pub(crate) fn new(
        copy: Database,
        changes: &[Change],
        coming: List<Relisting>,
    ) -> Result<Prepared, AllocError>
        ensures changes { IfOk result (λ one. one.changes ≡ changes.now) }
        ensures form { IfOk result (λ one. AreChanges changes.now) }
        ensures bytes { IfOk result (λ one. one.bytes ≡ encoded changes.now) }
        ensures database { IfOk result (λ one. one.database ≡ after_from changes.now copy) }
        ensures coming { IfOk result (λ one. one.coming ≡ coming) }
    {
        let (changes, making, bytes) = parts_of(copy.sets.allocator(), changes)?;
        let database = made(copy, making)?;
        Ok(Prepared {
            changes,
            bytes,
            database,
            coming,
        })
    }

    /// The changes, the database after them, and what they do to the index.
    fn into_parts(self) -> (List<Change>, Database, List<Relisting>)
        ensures changes { result.0 ≡ self.changes }
        ensures database { result.1 ≡ self.database }
        ensures coming { result.2 ≡ self.coming }
    {
        let Prepared {
            changes,
            bytes,
            database,
            coming,
        } = self;
        (changes, database, coming)
    }
}

/// Moves the database after prepared changes in, and has the index follow. The one before is kept as the copy that is behind. It
/// takes no memory.
pub(crate) fn move_in(
    database: &mut Database,
    index: &mut Index,
    behind: &mut Option<Behind>,
    prepared: Prepared,
)
    requires room { HasRoom index.old prepared.coming }
    requires after { prepared.database ≡ after_from prepared.changes database.old }
    ensures database { database.new ≡ prepared.database }
    ensures index { index.new.listed ≡ relisted_from prepared.coming index.old.listed }
    ensures behind { IfSome behind.new (CatchesUp database.new) }
{
    let (changes, after, coming) = prepared.into_parts();
    let before = replace(database, after);
    *behind = Some(Behind {
        database: before,
        changes,
    });
    follow(index, coming);
}

/// Takes the prepared changes away.
pub(crate) fn take_ready(
    database: &Database,
    index: &Index,
    prepared: &mut Option<Prepared>,
) -> Prepared
    requires ready { IfSome prepared.old (IsPrepared database.now index.now) }
    requires some { IsSome prepared.old }
    ensures nothing { prepared.new ≡ None }
    ensures changes { result.changes ≡ unwrap_or (changes_of prepared.old) [] }
    ensures form { AreChanges (unwrap_or (changes_of prepared.old) []) }
    ensures bytes { result.bytes ≡ encoded (unwrap_or (changes_of prepared.old) []) }
    ensures database { result.database ≡ after_from (unwrap_or (changes_of prepared.old) []) database.now }
    ensures coming { result.coming ≡ relistings_of (unwrap_or (changes_of prepared.old) []) }
    ensures room { HasRoom index.now result.coming }
{
    prepared.take().unwrap()
}
