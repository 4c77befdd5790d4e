//! Lists of changes.

ghost use Rattle.std.specs.Prelude.{◌≡◌, ◌++◌, ◌∷◌, [], IfOk};

use bk_text::List;
use budb_journal::Change;
use std::alloc::AllocError;

/// A list with one change more.
pub(crate) fn with_change(changes: List<Change>, change: Change) -> Result<List<Change>, AllocError>
    ensures { IfOk result (λ longer. longer ≡ changes ++ change ∷ []) }
{
    let mut changes = changes;
    changes.push(change)?;
    Ok(changes)
}
