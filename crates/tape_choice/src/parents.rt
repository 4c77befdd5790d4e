//! The chain of a dump's parents.

ghost use Rattle.std.specs.Prelude.{◌≡◌, IfOk};
ghost use Rattle.tape_choice.specs.Choice.{initials_above};

use bk_text::List;
use budb_changes::DumpRecord;
use budb_fold::record_of;
use std::alloc::{AllocError, Global};

/// The initial ids of the listed dump of an id, of its parent, and so on while they are listed: tapes of these dump sets
/// aren't taken by a dump whose parent has this id.
pub fn initials_above(
    alloc: Global,
    listed: &[DumpRecord],
    parent: u32,
) -> Result<List<u32>, AllocError>
    ensures { IfOk result (λ ids. ids ≡ initials_above listed.now parent) }
{
    let mut initials = List::new(alloc);
    let mut next = parent;
    for _step in 0..listed.len() {
        let Some(dump) = record_of(listed, next) else {
            return Ok(initials);
        };
        initials.push(dump.fields().initial)?;
        next = dump.fields().parent;
    }
    Ok(initials)
}
