//! Reading a log.

ghost use Rattle.std.specs.Prelude.{◌≡◌, ◌++◌, [], List as AnyList, ℕ};
ghost use Rattle.budb_changes.specs.declared.change.Change.{Change as AnyChange};
ghost use Rattle.budb_changes.specs.Bytes.{encoded_change, encoded};
ghost use Rattle.budb_changes.specs.Forms.{IsChange, AreChanges};
ghost use Rattle.budb_changes.specs.Decodes.{Decodes};

use crate::change::Change;
use crate::change_reading::read_change;
use crate::fault::ChangeFault;
use bk_text::List;
use byte_formats::ReadFault;
use std::alloc::Global;

/// The changes whose bytes these are, or the place at which the bytes stop being those of a list of changes. Memory is
/// taken for what was read, whatever a count says.
pub fn decode(alloc: Global, bytes: &[u8]) -> Result<List<Change>, ChangeFault>
    ensures { Decodes bytes.now result }
{
    let mut changes = List::new(alloc);
    let mut rest = bytes;
    while !rest.is_empty() {
        match read_change(alloc, rest) {
            Ok((change, after)) => {
                changes.push(change)?;
                rest = after;
            }
            Err(ReadFault::Bad { left }) => {
                return Err(ChangeFault::BadChange {
                    at: (bytes.len() - left) as u64,
                });
            }
            Err(ReadFault::Memory) => return Err(ChangeFault::Memory),
        }
    }
    Ok(changes)
}

/// Each list of changes has bytes of its own.
pub fn one_encoding()
    ensures { (a b : AnyList AnyChange) → AreChanges a → AreChanges b → encoded a ≡ encoded b → a ≡ b }
{}

/// No change's bytes begin those of another one, so that a change ends where its bytes say.
pub fn no_change_begins_another()
    ensures { (c d : AnyChange) (more : AnyList ℕ) → IsChange c → IsChange d → encoded_change c ++ more ≡ encoded_change d → (c ≡ d) × (more ≡ []) }
{}
