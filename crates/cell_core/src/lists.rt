//! One more in a list.

ghost use Rattle.std.specs.Prelude.{◌≡◌, ◌≤◌, OnOk, OnErr, vec_len};
ghost use Rattle.std.specs.List.{insert};

use std::alloc::AllocError;

/// Puts an item at a place of a list, in front of what stands there. Where memory is refused the list stays, and the item
/// is dropped.
pub(crate) fn insert_at<T: Drop>(items: &mut Vec<T>, at: usize, item: T) -> Result<(), AllocError>
    requires { at ≤ vec_len items.old }
    ensures ok { OnOk result (items.new.items ≡ insert items.old.items at item) }
    ensures err { OnErr result (items.new.items ≡ items.old.items) }
{
    items.insert(at, item)?;
    Ok(())
}
