//! Where a number stands in a volume.

ghost use Rattle.std.specs.Prelude.{◌≡◌, MatchResult};
ghost use Rattle.vnode_model.specs.Limits.{AreVolume};
ghost use Rattle.cell_core.specs.Places.{FoundAt, FreeAt};
ghost use Rattle.cell_core.specs.Vnodes.{number_order, number_of_vnode};

use std::cmp::Ordering;
use vnode_model::{Vnode, stands_before};

/// How two numbers of vnodes stand to each other in a volume.
fn number_order(first: u32, second: u32) -> Ordering
    ensures { result ≡ number_order first second }
{
    if stands_before(first, second) {
        Ordering::Less
    } else if first == second {
        Ordering::Equal
    } else {
        Ordering::Greater
    }
}

/// Where a number stands, or where it would stand.
pub(crate) fn place_of_number(vnodes: &[Vnode], number: u32) -> Result<usize, usize>
    requires { AreVolume vnodes.now }
    ensures { MatchResult result (FoundAt number_order number_of_vnode number vnodes.now) (FreeAt number_order number_of_vnode number vnodes.now) }
{
    vnodes.binary_search_by(|vnode| number_order(vnode.number, number))
}
