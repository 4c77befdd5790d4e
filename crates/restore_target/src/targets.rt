//! The id that a restored volume gets.

ghost use Rattle.std.specs.Prelude.{◌≡◌, OnOk};
ghost use Rattle.crash_moments.specs.Moments.{HasCauseAt};
ghost use Rattle.bk_text.specs.Alphabets.{IsName};
ghost use Rattle.restore_target.specs.Targets.{id_over, target_id};
ghost use Rattle.restore_target.specs.Answers.{Tells};

use crate::looking::{look, standing_in};
use bk_text::Name;
use cell_core::{Cell, CellFault, Standing, new_id};
use std::alloc::Global;

/// The id by what has the name, and by the id that a new volume would get.
fn id_over(standing: Option<Standing>, new: Option<u32>) -> Result<u32, CellFault>
    ensures { result ≡ id_over standing new }
{
    match standing {
        Some(Standing::Volume { id, .. }) => Ok(id),
        Some(Standing::Bad { at }) => Err(CellFault::BadImage { at }),
        None => match new {
            Some(id) => Ok(id),
            None => Err(CellFault::TooLarge),
        },
    }
}

/// The id that a volume gets that is restored under this name: that of the volume which has the name, else a new one.
/// `TooLarge` where the text is no name, or is a new one and no volume or no id is free; `BadImage` where what has the name
/// is no volume. The cell's list stays. (The rule is this project's own.)
pub fn target_id<C: Cell>(alloc: Global, cell: &mut C, name: &[u8]) -> Result<u32, CellFault>
    ensures id { C.tells → Tells (target_id (C.list cell.old) name.now) (C.list cell.old) result (C.list cell.new) }
    ensures form { OnOk result (IsName name.now) }
    ensures list { C.tells → C.list cell.new ≡ C.list cell.old }
    ensures cause { HasCauseAt CellFault.Failed (C.faults cell.old) (C.faults cell.new) result }
{
    if !Name::is_name(name) {
        return Err(CellFault::TooLarge);
    }
    let all = look(alloc, cell)?;
    let all = all.as_slice();
    id_over(standing_in(all, name), new_id(all))
}
