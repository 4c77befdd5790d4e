//! What is seen of a cell's list by its entries.

ghost use Rattle.std.specs.Prelude.{◌≡◌, ◌<◌, IfOk, Some, map, find, slice_get};
ghost use Rattle.crash_moments.specs.Moments.{HasCauseAt};
ghost use Rattle.cell_core.specs.Answers.{OnlyFromOutside};
ghost use Rattle.restore_target.specs.Seen.{seen_of, standing_by, is_named, standing_in};

use bk_text::{List, Name};
use cell_core::{Cell, CellFault, Listed, Standing};
use std::alloc::Global;
use vnode_model::EntryState;

/// What is seen of a volume: its name, and what stands there.
#[derive(Debug, Drop)]
pub(crate) struct Seen {
    pub(crate) name: Name,
    pub(crate) standing: Standing,
}

impl Listed for Seen {
    ghost use Rattle.restore_target.specs.Seen.{name_of, standing_seen};

    ghost name_of = { name_of };

    ghost standing_of = { standing_seen };

    fn name(&self) -> &[u8]
        ensures { result.now ≡ name_of self.now }
    {
        self.name.bytes()
    }

    fn standing(&self) -> Standing
        ensures { result ≡ standing_seen self.now }
    {
        self.standing
    }
}

/// What an entry tells of a volume.
fn standing_by(state: EntryState) -> Standing
    ensures { result ≡ standing_by state }
{
    match state {
        EntryState::Good { id, kind, .. } => Standing::Volume { id, kind },
        EntryState::Bad { at } => Standing::Bad { at },
    }
}

/// What is seen of one volume of a cell. Its list stays.
fn look_at<C: Cell>(cell: &mut C, i: u32) -> Result<Seen, CellFault>
    requires { i < C.size cell.old }
    ensures seen { C.tells → IfOk result (λ seen. slice_get (map seen_of (C.list cell.old)) i ≡ Some seen) }
    ensures list { C.tells → C.list cell.new ≡ C.list cell.old }
    ensures errors { OnlyFromOutside result }
    ensures size { C.size cell.new ≡ C.size cell.old }
    ensures cause { HasCauseAt CellFault.Failed (C.faults cell.old) (C.faults cell.new) result }
{
    let entry = cell.entry(i)?;
    Ok(Seen {
        name: entry.name,
        standing: standing_by(entry.state),
    })
}

/// What is seen of all volumes of a cell, in their order. Its list stays.
pub(crate) fn look<C: Cell>(alloc: Global, cell: &mut C) -> Result<List<Seen>, CellFault>
    ensures seen { C.tells → IfOk result (λ seen. seen ≡ map seen_of (C.list cell.old)) }
    ensures errors { OnlyFromOutside result }
    ensures list { C.tells → C.list cell.new ≡ C.list cell.old }
    ensures cause { HasCauseAt CellFault.Failed (C.faults cell.old) (C.faults cell.new) result }
{
    let mut all = List::new(alloc);
    for i in 0..cell.count() {
        let seen = look_at(cell, i)?;
        all.push(seen)?;
    }
    Ok(all)
}

/// Whether a volume has this name.
fn is_named(seen: &Seen, name: &[u8]) -> bool
    ensures { result ≡ is_named name.now seen.now }
{
    seen.name.bytes().cmp(name).is_eq()
}

/// What stands under a name.
pub(crate) fn standing_in(all: &[Seen], name: &[u8]) -> Option<Standing>
    ensures { result ≡ standing_in (find (is_named name.now) all.now) }
{
    match all.iter().find(|seen| is_named(seen, name)) {
        Some(seen) => Some(seen.standing),
        None => None,
    }
}
