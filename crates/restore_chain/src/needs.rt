//! The tapes of a chain in playing order.

ghost use Rattle.std.specs.Prelude.{◌≡◌, ◌++◌, List as AnyList, map, IfOk, OnOk};
ghost use Rattle.std.specs.List.{flat_map};
ghost use Rattle.tape_frames.specs.TapeNames.{numbered};
ghost use Rattle.archive_model.specs.Archives.{needs};
ghost use Rattle.archive_model.specs.Plays.{records_of};
ghost use Rattle.restore_chain.specs.Planning.{need_at, needs_by, needs_in};
ghost use Rattle.budb_fold.specs.Lookups.{volume_of};

use bk_text::TapeName;
use budb::Budb;
use budb_changes::{DumpRecord, Frag};
use budb_fold::volume_of;
use std::alloc::{AllocError, Global};
use std::marker::Model;
use tape_frames::tape_name;

/// A tape that a chain is played from, with the dump whose record names it.
#[derive(Drop)]
pub(crate) struct Need<'a> {
    /// The dump.
    pub(crate) dump: &'a DumpRecord,
    /// The number of the tape in its dump set.
    pub(crate) tape: u32,
}

impl<'a> Model for Need<'a> {
    ghost use Rattle.archive_model.specs.Archives.{Need};

    ghost Value = { Need };

    ghost view = { λ n. record { dump = n.dump.now; tape = n.tape } };
}

impl Need<'_> {
    /// The name of the tape.
    pub(crate) fn name(&self, alloc: Global) -> Result<TapeName, AllocError>
        ensures { IfOk result (λ name. name ≡ numbered self.now.dump.base self.now.tape) }
    {
        tape_name(alloc, &self.dump.fields().base, self.tape)
    }
}

/// Puts what a dump needs for fragments behind what is there.
fn push_frags<'a>(
    needs: &mut Vec<Need<'a>>,
    dump: &'a DumpRecord,
    frags: &[Frag],
) -> Result<(), AllocError>
    ensures { OnOk result (needs.new.items ≡ needs.old.items ++ map (need_at dump.now) frags.now) }
{
    for frag in frags {
        needs.push(Need {
            dump,
            tape: frag.tape,
        })?;
    }
    Ok(())
}

/// Puts what a dump needs for a volume behind what is there.
fn push_dump<'a>(
    needs: &mut Vec<Need<'a>>,
    dump: &'a DumpRecord,
    name: &[u8],
) -> Result<(), AllocError>
    ensures { OnOk result (needs.new.items ≡ needs.old.items ++ needs_by dump.now (volume_of dump.now name.now)) }
{
    match volume_of(dump, name) {
        None => Ok(()),
        Some(volume) => push_frags(needs, dump, volume.fields().frags.as_slice()),
    }
}

/// Puts what the dump of an id needs for a volume behind what is there.
fn push_listed<'a>(
    needs: &mut Vec<Need<'a>>,
    budb: &'a Budb,
    id: u32,
    name: &[u8],
) -> Result<(), AllocError>
    ensures { OnOk result (needs.new.items ≡ needs.old.items ++ needs_in budb.now.database.listed name.now id) }
{
    match budb.record(id) {
        None => Ok(()),
        Some(dump) => push_dump(needs, dump, name),
    }
}

/// The tapes of a chain in playing order: the chain's, and in a dump that of the volume's fragments.
pub(crate) fn needs_of_chain<'a>(
    alloc: Global,
    budb: &'a Budb,
    ids: &[u32],
    name: &[u8],
) -> Result<Vec<Need<'a>>, AllocError>
    ensures { IfOk result (λ found. found.items ≡ needs budb.now.database.listed ids.now name.now) }
{
    let mut needs = Vec::new(alloc);
    for id in ids {
        push_listed(&mut needs, budb, *id, name)?;
    }
    Ok(needs)
}
