//! The increment of a volume from a time on.

ghost use Rattle.std.specs.Prelude.{◌≡◌, IfOk, IsTrue};
ghost use Rattle.vnode_model.specs.Increments.{is_whole_from, entry_from, entries_from, selected};
ghost use Rattle.vnode_model.specs.EntryRefs.{entry_of};
ghost use Rattle.vnode_model.specs.Limits.{AreFit};

use crate::increments::{Entry, Increment, IncrementFields};
use crate::vnodes::Vnode;
use crate::volumes::Volume;
use bk_text::List;
use std::alloc::{AllocError, Global};
use std::marker::Model;

/// Memory was refused.
pub type Memory = AllocError;

/// What an increment says of a vnode, by reference.
#[derive(Clone, Copy, Debug)]
pub enum EntryRef<'a> {
    /// The vnode with all its fields.
    Whole(&'a Vnode),
    /// A vnode by number alone: the base has it.
    Kept { number: u32, uniq: u32 },
}

/// The entries of a volume's increment, by reference and in order.
#[derive(Debug, Drop)]
pub struct SelectIter<'a> {
    vnodes: &'a [Vnode],
    from: u32,
}

impl<'a> Model for SelectIter<'a> {
    ghost use Rattle.std.specs.Prelude.{List, map};
    ghost use Rattle.vnode_model.specs.declared.increments.Entry.{Entry};
    ghost use Rattle.vnode_model.specs.Increments.{entry_from};

    ghost Value = { List Entry };

    ghost view = { λ a. map (entry_from a.from) a.vnodes.now };
}

/// Whether a vnode stands whole in an increment from this time on, in seconds since 1970: always from 0; else where it is
/// a directory, or the server changed it then or later. With its directories whole an increment shows the tree of its
/// volume, as the increments of OpenAFS do.
pub fn is_whole_from(from: u32, vnode: &Vnode) -> bool
    ensures { result ≡ is_whole_from from vnode.now }
{
    from == 0 || vnode.kind.is_directory() || vnode.server_modified >= from
}

fn entry_from(from: u32, vnode: &Vnode) -> EntryRef<'_>
    ensures { entry_of result ≡ entry_from from vnode.now }
{
    if is_whole_from(from, vnode) {
        EntryRef::Whole(vnode)
    } else {
        EntryRef::Kept {
            number: vnode.number,
            uniq: vnode.uniq,
        }
    }
}

/// The entry that a reference refers to, copied.
fn copied(entry: EntryRef<'_>) -> Result<Entry, Memory>
    ensures { IfOk result (λ copy. copy ≡ entry_of entry.entry) }
{
    match entry {
        EntryRef::Whole(vnode) => Ok(Entry::Whole(vnode.clone()?)),
        EntryRef::Kept { number, uniq } => Ok(Entry::Kept { number, uniq }),
    }
}

impl<'a> Iterator for SelectIter<'a> {
    type Item = EntryRef<'a>;

    ghost use Rattle.std.specs.Iterator.{YieldsFirstBy, item_count};
    ghost use Rattle.vnode_model.specs.EntryRefs.{entry_of};

    ghost next_gives = { YieldsFirstBy entry_of (λ s. s) };

    ghost remaining = { item_count (λ s. s) };

    fn next(&mut self) -> Option<EntryRef<'a>> {
        let (first, others) = self.vnodes.split_first()?;
        self.vnodes = others;
        Some(entry_from(self.from, first))
    }
}

/// The entries of a volume's increment from a time on, in seconds since 1970; `is_whole_from` says which are whole. They
/// are those of `select`, by reference. It takes no memory.
pub fn select_iter(volume: &Volume, from: u32) -> SelectIter<'_>
    ensures value { result ≡ entries_from volume.now from }
    ensures form { AreFit result }
{
    SelectIter {
        vnodes: volume.vnodes(),
        from,
    }
}

/// Its entries, copied.
fn entries_of(alloc: Global, volume: &Volume, from: u32) -> Result<List<Entry>, Memory>
    ensures value { IfOk result (λ entries. entries ≡ entries_from volume.now from) }
    ensures form { AreFit (entries_from volume.now from) }
{
    let mut entries = List::new(alloc);
    let all = select_iter(volume, from);
    for entry in all {
        entries.push(copied(entry)?)?;
    }
    Ok(entries)
}

/// The increment of a volume from a time on, in seconds since 1970; `is_whole_from` says which vnodes are whole. `to` is
/// the time of the volume's state.
pub fn select(alloc: Global, volume: &Volume, from: u32, to: u32) -> Result<Increment, Memory>
    ensures { IfOk result (λ increment. increment ≡ selected volume.now from to) }
{
    let entries = entries_of(alloc, volume, from)?;
    let header = volume.header().clone()?;
    Ok(Increment::new(IncrementFields {
        dump_id: header.fields().id,
        dump_name: header.fields().name.clone()?,
        from,
        to,
        header,
        entries,
    }))
}
