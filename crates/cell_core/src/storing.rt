//! What is stored under names: one more, one less, or another one in its place.

ghost use Rattle.std.specs.Prelude.{◌≡◌, ◌<◌, None, IfOk, OnOk, OnErr, length, vec_len, slice_set};
ghost use Rattle.std.specs.List.{remove};
ghost use Rattle.cell_core.specs.Places.{FoundAt, FreeAt};
ghost use Rattle.cell_core.specs.Listings.{name_order, most_volumes};
ghost use Rattle.cell_core.specs.Cells.{IsCell, IsImageOf, name_of, stored_as, with_stored, without_stored};
ghost use Rattle.cell_core.specs.Calls.{stored_volume, without_backup};

use crate::listed::{Listed, place_of};
use crate::lists::insert_at;
use crate::stored::{Image, Stored};
use bk_text::{Host, Name, Part};
use std::alloc::AllocError;
use vnode_model::Volume;

/// A place and a name, once more.
fn names_of(
    server: &Host,
    partition: &Part,
    volume: &Volume,
) -> Result<(Name, Host, Part), AllocError>
    ensures name { IfOk result (λ names. names.0 ≡ volume.now.header.name) }
    ensures server { IfOk result (λ names. names.1 ≡ server.now) }
    ensures partition { IfOk result (λ names. names.2 ≡ partition.now) }
{
    let name = volume.header().fields().name.clone()?;
    let server = server.clone()?;
    let partition = partition.clone()?;
    Ok((name, server, partition))
}

/// A volume at a place and under a name.
fn stored_at(names: (Name, Host, Part), volume: Volume) -> Stored
    ensures { result ≡ record { name = names.0; server = names.1; partition = names.2; image = Image.Good volume } }
{
    let (name, server, partition) = names;
    Stored {
        name,
        server,
        partition,
        image: Image::Good(volume),
    }
}

/// A volume as it is stored.
pub(crate) fn stored_volume(
    server: &Host,
    partition: &Part,
    volume: Volume,
) -> Result<Stored, AllocError>
    ensures value { IfOk result (λ stored. stored ≡ stored_volume server.now partition.now volume) }
    ensures form { IfOk result (λ stored. IsImageOf stored.name stored.image) }
{
    let names = names_of(server, partition, &volume)?;
    Ok(stored_at(names, volume))
}

/// Puts what is to be stored at a place.
fn replace_at(cell: &mut Vec<Stored>, at: usize, stored: Stored)
    requires { at < vec_len cell.old }
    ensures { cell.new.items ≡ slice_set cell.old.items at stored }
{
    cell[at] = stored;
}

/// Stores something in place of what has its name.
pub(crate) fn store_over(cell: &mut Vec<Stored>, at: usize, stored: Stored)
    requires cell { IsCell cell.old.items }
    requires image { IsImageOf stored.name stored.image }
    requires found { FoundAt name_order name_of stored.name cell.old.items at }
    ensures stored { cell.new.items ≡ with_stored stored cell.old.items }
    ensures cell { IsCell cell.new.items }
{
    replace_at(cell, at, stored);
}

/// Stores something under a name that isn't there. Where memory is refused the cell stays.
pub(crate) fn store_new(cell: &mut Vec<Stored>, at: usize, stored: Stored) -> Result<(), AllocError>
    requires cell { IsCell cell.old.items }
    requires image { IsImageOf stored.name stored.image }
    requires free { FreeAt name_order name_of stored.name cell.old.items at }
    requires room { length cell.old.items < most_volumes }
    ensures stored { OnOk result (cell.new.items ≡ with_stored stored cell.old.items) }
    ensures err { OnErr result (cell.new.items ≡ cell.old.items) }
    ensures cell { IsCell cell.new.items }
{
    insert_at(cell, at, stored)
}

/// Stores something under its name.
pub(crate) fn store(cell: &mut Vec<Stored>, stored: Stored) -> Result<(), AllocError>
    requires cell { IsCell cell.old.items }
    requires image { IsImageOf stored.name stored.image }
    requires room { stored_as stored.name cell.old.items ≡ None → length cell.old.items < most_volumes }
    ensures stored { OnOk result (cell.new.items ≡ with_stored stored cell.old.items) }
    ensures err { OnErr result (cell.new.items ≡ cell.old.items) }
    ensures cell { IsCell cell.new.items }
{
    match place_of(cell, stored.name.bytes()) {
        Ok(at) => {
            store_over(cell, at, stored);
            Ok(())
        }
        Err(at) => store_new(cell, at, stored),
    }
}

/// Takes out what stands at a place.
fn take_out(cell: &mut Vec<Stored>, at: usize)
    requires { at < vec_len cell.old }
    ensures { cell.new.items ≡ remove cell.old.items at }
{
    let _ = cell.remove(at);
}

/// Takes away what stands under a name.
pub(crate) fn remove_named(cell: &mut Vec<Stored>, name: &[u8])
    requires { IsCell cell.old.items }
    ensures removed { cell.new.items ≡ without_stored name.now cell.old.items }
    ensures cell { IsCell cell.new.items }
{
    match place_of(cell, name) {
        Ok(at) => take_out(cell, at),
        Err(_) => {}
    }
}

/// Takes away the backup volume of a name, where there is one.
pub(crate) fn remove_backup(cell: &mut Vec<Stored>, name: &[u8])
    requires { IsCell cell.old.items }
    ensures removed { cell.new.items ≡ without_backup name.now cell.old.items }
    ensures cell { IsCell cell.new.items }
{
    match place_of(cell, name) {
        Ok(at) => {
            if cell[at].standing().has_kind(2) {
                remove_named(cell, name);
            }
        }
        Err(_) => {}
    }
}
