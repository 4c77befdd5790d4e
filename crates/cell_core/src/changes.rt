//! What a file server makes of one volume's vnodes and header.

ghost use Rattle.std.specs.Prelude.{◌≡◌, ℕ, ◌<◌, ◌≤◌, None, vec_len};
ghost use Rattle.vnode_model.specs.Headers.{IsVolHeader};
ghost use Rattle.vnode_model.specs.Limits.{AreVolume};
ghost use Rattle.cell_core.specs.Places.{FoundAt, FreeAt};
ghost use Rattle.cell_core.specs.Vnodes.{number_order, number_of_vnode, vnode_of};
ghost use Rattle.cell_core.specs.Volumes.{updated_header, written_over, written_volume, volume_without};
ghost use Rattle.cell_core.specs.Changing.{volume_from, outcome_of, Settles};

use crate::fault::CellFault;
use crate::lists::insert_at;
use crate::places::place_of_number;
use crate::vnodes::{data_of, kib_of, made_vnode, rewrite};
use bk_text::List;
use std::alloc::Global;
use vnode_model::{
    ALL_DATA, Body, HeaderFields, MOST_DATA, MOST_VNODES, Vnode, VolHeader, Volume, VolumeFields,
};

/// A change of a volume's vnodes.
#[derive(Clone, Copy, Debug)]
pub enum Change<'a> {
    /// The data of a vnode is replaced; one that isn't there is made.
    Write { number: u32, body: &'a [u8] },
    /// A vnode is taken away.
    Remove { number: u32 },
}

/// The header after a change to these vnodes.
fn update_header(header: &mut HeaderFields, vnodes: &[Vnode], now: u32)
    requires { AreVolume vnodes.now }
    ensures { header.new ≡ updated_header vnodes.now now header.old }
{
    header.updated = now;
    header.file_count = vnodes.len() as u32;
    header.disk_used = kib_of(vnodes);
}

/// Writes data to the vnode at a place.
fn write_there(
    alloc: Global,
    header: &mut HeaderFields,
    vnodes: &mut Vec<Vnode>,
    at: usize,
    body: &[u8],
    now: u32,
) -> Result<(), CellFault>
    requires volume { AreVolume vnodes.old.items }
    requires there { at < vec_len vnodes.old }
    ensures answer { (k : ℕ) → FoundAt number_order number_of_vnode k vnodes.old.items at → Settles (written_over (vnode_of k vnodes.old.items) (volume_from header.old vnodes.old.items) k body.now now) (volume_from header.old vnodes.old.items) result (volume_from header.new vnodes.new.items) }
    ensures volume { AreVolume vnodes.new.items }
    ensures header { IsVolHeader header.old → IsVolHeader header.new }
    ensures name { header.new.name ≡ header.old.name }
{
    let others = data_of(vnodes) - vnodes[at].body.len();
    if body.len() > MOST_DATA {
        return Err(CellFault::TooLarge);
    }
    if others + body.len() > ALL_DATA {
        return Err(CellFault::TooLarge);
    }
    let copy = Body::from_slice(alloc, body)?;
    rewrite(&mut vnodes[at], copy, now);
    update_header(header, vnodes, now);
    Ok(())
}

/// Writes data to a vnode that is made for it, at its place.
fn write_new(
    alloc: Global,
    header: &mut HeaderFields,
    vnodes: &mut Vec<Vnode>,
    at: usize,
    number: u32,
    body: &[u8],
    now: u32,
) -> Result<(), CellFault>
    requires volume { AreVolume vnodes.old.items }
    requires free { FreeAt number_order number_of_vnode number vnodes.old.items at }
    requires number { 1 ≤ number }
    ensures answer { Settles (written_over None (volume_from header.old vnodes.old.items) number body.now now) (volume_from header.old vnodes.old.items) result (volume_from header.new vnodes.new.items) }
    ensures volume { AreVolume vnodes.new.items }
    ensures header { IsVolHeader header.old → IsVolHeader header.new }
    ensures name { header.new.name ≡ header.old.name }
{
    if header.uniq == u32::MAX || vnodes.len() >= MOST_VNODES {
        return Err(CellFault::TooLarge);
    }
    if body.len() > MOST_DATA || data_of(vnodes) + body.len() > ALL_DATA {
        return Err(CellFault::TooLarge);
    }
    let copy = Body::from_slice(alloc, body)?;
    let vnode = made_vnode(number, header.uniq, copy, now);
    insert_at(vnodes, at, vnode)?;
    header.uniq += 1;
    update_header(header, vnodes, now);
    Ok(())
}

/// Writes data to the vnode of a number.
fn write_parts(
    alloc: Global,
    header: &mut HeaderFields,
    vnodes: &mut Vec<Vnode>,
    number: u32,
    body: &[u8],
    now: u32,
) -> Result<(), CellFault>
    requires { AreVolume vnodes.old.items }
    ensures answer { Settles (written_volume number body.now now (volume_from header.old vnodes.old.items)) (volume_from header.old vnodes.old.items) result (volume_from header.new vnodes.new.items) }
    ensures volume { AreVolume vnodes.new.items }
    ensures header { IsVolHeader header.old → IsVolHeader header.new }
    ensures name { header.new.name ≡ header.old.name }
{
    if number == 0 {
        return Err(CellFault::TooLarge);
    }
    match place_of_number(vnodes, number) {
        Ok(at) => write_there(alloc, header, vnodes, at, body, now),
        Err(at) => write_new(alloc, header, vnodes, at, number, body, now),
    }
}

/// Takes the vnode of a number away.
fn remove_parts(
    header: &mut HeaderFields,
    vnodes: &mut Vec<Vnode>,
    number: u32,
    now: u32,
) -> Result<(), CellFault>
    requires { AreVolume vnodes.old.items }
    ensures answer { Settles (volume_without number now (volume_from header.old vnodes.old.items)) (volume_from header.old vnodes.old.items) result (volume_from header.new vnodes.new.items) }
    ensures volume { AreVolume vnodes.new.items }
    ensures header { IsVolHeader header.old → IsVolHeader header.new }
    ensures name { header.new.name ≡ header.old.name }
{
    match place_of_number(vnodes, number) {
        Ok(at) => {
            let _ = vnodes.remove(at);
            update_header(header, vnodes, now);
            Ok(())
        }
        Err(_) => Err(CellFault::NoVnode),
    }
}

/// Makes a change.
fn change_parts(
    alloc: Global,
    header: &mut HeaderFields,
    vnodes: &mut Vec<Vnode>,
    change: Change<'_>,
    now: u32,
) -> Result<(), CellFault>
    requires { AreVolume vnodes.old.items }
    ensures answer { Settles (outcome_of change.entry now (volume_from header.old vnodes.old.items)) (volume_from header.old vnodes.old.items) result (volume_from header.new vnodes.new.items) }
    ensures volume { AreVolume vnodes.new.items }
    ensures header { IsVolHeader header.old → IsVolHeader header.new }
    ensures name { header.new.name ≡ header.old.name }
{
    match change {
        Change::Write { number, body } => write_parts(alloc, header, vnodes, number, body, now),
        Change::Remove { number } => remove_parts(header, vnodes, number, now),
    }
}

/// Changes a volume, which stays where that is refused.
pub fn change_volume(
    alloc: Global,
    volume: Volume,
    change: Change<'_>,
    now: u32,
) -> (Volume, Result<(), CellFault>)
    ensures answer { Settles (outcome_of change.entry now volume) volume result.1 result.0 }
    ensures form { AreVolume result.0.vnodes }
    ensures name { result.0.header.name ≡ volume.header.name }
{
    let VolumeFields { header, vnodes } = volume.into_fields();
    let mut header = header.into_fields();
    let mut vnodes = vnodes.into_vec();
    let answer = change_parts(alloc, &mut header, &mut vnodes, change, now);
    let fields = VolumeFields {
        header: VolHeader::new(header),
        vnodes: List::from_vec(vnodes),
    };
    (Volume::from_fields(fields), answer)
}
