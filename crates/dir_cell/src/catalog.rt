//! What is known of a folder's images, in ascending byte order of their names.

ghost use Rattle.std.specs.Prelude.{◌≡◌, ◌<◌, ◌≤◌, length, vec_len, vec_capacity, slice_set, None, IsSome, IfSome, OnOk};
ghost use Rattle.cell_core.specs.Listings.{most_volumes};
ghost use Rattle.std.specs.Option.{option_copied};
ghost use Rattle.std.specs.List.{insert, remove};
ghost use Rattle.dir_cell.specs.Catalogs.{IsCatalog, HasPlace, known_as, with_known, without_known, birth_of};

use crate::known::Known;
use cell_core::place_of;
use std::alloc::AllocError;

/// What is known under a name.
pub(crate) fn known_as<'a>(catalog: &'a [Known], name: &[u8]) -> Option<&'a Known>
    requires { IsCatalog catalog.now }
    ensures value { option_copied result ≡ known_as name.now catalog.now }
    ensures named { IfSome result (λ known. known.now.name ≡ name.now) }
{
    match place_of(catalog, name) {
        Ok(at) => Some(&catalog[at]),
        Err(_) => None,
    }
}

fn replace_at(catalog: &mut Vec<Known>, at: usize, known: Known)
    requires { at < vec_len catalog.old }
    ensures { catalog.new.items ≡ slice_set catalog.old.items at known }
{
    catalog[at] = known;
}

/// Puts one in front of what stands at a place. There is room for it, so that it takes no memory.
fn insert_at(catalog: &mut Vec<Known>, at: usize, known: Known)
    requires within { at ≤ vec_len catalog.old }
    requires room { vec_len catalog.old < vec_capacity catalog.old }
    ensures { catalog.new.items ≡ insert catalog.old.items at known }
{
    match catalog.insert(at, known) {
        Ok(()) => {}
        Err(_) => unreachable!(),
    }
}

/// Keeps what is known under its name, in place of what was. It takes no memory.
pub(crate) fn keep(catalog: &mut Vec<Known>, known: Known)
    requires catalog { IsCatalog catalog.old.items }
    requires place { HasPlace known.name catalog.old.items }
    requires room { vec_len catalog.old < vec_capacity catalog.old }
    ensures kept { catalog.new.items ≡ with_known known catalog.old.items }
    ensures catalog { IsCatalog catalog.new.items }
{
    match place_of(catalog, known.name.bytes()) {
        Ok(at) => replace_at(catalog, at, known),
        Err(at) => insert_at(catalog, at, known),
    }
}

fn take_out(catalog: &mut Vec<Known>, at: usize)
    requires { at < vec_len catalog.old }
    ensures { catalog.new.items ≡ remove catalog.old.items at }
{
    let _ = catalog.remove(at);
}

/// Forgets what is known under a name.
pub(crate) fn forget(catalog: &mut Vec<Known>, name: &[u8])
    requires { IsCatalog catalog.old.items }
    ensures forgotten { catalog.new.items ≡ without_known name.now catalog.old.items }
    ensures catalog { IsCatalog catalog.new.items }
{
    match place_of(catalog, name) {
        Ok(at) => take_out(catalog, at),
        Err(_) => {}
    }
}

/// Takes out what is known under a name.
pub(crate) fn taken_out(catalog: &mut Vec<Known>, name: &[u8]) -> Option<Known>
    requires { IsCatalog catalog.old.items }
    ensures taken { result ≡ known_as name.now catalog.old.items }
    ensures left { IsSome result → length catalog.new.items < most_volumes }
    ensures catalog { IsCatalog catalog.new.items }
{
    match place_of(catalog, name) {
        Ok(at) => Some(catalog.remove(at)),
        Err(_) => None,
    }
}

/// Adds what is known of a name, or what is known from now on.
pub(crate) fn add_known(catalog: &mut Vec<Known>, known: Known) -> Result<(), AllocError>
    requires catalog { IsCatalog catalog.old.items }
    requires place { length catalog.old.items < most_volumes }
    ensures catalog { OnOk result (IsCatalog catalog.new.items) }
{
    catalog.reserve(1)?;
    keep(catalog, known);
    Ok(())
}

/// The creation date of the read/write volume of a name; else 4,294,967,295.
pub(crate) fn birth_of(catalog: &[Known], name: &[u8]) -> u32
    requires { IsCatalog catalog.now }
    ensures { result ≡ birth_of (known_as name.now catalog.now) }
{
    match known_as(catalog, name) {
        Some(known) => {
            if known.standing.has_kind(0) {
                known.created
            } else {
                u32::MAX
            }
        }
        None => u32::MAX,
    }
}
