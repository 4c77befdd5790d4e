//! What a cell's list decides by names, ids and types alone: what stands under a name, whether a volume is free, and which id
//! a volume gets. Every cell asks this, whatever it keeps of its volumes. The rule of ids is this project's own.

ghost use Rattle.std.specs.Prelude.{◌≡◌, ℕ, ◌^◌, ◌<◌, List, MatchResult};
ghost use Rattle.cell_core.specs.declared.standing.Standing.{Standing};
ghost use Rattle.cell_core.specs.Orders.{AreAscending, of_key};
ghost use Rattle.cell_core.specs.Places.{FoundAt, FreeAt};
ghost use Rattle.cell_core.specs.Listings.{name_order, is_full, greatest_id, id_after, free_id, new_id, backup_id_where};

use crate::standing::Standing;

/// One of a cell's list.
pub trait Listed {
    /// Its name.
    ghost name_of: { Self → List ℕ };

    /// What stands there.
    ghost standing_of: { Self → Standing };

    /// The bytes of its name.
    fn name(&self) -> &[u8]
        ensures { result.now ≡ name_of self.now };

    /// What stands there.
    fn standing(&self) -> Standing
        ensures { result ≡ standing_of self.now };
}

/// Where a name stands in a list in ascending byte order of the names, or where it would stand.
pub fn place_of<T: Listed>(all: &[T], name: &[u8]) -> Result<usize, usize>
    requires { AreAscending name_order T.name_of all.now }
    ensures { MatchResult result (FoundAt name_order T.name_of name.now all.now) (FreeAt name_order T.name_of name.now all.now) }
{
    all.binary_search_by(|item| item.name().cmp(name))
}

/// The most volumes of a cell.
const MOST_VOLUMES: usize = 65_536;

/// Whether no volume is free.
pub fn is_full<T>(all: &[T]) -> bool
    ensures { result ≡ is_full all.now }
{
    all.len() >= MOST_VOLUMES
}

/// The greatest id of the volumes; 0 where there is none.
fn greatest_id<T: Listed>(all: &[T]) -> u32
    ensures { result ≡ greatest_id T.standing_of all.now }
{
    let mut greatest = 0;
    for item in all {
        greatest = greatest.max(item.standing().id());
    }
    greatest
}

/// The least of 536,870,912, 536,870,915 and so on, three by three, that is greater than this id.
pub(crate) fn id_after(id: u64) -> u64
    requires { id < 2 ^ 32 }
    ensures { result ≡ id_after id }
{
    if id < 536_870_912 {
        536_870_912
    } else {
        536_870_912 + 3 * ((id - 536_870_912) / 3 + 1)
    }
}

/// The least id of that row that is greater than every volume's, where one is free.
pub fn free_id<T: Listed>(all: &[T]) -> Option<u32>
    ensures { result ≡ free_id T.standing_of all.now }
{
    let id = id_after(u64::from(greatest_id(all)));
    if id < 4_294_967_296 {
        Some(id as u32)
    } else {
        None
    }
}

/// The id of a volume under a new name, where a volume and an id are free.
pub fn new_id<T: Listed>(all: &[T]) -> Option<u32>
    ensures { result ≡ new_id T.standing_of all.now }
{
    if is_full(all) { None } else { free_id(all) }
}

/// The id of a backup volume of this name: that of the volume that has the name, else a new one, where one is free.
pub fn backup_id<T: Listed>(all: &[T], name: &[u8]) -> Option<u32>
    requires { AreAscending name_order T.name_of all.now }
    ensures { result ≡ backup_id_where T.standing_of (of_key name_order T.name_of name.now all.now) all.now }
{
    match place_of(all, name) {
        Ok(at) => match all[at].standing() {
            Standing::Volume { id, .. } => Some(id),
            Standing::Bad { .. } => free_id(all),
        },
        Err(_) => new_id(all),
    }
}
