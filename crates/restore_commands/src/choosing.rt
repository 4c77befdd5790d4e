//! Which volumes a command restores that names a partition or a volume set.

ghost use Rattle.std.specs.Prelude.{◌≡◌, ◌++◌, ℕ, List as AnyList, ◌↔◌, IfOk, OnOk, IsTrue};
ghost use Rattle.std.specs.List.{list_any};
ghost use Rattle.std.specs.Option.{unwrap_or};
ghost use Rattle.bk_text.specs.Patterns.{IsPattern};
ghost use Rattle.volume_sets.specs.Expansions.{Matches};
ghost use Rattle.restore_commands.specs.Choices.{lay_on, disk_choice, disk_choices, is_matched, suits, set_choice, set_choices};

use crate::bases::base_names;
use backup_words::{Disk, Wanted};
use bk_text::{Host, List, Name, Part};
use budb::Budb;
use budb_fold::VolumeDump;
use std::alloc::{AllocError, Global};
use volume_sets::SetEntry;

/// Whether the volume of a dump lay in the partition.
fn lay_on(disk: &Disk, one: &VolumeDump<'_>) -> bool
    ensures { result ≡ lay_on disk.now one.now }
{
    let volume = one.volume.fields();
    volume.server.bytes() == disk.server.bytes()
        && volume.partition.bytes() == disk.partition.bytes()
}

/// The server that the volumes of a partition are put at.
fn server_for(disk: &Disk) -> Result<Host, AllocError>
    ensures { IfOk result (λ server. server ≡ unwrap_or disk.now.new_server disk.now.server) }
{
    match &disk.new_server {
        Some(server) => server.clone(),
        None => disk.server.clone(),
    }
}

/// The partition that the volumes of a partition are put in.
fn partition_for(disk: &Disk) -> Result<Part, AllocError>
    ensures { IfOk result (λ partition. partition ≡ unwrap_or disk.now.new_partition disk.now.partition) }
{
    match &disk.new_partition {
        Some(partition) => partition.clone(),
        None => disk.partition.clone(),
    }
}

/// Puts a base name behind those that are chosen, where its latest dump's volume lay in the partition.
fn choose_on(
    choices: &mut List<Wanted>,
    disk: &Disk,
    name: &Name,
    one: Option<VolumeDump<'_>>,
) -> Result<(), AllocError>
    ensures { OnOk result (choices.new ≡ choices.old ++ disk_choice disk.now name.now one.entry) }
{
    let Some(one) = one else {
        return Ok(());
    };
    if lay_on(disk, &one) {
        choices.push(Wanted {
            name: name.clone()?,
            before: None,
            server: server_for(disk)?,
            partition: partition_for(disk)?,
        })?;
    }
    Ok(())
}

/// The volumes of a partition, in ascending byte order of their base names: each base name whose latest listed dump names that server
/// and that partition.
pub(crate) fn disk_choices(
    alloc: Global,
    budb: &Budb,
    disk: &Disk,
) -> Result<List<Wanted>, AllocError>
    ensures { IfOk result (λ choices. choices ≡ disk_choices budb.now.database.listed disk.now) }
{
    let names = base_names(alloc, budb.database().listed.as_slice())?;
    let mut choices = List::new(alloc);
    for name in names.as_slice() {
        let one = budb.latest(name.bytes(), None)?;
        choose_on(&mut choices, disk, name, one)?;
    }
    Ok(choices)
}

/// Whether an entry has the volume of a dump.
fn suits(one: &VolumeDump<'_>, entry: &SetEntry) -> bool
    ensures { result ≡ suits one.now entry.now }
{
    let volume = one.volume.fields();
    let _form = entry.pattern.bytes();
    entry.suits(
        volume.server.bytes(),
        volume.partition.bytes(),
        volume.name.bytes(),
    )
}

/// Whether some entry has the volume of a dump.
fn some_suits(one: &VolumeDump<'_>, entries: &[SetEntry]) -> bool
    ensures { result ≡ list_any (suits one.now) entries.now }
{
    for entry in entries {
        if suits(one, entry) {
            return true;
        }
    }
    false
}

/// Puts a base name behind those that are chosen, where some entry has its latest dump's volume.
fn choose_in(
    choices: &mut List<Wanted>,
    entries: &[SetEntry],
    name: &Name,
    one: Option<VolumeDump<'_>>,
) -> Result<(), AllocError>
    ensures { OnOk result (choices.new ≡ choices.old ++ set_choice entries.now name.now one.entry) }
{
    let Some(one) = one else {
        return Ok(());
    };
    if some_suits(&one, entries) {
        let volume = one.volume.fields();
        choices.push(Wanted {
            name: name.clone()?,
            before: None,
            server: volume.server.clone()?,
            partition: volume.partition.clone()?,
        })?;
    }
    Ok(())
}

/// The volumes of a volume set, in ascending byte order of their base names: each base name whose latest listed dump's server,
/// partition and volume name some entry has.
pub(crate) fn set_choices(
    alloc: Global,
    budb: &Budb,
    entries: &[SetEntry],
) -> Result<List<Wanted>, AllocError>
    ensures { IfOk result (λ choices. choices ≡ set_choices budb.now.database.listed entries.now) }
{
    let names = base_names(alloc, budb.database().listed.as_slice())?;
    let mut choices = List::new(alloc);
    for name in names.as_slice() {
        let one = budb.latest(name.bytes(), None)?;
        choose_in(&mut choices, entries, name, one)?;
    }
    Ok(choices)
}

/// The test tells of every pattern whether it matches a name.
pub fn a_match_is_tested()
    ensures { (pattern name : AnyList ℕ) → IsPattern pattern → (IsTrue (is_matched pattern name) ↔ Matches pattern name) }
{}
