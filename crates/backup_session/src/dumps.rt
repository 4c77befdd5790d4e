//! What commands on the dumps decide.

ghost use Rattle.std.specs.Prelude.{◌≡◌, ◌++◌, [], ◌∷◌, map, take, Some, None, IfOk, OnOk};
ghost use Rattle.std.specs.List.{filter};
ghost use Rattle.std.specs.Option.{unwrap_or};
ghost use Rattle.budb_changes.specs.declared.change.Change.TheVariants as changes;
ghost use Rattle.budb_fold.specs.Database.{is_dump, has_dump, is_initial};
ghost use Rattle.budb_fold.specs.Lookups.{record_of};
ghost use Rattle.budb.specs.Histories.{descending, ids_of, volume_history};
ghost use Rattle.backup_replies.specs.Dumps.{history_lines};
ghost use Rattle.backup_session.specs.Verdicts.{set_ids, forgets, set_goes, dump_goes, one_dump, told_dumps};

use crate::verdict::{Verdict, refuses_number, refuses_numbers};
use backup_replies::{Refusal, deleted_lines, dumps_lines, put_history, put_ok, whole_dump_lines};
use bk_text::{Bytes, List, Name, Out};
use budb::{Budb, descending};
use budb_journal::{Change, DumpRecord};
use std::alloc::{AllocError, Global};

/// Whether a dump has this id.
fn is_dump(dump: &DumpRecord, id: u32) -> bool
    ensures { result ≡ is_dump id dump.now }
{
    dump.fields().id == id
}

/// Whether one of these dumps has this id.
pub(crate) fn any_of_id(listed: &[DumpRecord], id: u32) -> bool
    ensures { result ≡ has_dump listed.now id }
{
    for dump in listed {
        if is_dump(dump, id) {
            return true;
        }
    }
    false
}

/// Whether a dump has this initial id.
fn is_initial(dump: &DumpRecord, initial: u32) -> bool
    ensures { result ≡ is_initial initial dump.now }
{
    dump.fields().initial == initial
}

/// Puts the id of a dump behind ids, where it has this initial id.
fn push_in_set(ids: &mut List<u32>, dump: &DumpRecord, initial: u32) -> Result<(), AllocError>
    ensures { OnOk result (ids.new ≡ ids.old ++ ids_of (filter (is_initial initial) (dump.now ∷ []))) }
{
    if is_initial(dump, initial) {
        ids.push(dump.fields().id)?;
    }
    Ok(())
}

/// The ids of the dumps whose initial dump's is this one, in order of the dumps.
fn ids_in_set(alloc: Global, listed: &[DumpRecord], id: u32) -> Result<List<u32>, AllocError>
    ensures { IfOk result (λ ids. ids ≡ ids_of (filter (is_initial id) listed.now)) }
{
    let mut ids = List::new(alloc);
    for dump in listed {
        push_in_set(&mut ids, dump, id)?;
    }
    Ok(ids)
}

/// The ids of the dumps of an initial id, in ascending order.
fn set_ids(alloc: Global, listed: &[DumpRecord], initial: u32) -> Result<List<u32>, AllocError>
    ensures { IfOk result (λ ids. ids ≡ set_ids listed.now initial) }
{
    let found = ids_in_set(alloc, listed, initial)?;
    let mut ids = descending(alloc, found.as_slice())?.into_vec();
    ids.reverse();
    Ok(List::from_vec(ids))
}

/// A change that forgets each of these dumps.
fn forgets_of(alloc: Global, ids: &[u32]) -> Result<List<Change>, AllocError>
    ensures { IfOk result (λ list. list ≡ map changes.Forget ids.now) }
{
    let mut list = List::new(alloc);
    for id in ids {
        list.push(Change::Forget { id: *id })?;
    }
    Ok(list)
}

/// These dumps are forgotten, in one commit, and told.
fn forget_all(alloc: Global, ids: &[u32]) -> Result<Verdict, AllocError>
    ensures { IfOk result (λ v. v ≡ forgets ids.now) }
{
    let list = forgets_of(alloc, ids)?;
    let text = deleted_lines(alloc, ids)?;
    Ok(Verdict::Makes(list, text))
}

/// A dump is forgotten, with its dump set where it is the initial one.
fn delete_listed(
    alloc: Global,
    listed: &[DumpRecord],
    id: u32,
    initial: u32,
) -> Result<Verdict, AllocError>
    ensures { IfOk result (λ v. v ≡ set_goes listed.now id initial) }
{
    if initial == id {
        let ids = set_ids(alloc, listed, id)?;
        return forget_all(alloc, ids.as_slice());
    }
    if any_of_id(listed, initial) {
        return refuses_numbers(alloc, Refusal::AppendedDump, id as u64, initial as u64);
    }
    forget_all(alloc, &[id])
}

/// `deletedump`.
pub(crate) fn delete_dump(alloc: Global, budb: &Budb, id: u32) -> Result<Verdict, AllocError>
    ensures { IfOk result (λ v. v ≡ dump_goes budb.now.database.listed id (record_of budb.now.database.listed id)) }
{
    match budb.record(id) {
        None => refuses_number(alloc, Refusal::NoSuchDump, id as u64),
        Some(dump) => delete_listed(
            alloc,
            budb.database().listed.as_slice(),
            id,
            dump.fields().initial,
        ),
    }
}

/// The line of each of the dumps with the greatest ids, so many of them.
fn latest_lines(alloc: Global, budb: &Budb, count: Option<u32>) -> Result<Verdict, AllocError>
    ensures { IfOk result (λ v. v ≡ told_dumps budb.now.database.listed count None) }
{
    let ids = budb.ids()?;
    let mut latest = descending(alloc, ids.as_slice())?;
    latest.truncate(count.unwrap_or(10) as usize);
    let listed = budb.database().listed.as_slice();
    Ok(Verdict::Shows(dumps_lines(alloc, listed, latest.as_slice())?))
}

/// One dump whole.
fn show_dump(alloc: Global, budb: &Budb, id: u32) -> Result<Verdict, AllocError>
    ensures { IfOk result (λ v. v ≡ one_dump id (record_of budb.now.database.listed id)) }
{
    match budb.record(id) {
        None => refuses_number(alloc, Refusal::NoSuchDump, id as u64),
        Some(dump) => Ok(Verdict::Shows(whole_dump_lines(alloc, dump)?)),
    }
}

/// `dumpinfo`.
pub(crate) fn show_dumps(
    alloc: Global,
    budb: &Budb,
    count: Option<u32>,
    id: Option<u32>,
) -> Result<Verdict, AllocError>
    ensures { IfOk result (λ v. v ≡ told_dumps budb.now.database.listed count id) }
{
    match id {
        None => latest_lines(alloc, budb, count),
        Some(id) => show_dump(alloc, budb, id),
    }
}

/// The lines of a volume in the listed dumps of these ids.
fn history_of(alloc: Global, budb: &Budb, name: &[u8], ids: &[u32]) -> Result<Bytes, AllocError>
    ensures { IfOk result (λ lines. lines ≡ history_lines budb.now.database.listed name.now ids.now) }
{
    let mut lines = Out::new(alloc);
    for id in ids {
        put_history(&mut lines, name, *id, budb.record(*id))?;
    }
    put_ok(&mut lines)?;
    Ok(lines.into_bytes())
}

/// `volinfo`.
pub(crate) fn show_history(alloc: Global, budb: &Budb, volume: &Name) -> Result<Verdict, AllocError>
    ensures { IfOk result (λ v. v ≡ Verdict.Shows (history_lines budb.now.database.listed volume.now (volume_history budb.now.database.listed volume.now))) }
{
    let ids = budb.volume_history(volume.bytes())?;
    let text = history_of(alloc, budb, volume.bytes(), ids.as_slice())?;
    Ok(Verdict::Shows(text))
}
