//! The latest dump of a volume among the listed ones. The search is plain and slow: it keeps the list of all pairs that
//! come into question, and compares each with each.

ghost use Rattle.std.specs.Prelude.{◌≡◌, ◌++◌, [], ◌∷◌, not, None, IfOk, OnOk};
ghost use Rattle.std.specs.List.{filter, find, list_any, flat_map};
ghost use Rattle.budb_fold.specs.Lookups.{volume_of, names_for, dump_by, volume_dumps, is_before, beats, latest};

use crate::lookups::volume_of;
use bk_text::{Bytes, List};
use budb_changes::{DumpRecord, VolRecord};
use std::alloc::{AllocError, Global};
use std::marker::Model;

/// A dump of a volume: the dump's record, and the volume's in it.
#[derive(Debug, Drop)]
pub struct VolumeDump<'a> {
    /// The dump.
    pub dump: &'a DumpRecord,
    /// The volume.
    pub volume: &'a VolRecord,
}

impl<'a> Model for VolumeDump<'a> {
    ghost use Rattle.budb_fold.specs.Lookups.{VolumeDump};

    ghost Value = { VolumeDump };

    ghost view = { λ h. record { dump = h.dump.now; volume = h.volume.now } };
}

/// What the name of a backup volume ends in.
const BACKUP: &[u8] = b".backup";

/// The names whose dumps are found by a name: a base name's own and that of its backup volume; a name that ends in
/// `.backup` alone.
fn names_for(alloc: Global, name: &[u8]) -> Result<List<Bytes>, AllocError>
    ensures { IfOk result (λ names. names ≡ names_for name.now) }
{
    let mut names = List::new(alloc);
    names.push(Bytes::from_slice(alloc, name)?)?;
    if !name.ends_with(BACKUP) {
        let mut backup = Bytes::from_slice(alloc, name)?;
        backup.extend_from_slice(BACKUP)?;
        names.push(backup)?;
    }
    Ok(names)
}

/// Whether a volume's clone time is below the bound, where there is one.
fn is_before(before: Option<u32>, one: &VolumeDump<'_>) -> bool
    ensures { result ≡ is_before before one.now }
{
    match before {
        None => true,
        Some(bound) => one.volume.fields().clone < bound,
    }
}

/// Puts a pair behind those that are there, where its clone time is below the bound.
fn push_before<'a>(
    dumps: &mut Vec<VolumeDump<'a>>,
    before: Option<u32>,
    one: VolumeDump<'a>,
) -> Result<(), AllocError>
    ensures { OnOk result (dumps.new.items ≡ dumps.old.items ++ filter (is_before before) (one.entry ∷ [])) }
{
    if is_before(before, &one) {
        dumps.push(one)?;
    }
    Ok(())
}

/// Puts the pair of a dump and its volume of this name behind those that are there, where it has one and its clone time
/// is below the bound.
fn push_named<'a>(
    dumps: &mut Vec<VolumeDump<'a>>,
    dump: &'a DumpRecord,
    name: &[u8],
    before: Option<u32>,
) -> Result<(), AllocError>
    ensures { OnOk result (dumps.new.items ≡ dumps.old.items ++ filter (is_before before) (dump_by dump.now (volume_of dump.now name.now))) }
{
    match volume_of(dump, name) {
        None => Ok(()),
        Some(volume) => push_before(dumps, before, VolumeDump { dump, volume }),
    }
}

/// Puts the pairs of a dump and its volumes of these names behind those that are there.
fn push_each<'a>(
    dumps: &mut Vec<VolumeDump<'a>>,
    dump: &'a DumpRecord,
    names: &[Bytes],
    before: Option<u32>,
) -> Result<(), AllocError>
    ensures { OnOk result (dumps.new.items ≡ dumps.old.items ++ filter (is_before before) (flat_map (λ name. dump_by dump.now (volume_of dump.now name)) names.now)) }
{
    for name in names {
        push_named(dumps, dump, name.as_slice(), before)?;
    }
    Ok(())
}

/// The pairs that come into question.
fn volume_dumps<'a>(
    alloc: Global,
    listed: &'a [DumpRecord],
    name: &[u8],
    before: Option<u32>,
) -> Result<Vec<VolumeDump<'a>>, AllocError>
    ensures { IfOk result (λ dumps. dumps.items ≡ volume_dumps listed.now name.now before) }
{
    let names = names_for(alloc, name)?;
    let mut dumps = Vec::new(alloc);
    for dump in listed {
        push_each(&mut dumps, dump, names.as_slice(), before)?;
    }
    Ok(dumps)
}

/// Whether a pair goes before another: by a greater clone time, then by a greater id, then by the name itself before its
/// backup volume's.
fn beats(name: &[u8], a: &VolumeDump<'_>, b: &VolumeDump<'_>) -> bool
    ensures { result ≡ beats name.now a.now b.now }
{
    let (clone, other_clone) = (a.volume.fields().clone, b.volume.fields().clone);
    let (id, other_id) = (a.dump.fields().id, b.dump.fields().id);
    let (is_own, is_other_own) = (
        a.volume.fields().name.bytes() == name,
        b.volume.fields().name.bytes() == name,
    );
    other_clone < clone
        || (other_clone == clone && (other_id < id || (other_id == id && is_own && !is_other_own)))
}

/// Whether one of these pairs goes before this one.
fn is_beaten(dumps: &[VolumeDump<'_>], name: &[u8], one: &VolumeDump<'_>) -> bool
    ensures { result ≡ list_any (λ other. beats name.now other one.now) dumps.now }
{
    dumps.iter().any(|other| beats(name, other, one))
}

/// The first of these pairs that none of them goes before.
fn first_unbeaten<'a>(dumps: &[VolumeDump<'a>], name: &[u8]) -> Option<VolumeDump<'a>>
    ensures { result ≡ find (λ one. not (list_any (λ other. beats name.now other one) dumps.now)) dumps.now }
{
    for one in dumps {
        if !is_beaten(dumps, name, one) {
            return Some(VolumeDump {
                dump: one.dump,
                volume: one.volume,
            });
        }
    }
    None
}

/// The latest dump of a volume: of the listed pairs of a dump and a volume whose name fits, and whose clone time, in seconds
/// since 1970, is below the bound where there is one, the one with the greatest clone time. Ties go by the greater id, then
/// by the name itself before its backup volume's. A base name fits itself and the name of its backup volume; a name that
/// ends in `.backup` fits itself alone. `None` only where there is no such pair.
pub fn latest<'a>(
    alloc: Global,
    listed: &'a [DumpRecord],
    name: &[u8],
    before: Option<u32>,
) -> Result<Option<VolumeDump<'a>>, AllocError>
    ensures is { IfOk result (λ one. one ≡ latest listed.now name.now before) }
    ensures none { IfOk result (λ one. one ≡ None → volume_dumps listed.now name.now before ≡ []) }
{
    let dumps = volume_dumps(alloc, listed, name, before)?;
    Ok(first_unbeaten(dumps.as_slice(), name))
}
