//! Writing changes.

ghost use Rattle.std.specs.Prelude.{◌≡◌, ◌<◌, ◌≤◌, ◌++◌, ◌∷◌, length, All, OnOk, OnErr};
ghost use Rattle.std.specs.List.{flat_map};
ghost use Rattle.bk_text.specs.Alphabets.{IsName, IsHost, IsSetName};
ghost use Rattle.bk_text.specs.LevelPaths.{IsLevelPath};
ghost use Rattle.byte_formats.specs.Bytes.{two, four, text1, text2, any_or};
ghost use Rattle.budb_changes.specs.Bytes.{expiry_bytes, use_bytes, tape_bytes, tapes_bytes, frag_bytes, frags_bytes, volume_bytes, volumes_bytes, heading_bytes, cell_bytes, dump_bytes, encoded_change, encoded};
ghost use Rattle.budb_changes.specs.Printable.{IsPatternBytes};
ghost use Rattle.budb_changes.specs.Dumps.{IsNamed};
ghost use Rattle.byte_formats.specs.Forms.{IsTwo, IsFour, IsBase, base_most, IsAnyOr};
ghost use Rattle.budb_changes.specs.Forms.{IsExpiry, IsTapePart, IsFrag, IsVolRecord, IsDumpRecord, IsChange, AreChanges};

use crate::change::Change;
use crate::kinds::{
    ADD_ENTRY, ADD_HOST, ADD_LEVEL, ADD_SET, BEGIN, DEL_ENTRY, DEL_HOST, DEL_LEVEL, DEL_SET, DONE,
    DONE_1, FORGET, FOUND, FOUND_1, SET_EXPIRY, TAKE,
};
use crate::pattern_bytes::PatternBytes;
use crate::records::{DumpRecord, DumpRecordFields, Frag, TapePart, VolRecord};
use crate::version::Version;
use bk_text::{Expiry, Host, LevelPath, Out, Part, SetName};
use byte_formats::{put_any_host, put_any_part, put_four, put_text1, put_text2, put_two};
use std::alloc::{AllocError, Global};

#[tactic(auto, unfolding(crate::specs::Bytes::expiry_bytes, crate::specs::Bytes::expiry_kind, crate::specs::Bytes::expiry_fields))]
fn put_span(out: &mut Out, years: u16, months: u16, days: u16) -> Result<(), AllocError>
    ensures { OnOk result (out.new ≡ out.old ++ expiry_bytes (Expiry.In years months days)) }
{
    out.byte(3)?;
    put_two(out, years)?;
    put_two(out, months)?;
    put_two(out, days)?;
    Ok(())
}

#[tactic(auto, unfolding(crate::specs::Bytes::expiry_bytes, crate::specs::Bytes::expiry_kind, crate::specs::Bytes::expiry_fields))]
fn put_expiry(out: &mut Out, expiry: Expiry) -> Result<(), AllocError>
    ensures bytes { OnOk result (out.new ≡ out.old ++ expiry_bytes expiry) }
    ensures form { OnOk result (IsExpiry expiry) }
{
    match expiry {
        Expiry::Unset => out.byte(0)?,
        Expiry::Never => out.byte(1)?,
        Expiry::At(moment) => {
            out.byte(2)?;
            put_four(out, moment)?;
        }
        Expiry::In {
            years,
            months,
            days,
        } => put_span(out, years, months, days)?,
    }
    Ok(())
}

/// Writes the uses and the permanent name of a tape, where the version tells them.
#[tactic(auto, unfolding(crate::specs::Bytes::use_bytes))]
fn put_use(out: &mut Out, version: Version, uses: u32, permanent: &[u8]) -> Result<(), AllocError>
    requires { length permanent.now < 256 }
    ensures { OnOk result (out.new ≡ out.old ++ use_bytes version uses permanent.now) }
{
    match version {
        Version::One => Ok(()),
        Version::Two => {
            put_four(out, uses)?;
            put_text1(out, permanent)?;
            Ok(())
        }
    }
}

#[tactic(auto, using(crate::proofs::Names::short_permanent), unfolding(crate::specs::Bytes::tape_bytes))]
fn put_tape(out: &mut Out, version: Version, tape: &TapePart) -> Result<(), AllocError>
    requires { IsNamed tape.now }
    ensures bytes { OnOk result (out.new ≡ out.old ++ tape_bytes version tape.now) }
    ensures form { OnOk result (IsTapePart tape.now) }
{
    put_four(out, tape.tape)?;
    put_four(out, tape.first)?;
    put_four(out, tape.end)?;
    put_four(out, tape.marks)?;
    put_use(out, version, tape.uses, tape.permanent.as_slice())?;
    Ok(())
}

fn put_tapes(out: &mut Out, version: Version, tapes: &[TapePart]) -> Result<(), AllocError>
    requires { All IsNamed tapes.now }
    ensures bytes { OnOk result (out.new ≡ out.old ++ flat_map (tape_bytes version) tapes.now) }
    ensures form { OnOk result (All IsTapePart tapes.now) }
{
    for tape in tapes {
        put_tape(out, version, tape)?;
    }
    Ok(())
}

#[tactic(auto, unfolding(crate::specs::Bytes::frag_bytes))]
fn put_frag(out: &mut Out, frag: Frag) -> Result<(), AllocError>
    ensures bytes { OnOk result (out.new ≡ out.old ++ frag_bytes frag) }
    ensures form { OnOk result (IsFrag frag) }
{
    put_four(out, frag.tape)?;
    put_four(out, frag.at)?;
    Ok(())
}

fn put_frags(out: &mut Out, frags: &[Frag]) -> Result<(), AllocError>
    ensures bytes { OnOk result (out.new ≡ out.old ++ flat_map frag_bytes frags.now) }
    ensures form { OnOk result (All IsFrag frags.now) }
{
    for frag in frags {
        put_frag(out, *frag)?;
    }
    Ok(())
}

/// Writes fragments behind their count.
#[tactic(auto, unfolding(crate::specs::Bytes::frags_bytes))]
fn put_frag_list(out: &mut Out, frags: &[Frag]) -> Result<(), AllocError>
    requires { length frags.now ≤ 65535 }
    ensures bytes { OnOk result (out.new ≡ out.old ++ frags_bytes frags.now) }
    ensures form { OnOk result (All IsFrag frags.now) }
{
    put_two(out, frags.len() as u16)?;
    put_frags(out, frags)?;
    Ok(())
}

#[tactic(auto, unfolding(crate::specs::Bytes::volume_bytes))]
fn put_volume(out: &mut Out, volume: &VolRecord) -> Result<(), AllocError>
    ensures bytes { OnOk result (out.new ≡ out.old ++ volume_bytes volume.now) }
    ensures form { OnOk result (IsVolRecord volume.now) }
{
    let a = volume.fields();
    put_text1(out, a.name.bytes())?;
    put_four(out, a.id)?;
    put_text1(out, a.server.bytes())?;
    put_text1(out, a.partition.bytes())?;
    put_four(out, a.clone)?;
    put_four(out, a.from)?;
    put_frag_list(out, a.frags.as_slice())?;
    Ok(())
}

fn put_volumes(out: &mut Out, volumes: &[VolRecord]) -> Result<(), AllocError>
    ensures bytes { OnOk result (out.new ≡ out.old ++ flat_map volume_bytes volumes.now) }
    ensures form { OnOk result (All IsVolRecord volumes.now) }
{
    for volume in volumes {
        put_volume(out, volume)?;
    }
    Ok(())
}

/// Writes tapes behind their count.
#[tactic(auto, unfolding(crate::specs::Bytes::tapes_bytes))]
fn put_tape_list(out: &mut Out, version: Version, tapes: &[TapePart]) -> Result<(), AllocError>
    requires few { length tapes.now ≤ 65535 }
    requires named { All IsNamed tapes.now }
    ensures bytes { OnOk result (out.new ≡ out.old ++ tapes_bytes version tapes.now) }
    ensures form { OnOk result (All IsTapePart tapes.now) }
{
    put_two(out, tapes.len() as u16)?;
    put_tapes(out, version, tapes)?;
    Ok(())
}

/// Writes volumes behind their count.
#[tactic(auto, unfolding(crate::specs::Bytes::volumes_bytes))]
fn put_volume_list(out: &mut Out, volumes: &[VolRecord]) -> Result<(), AllocError>
    requires { length volumes.now ≤ 4294967295 }
    ensures bytes { OnOk result (out.new ≡ out.old ++ volumes_bytes volumes.now) }
    ensures form { OnOk result (All IsVolRecord volumes.now) }
{
    put_four(out, volumes.len() as u32)?;
    put_volumes(out, volumes)?;
    Ok(())
}

/// Writes the four numbers that a dump's record begins with.
fn put_numbers(out: &mut Out, a: &DumpRecordFields) -> Result<(), AllocError>
    ensures bytes { OnOk result (out.new ≡ out.old ++ (four a.now.id ++ (four a.now.initial ++ (four a.now.parent ++ four a.now.expires)))) }
    ensures id { OnOk result (IsFour a.now.id) }
    ensures initial { OnOk result (IsFour a.now.initial) }
    ensures parent { OnOk result (IsFour a.now.parent) }
    ensures expires { OnOk result (IsFour a.now.expires) }
{
    put_four(out, a.id)?;
    put_four(out, a.initial)?;
    put_four(out, a.parent)?;
    put_four(out, a.expires)?;
    Ok(())
}

/// Writes what a record begins with.
#[tactic(auto, using(byte_formats::proofs::Bases::short_base), unfolding(crate::specs::Bytes::heading_bytes))]
fn put_heading(out: &mut Out, a: &DumpRecordFields) -> Result<(), AllocError>
    requires { length a.now.base ≤ base_most }
    ensures bytes { OnOk result (out.new ≡ out.old ++ heading_bytes a.now) }
    ensures id { OnOk result (IsFour a.now.id) }
    ensures initial { OnOk result (IsFour a.now.initial) }
    ensures parent { OnOk result (IsFour a.now.parent) }
    ensures expires { OnOk result (IsFour a.now.expires) }
    ensures set { OnOk result (IsSetName a.now.set) }
    ensures level { OnOk result (IsLevelPath a.now.level) }
    ensures base { OnOk result (IsBase a.now.base) }
{
    put_numbers(out, a)?;
    put_text1(out, a.set.bytes())?;
    put_text2(out, a.level.bytes())?;
    put_text1(out, a.base.bytes())?;
    Ok(())
}

/// Writes the cell, where the version tells it.
#[tactic(auto, unfolding(crate::specs::Bytes::cell_bytes))]
fn put_cell(out: &mut Out, version: Version, cell: &[u8]) -> Result<(), AllocError>
    requires { length cell.now < 256 }
    ensures { OnOk result (out.new ≡ out.old ++ cell_bytes version cell.now) }
{
    match version {
        Version::One => Ok(()),
        Version::Two => {
            put_text1(out, cell)?;
            Ok(())
        }
    }
}

#[tactic(auto, using(crate::proofs::Names::short_cell), unfolding(crate::specs::Bytes::dump_bytes))]
fn put_dump(out: &mut Out, version: Version, dump: &DumpRecord) -> Result<(), AllocError>
    ensures bytes { OnOk result (out.new ≡ out.old ++ dump_bytes version dump.now) }
    ensures form { OnOk result (IsDumpRecord dump.now) }
{
    let a = dump.fields();
    put_heading(out, a)?;
    put_tape_list(out, version, a.tapes.as_slice())?;
    put_volume_list(out, a.volumes.as_slice())?;
    put_cell(out, version, a.cell.as_slice())?;
    Ok(())
}

/// Writes a kind and a volume set.
fn put_set(out: &mut Out, kind: u8, set: &SetName) -> Result<(), AllocError>
    ensures bytes { OnOk result (out.new ≡ out.old ++ kind ∷ text1 set.now) }
    ensures form { OnOk result (IsSetName set.now) }
{
    out.byte(kind)?;
    put_text1(out, set.bytes())?;
    Ok(())
}

/// Writes what an entry has beside its set.
fn put_entry(
    out: &mut Out,
    server: &Option<Host>,
    partition: &Option<Part>,
    pattern: &PatternBytes,
) -> Result<(), AllocError>
    ensures bytes { OnOk result (out.new ≡ out.old ++ (any_or server.now ++ (any_or partition.now ++ text2 pattern.now))) }
    ensures server { OnOk result (IsAnyOr IsHost server.now) }
    ensures partition { OnOk result (IsAnyOr IsName partition.now) }
    ensures pattern { OnOk result (IsPatternBytes pattern.now) }
{
    put_any_host(out, server)?;
    put_any_part(out, partition)?;
    put_text2(out, pattern.bytes())?;
    Ok(())
}

/// Writes a kind and a level.
fn put_level(out: &mut Out, kind: u8, level: &LevelPath) -> Result<(), AllocError>
    ensures bytes { OnOk result (out.new ≡ out.old ++ kind ∷ text2 level.now) }
    ensures form { OnOk result (IsLevelPath level.now) }
{
    out.byte(kind)?;
    put_text2(out, level.bytes())?;
    Ok(())
}

/// Writes a tape host and its port offset.
fn put_host(out: &mut Out, host: &Host, port: u16) -> Result<(), AllocError>
    ensures bytes { OnOk result (out.new ≡ out.old ++ (text1 host.now ++ two port)) }
    ensures form { OnOk result (IsHost host.now) }
{
    put_text1(out, host.bytes())?;
    put_two(out, port)?;
    Ok(())
}

/// Writes a kind and an id.
fn put_id(out: &mut Out, kind: u8, id: u32) -> Result<(), AllocError>
    ensures { OnOk result (out.new ≡ out.old ++ kind ∷ four id) }
{
    out.byte(kind)?;
    put_four(out, id)?;
    Ok(())
}

/// Writes a kind, and an entry of a set.
fn put_added(
    out: &mut Out,
    kind: u8,
    set: &SetName,
    server: &Option<Host>,
    partition: &Option<Part>,
    pattern: &PatternBytes,
) -> Result<(), AllocError>
    ensures bytes { OnOk result (out.new ≡ out.old ++ kind ∷ (text1 set.now ++ (any_or server.now ++ (any_or partition.now ++ text2 pattern.now)))) }
    ensures set { OnOk result (IsSetName set.now) }
    ensures server { OnOk result (IsAnyOr IsHost server.now) }
    ensures partition { OnOk result (IsAnyOr IsName partition.now) }
    ensures pattern { OnOk result (IsPatternBytes pattern.now) }
{
    put_set(out, kind, set)?;
    put_entry(out, server, partition, pattern)?;
    Ok(())
}

/// Writes a kind, a set and the number of one of its entries.
fn put_numbered(out: &mut Out, kind: u8, set: &SetName, number: u32) -> Result<(), AllocError>
    ensures bytes { OnOk result (out.new ≡ out.old ++ kind ∷ (text1 set.now ++ four number)) }
    ensures form { OnOk result (IsSetName set.now) }
{
    put_set(out, kind, set)?;
    put_four(out, number)?;
    Ok(())
}

/// Writes a kind, a level and its expiration.
fn put_expiring(
    out: &mut Out,
    kind: u8,
    level: &LevelPath,
    expiry: Expiry,
) -> Result<(), AllocError>
    ensures bytes { OnOk result (out.new ≡ out.old ++ kind ∷ (text2 level.now ++ expiry_bytes expiry)) }
    ensures level { OnOk result (IsLevelPath level.now) }
    ensures expiry { OnOk result (IsExpiry expiry) }
{
    put_level(out, kind, level)?;
    put_expiry(out, expiry)?;
    Ok(())
}

/// Writes a kind, a tape host and its port offset.
fn put_placed(out: &mut Out, kind: u8, host: &Host, port: u16) -> Result<(), AllocError>
    ensures bytes { OnOk result (out.new ≡ out.old ++ kind ∷ (text1 host.now ++ two port)) }
    ensures form { OnOk result (IsHost host.now) }
{
    out.byte(kind)?;
    put_host(out, host, port)?;
    Ok(())
}

/// Writes a kind and a port offset.
fn put_port(out: &mut Out, kind: u8, port: u16) -> Result<(), AllocError>
    ensures { OnOk result (out.new ≡ out.old ++ kind ∷ two port) }
{
    out.byte(kind)?;
    put_two(out, port)?;
    Ok(())
}

/// Writes a kind and a dump's record.
fn put_record(
    out: &mut Out,
    kind: u8,
    version: Version,
    dump: &DumpRecord,
) -> Result<(), AllocError>
    ensures bytes { OnOk result (out.new ≡ out.old ++ kind ∷ dump_bytes version dump.now) }
    ensures form { OnOk result (IsDumpRecord dump.now) }
{
    out.byte(kind)?;
    put_dump(out, version, dump)?;
    Ok(())
}

#[tactic(auto, unfolding(crate::specs::Bytes::encoded_change, crate::specs::Bytes::kind_of, crate::specs::Bytes::fields_of))]
fn put_change(out: &mut Out, change: &Change) -> Result<(), AllocError>
    ensures bytes { OnOk result (out.new ≡ out.old ++ encoded_change change.now) }
    ensures form { OnOk result (IsChange change.now) }
{
    match change {
        Change::AddSet { set } => put_set(out, ADD_SET, set),
        Change::DelSet { set } => put_set(out, DEL_SET, set),
        Change::AddEntry {
            set,
            server,
            partition,
            pattern,
        } => put_added(out, ADD_ENTRY, set, server, partition, pattern),
        Change::DelEntry { set, number } => put_numbered(out, DEL_ENTRY, set, *number),
        Change::AddLevel { level, expiry } => put_expiring(out, ADD_LEVEL, level, *expiry),
        Change::SetExpiry { level, expiry } => put_expiring(out, SET_EXPIRY, level, *expiry),
        Change::DelLevel { level } => put_level(out, DEL_LEVEL, level),
        Change::AddHost { host, port } => put_placed(out, ADD_HOST, host, *port),
        Change::DelHost { port } => put_port(out, DEL_HOST, *port),
        Change::Begin { id } => put_id(out, BEGIN, *id),
        Change::Take { initial } => put_id(out, TAKE, *initial),
        Change::Done1(dump) => put_record(out, DONE_1, Version::One, dump.as_record()),
        Change::Forget { id } => put_id(out, FORGET, *id),
        Change::Found1(dump) => put_record(out, FOUND_1, Version::One, dump.as_record()),
        Change::Done(dump) => put_record(out, DONE, Version::Two, dump),
        Change::Found(dump) => put_record(out, FOUND, Version::Two, dump),
    }
}

/// Writes changes, one behind another. Where memory is refused, some of their bytes may stand behind the old ones.
#[tactic(auto, unfolding(crate::specs::Bytes::encoded))]
pub fn put_changes(out: &mut Out, changes: &[Change]) -> Result<(), AllocError>
    ensures bytes { OnOk result (out.new ≡ out.old ++ encoded changes.now) }
    ensures form { OnOk result (AreChanges changes.now) }
{
    for change in changes {
        put_change(out, change)?;
    }
    Ok(())
}

/// Writes changes, one behind another. They are of the form, so that `decode` reads them again. Where memory is refused
/// nothing is written.
pub fn encode(alloc: Global, changes: &[Change], out: &mut Out) -> Result<(), AllocError>
    ensures bytes { OnOk result (out.new ≡ out.old ++ encoded changes.now) }
    ensures form { OnOk result (AreChanges changes.now) }
    ensures err { OnErr result (out.new ≡ out.old) }
{
    let mut aside = Out::new(alloc);
    put_changes(&mut aside, changes)?;
    out.piece(aside.as_slice())?;
    Ok(())
}
