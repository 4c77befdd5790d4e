//! The record of a dump by its parts.

ghost use Rattle.std.specs.Prelude.{◌≡◌, ◌++◌, ◌==◌, ◌<◌, ℕ, Some, IfOk, OnOk, map, filter, length, All};
ghost use Rattle.tape_text.specs.Wholes.{Lying, frag_of, volume_record, volume_records};
ghost use Rattle.std.specs.Prelude.{List as AnyList, ◌∷◌};
ghost use Rattle.tape_scan.specs.declared.sections.PartFound.{PartFound as PartFoundSeen};
ghost use Rattle.tape_scan.specs.AssembledSteps.{seen};
ghost use Rattle.tape_scan.specs.AssembledRecords.{told_tape, told_lying_in, all_lying, told_record_with, ArePlaced, IsRecordAt, AreRecords};

use crate::assembling_chains::Chain;
use crate::sections::{FragFound, PartFound};
use bk_text::List;
use budb_changes::{DumpRecord, DumpRecordFields, Frag, TapePart, VolRecord, VolRecordFields};
use std::alloc::{AllocError, Global};
use tape_frames::DumpHeadFields;

/// Puts the places of a part's fragments of a volume at the end.
fn add_frags(frags: &mut List<Frag>, part: &PartFound, index: u32) -> Result<(), AllocError>
    ensures { OnOk result (frags.new ≡ frags.old ++ map frag_of (filter (λ m. m.head.index == index) (told_lying_in part.now))) }
{
    let tape = part.head.fields().tape;
    for fragment in part.frags.as_slice() {
        if fragment.head.fields().index == index {
            let at = fragment.at;
            frags.push(Frag { tape, at })?;
        }
    }
    Ok(())
}

/// The places of all fragments of a volume.
fn frags_of(alloc: Global, parts: &[&PartFound], index: u32) -> Result<List<Frag>, AllocError>
    ensures { IfOk result (λ frags. frags ≡ map frag_of (filter (λ m. m.head.index == index) (all_lying (seen parts.now)))) }
{
    let mut frags = List::new(alloc);
    for i in 0..parts.len() {
        add_frags(&mut frags, parts[i], index)?;
    }
    Ok(frags)
}

/// The record of the volume of a first fragment. More fragments than a record holds are refused as memory is.
fn volume_of(
    alloc: Global,
    parts: &[&PartFound],
    first: &FragFound,
) -> Result<VolRecord, AllocError>
    ensures { (l : Lying) → l.head ≡ first.now.head → IfOk result (λ v. v ≡ volume_record (all_lying (seen parts.now)) l) }
{
    let head = first.head.fields();
    let fields = VolRecordFields {
        name: head.name.clone()?,
        id: head.volume,
        server: head.server.clone()?,
        partition: head.partition.clone()?,
        clone: head.clone,
        from: head.from,
        frags: frags_of(alloc, parts, head.index)?,
    };
    if fields.is_vol_record() {
        Ok(VolRecord::new(fields))
    } else {
        Err(AllocError)
    }
}

/// Puts the records of the volumes that begin in a part at the end.
fn add_volumes(
    alloc: Global,
    volumes: &mut List<VolRecord>,
    parts: &[&PartFound],
    part: &PartFound,
) -> Result<(), AllocError>
    ensures { OnOk result (volumes.new ≡ volumes.old ++ map (volume_record (all_lying (seen parts.now))) (filter (λ l. l.head.fragment == 1) (told_lying_in part.now))) }
{
    for fragment in part.frags.as_slice() {
        if fragment.head.fields().fragment == 1 {
            volumes.push(volume_of(alloc, parts, fragment)?)?;
        }
    }
    Ok(())
}

/// The records of the volumes of a dump.
fn volumes_of(alloc: Global, parts: &[&PartFound]) -> Result<List<VolRecord>, AllocError>
    ensures { IfOk result (λ volumes. volumes ≡ volume_records (all_lying (seen parts.now))) }
{
    let mut volumes = List::new(alloc);
    for i in 0..parts.len() {
        add_volumes(alloc, &mut volumes, parts, parts[i])?;
    }
    Ok(volumes)
}

/// A part's place on its tape.
fn tape_of(part: &PartFound) -> Result<TapePart, AllocError>
    ensures { IfOk result (λ tape. tape ≡ told_tape part.now) }
{
    let head = part.head.fields();
    Ok(TapePart {
        tape: head.tape,
        first: part.first,
        end: part.end.unwrap_or(0),
        marks: part.marks,
        uses: head.uses,
        permanent: head.permanent.copy()?,
    })
}

/// The places of parts on their tapes.
fn tapes_of(alloc: Global, parts: &[&PartFound]) -> Result<List<TapePart>, AllocError>
    ensures { IfOk result (λ tapes. tapes ≡ map told_tape (seen parts.now)) }
{
    let mut tapes = List::new(alloc);
    for i in 0..parts.len() {
        tapes.push(tape_of(parts[i])?)?;
    }
    Ok(tapes)
}

/// The fields of a dump's record by its parts, of which this is the first one's head.
fn fields_of(
    alloc: Global,
    parts: &[&PartFound],
    head: &DumpHeadFields,
) -> Result<DumpRecordFields, AllocError>
    ensures { (p : PartFoundSeen) (ps : AnyList PartFoundSeen) → seen parts.now ≡ p ∷ ps → p.head ≡ head.now → IfOk result (λ d. d ≡ told_record_with p (p ∷ ps)) }
{
    Ok(DumpRecordFields {
        id: head.id,
        initial: head.initial,
        parent: head.parent,
        expires: head.expires,
        set: head.set.clone()?,
        level: head.level.clone()?,
        base: head.base.clone()?,
        tapes: tapes_of(alloc, parts)?,
        volumes: volumes_of(alloc, parts)?,
        cell: head.cell.copy()?,
    })
}

/// The parts at some places.
fn parts_at<'a>(
    alloc: Global,
    parts: &[&'a PartFound],
    places: &[usize],
) -> Result<Vec<&'a PartFound>, AllocError>
    requires { All (λ k. k < length parts.now) places.now }
    ensures { IfOk result (λ chosen. ArePlaced (seen parts.now) places.now (seen chosen.items)) }
{
    let mut chosen = Vec::new(alloc);
    for place in places {
        chosen.push(parts[*place])?;
    }
    Ok(chosen)
}

/// The record of the dump that has its parts at some places. More of anything than a record holds is refused as memory is.
fn record_at(
    alloc: Global,
    parts: &[&PartFound],
    places: &[usize],
) -> Result<DumpRecord, AllocError>
    requires some { 0 < length places.now }
    requires within { All (λ k. k < length parts.now) places.now }
    ensures { IfOk result (λ d. IsRecordAt (seen parts.now) places.now d) }
{
    let chosen = parts_at(alloc, parts, places)?;
    let lent = chosen.as_slice();
    let first = lent[0];
    let fields = fields_of(alloc, lent, first.head.fields())?;
    if fields.is_dump_record() {
        Ok(DumpRecord::new(fields))
    } else {
        Err(AllocError)
    }
}

/// The records of the dumps of these ways, one for each.
pub(crate) fn records(
    alloc: Global,
    parts: &[&PartFound],
    chains: &[Chain],
) -> Result<List<DumpRecord>, AllocError>
    requires { All (λ c. (0 < length c.places) × All (λ k. k < length parts.now) c.places) chains.now }
    ensures { IfOk result (λ whole. AreRecords (seen parts.now) chains.now whole) }
{
    let mut whole = List::new(alloc);
    for i in 0..chains.len() {
        let chain = &chains[i];
        whole.push(record_at(alloc, parts, chain.places.as_slice())?)?;
    }
    Ok(whole)
}
