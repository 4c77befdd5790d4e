//! The dumps that are whole over several tapes, and the parts that are left over.

ghost use Rattle.std.specs.Prelude.{◌≡◌, ◌↔◌, ◌++◌, ◌≤◌, IsTrue, IfOk, OnOk, List as AnyList, map, length, Contains};
ghost use Rattle.std.specs.List.{flat_map};
ghost use Rattle.tape_scan.specs.Slots.{Slot, Located};
ghost use Rattle.tape_scan.specs.Scanned.{Scanned};
ghost use Rattle.tape_scan.specs.Assembled.{AreScans, part_id};
ghost use Rattle.tape_scan.specs.AssembledSteps.{seen};
ghost use Rattle.tape_scan.specs.AssembledRecords.{IsOnWay, AreLeft};

use crate::assembling_chains::{Chain, choose};
use crate::assembling_flags::flags;
use crate::assembling_records::records;
use crate::sections::{PartFound, Sections};
use bk_text::List;
use budb_changes::DumpRecord;
use std::alloc::{AllocError, Global};

/// A part that is left over.
#[derive(Clone, Copy, Debug, PartialEq, Eq)]
pub struct PartId {
    /// The id of its dump.
    pub id: u32,
    /// The number of its tape.
    pub tape: u32,
}

/// What is found over several tapes.
#[derive(Debug, Drop)]
pub struct Found {
    /// The records of the whole dumps, by ascending id.
    pub whole: List<DumpRecord>,
    /// The other parts, in order of tapes, then of records.
    pub parts: List<PartId>,
}

/// Puts the parts of a tape at the end.
fn add_parts<'a>(parts: &mut Vec<&'a PartFound>, tape: &'a Sections) -> Result<(), AllocError>
    ensures { OnOk result (seen parts.new.items ≡ seen parts.old.items ++ tape.now.parts) }
{
    for part in tape.parts.as_slice() {
        parts.push(part)?;
    }
    Ok(())
}

/// The parts of all tapes, in order.
fn gather<'a>(alloc: Global, tapes: &'a [Sections]) -> Result<Vec<&'a PartFound>, AllocError>
    ensures { IfOk result (λ parts. seen parts.items ≡ flat_map (λ t. t.parts) tapes.now) }
{
    let mut parts = Vec::new(alloc);
    for i in 0..tapes.len() {
        add_parts(&mut parts, &tapes[i])?;
    }
    Ok(parts)
}

/// Whether a place is among some.
fn is_among(places: &[usize], at: usize) -> bool
    ensures { IsTrue result ↔ Contains places.now at }
{
    places.contains(&at)
}

/// Whether some way has a place.
fn is_on_way(chains: &[Chain], at: usize) -> bool
    ensures { IsTrue result ↔ IsOnWay chains.now at }
{
    for i in 0..chains.len() {
        let chain = &chains[i];
        if is_among(chain.places.as_slice(), at) {
            return true;
        }
    }
    false
}

/// The parts that are on no way.
fn left_over(
    alloc: Global,
    parts: &[&PartFound],
    chains: &[Chain],
) -> Result<List<PartId>, AllocError>
    ensures { IfOk result (λ ids. AreLeft (seen parts.now) chains.now (length parts.now) ids) }
{
    let mut ids = List::new(alloc);
    for i in 0..parts.len() {
        if !is_on_way(chains, i) {
            let head = parts[i].head.fields();
            let (id, tape) = (head.id, head.tape);
            ids.push(PartId { id, tape })?;
        }
    }
    Ok(ids)
}

/// The dumps that are whole over the tapes of a list, at most 65,535 of them, by ascending id, and the parts that are left
/// over, in order of tapes, then of records. Of several lists of parts that would do for a dump the first one counts, in the
/// same order, part by part. It takes steps by the square of the number of parts. Its error is that memory was refused,
/// or that a dump has more of something than a record holds.
pub fn assemble(alloc: Global, tapes: &[Sections]) -> Result<Found, AllocError>
    requires few { length tapes.now ≤ 65535 }
    ensures { (slots : AnyList Slot) → AreScans slots tapes.now → IfOk result (λ found. (left : AnyList Located) × Scanned slots found.whole left × (found.parts ≡ map part_id left)) }
{
    let parts = gather(alloc, tapes)?;
    let lent = parts.as_slice();
    let good = flags(alloc, lent)?;
    let chains = choose(alloc, lent, good.as_slice())?;
    let whole = records(alloc, lent, chains.as_slice())?;
    let parts = left_over(alloc, lent, chains.as_slice())?;
    Ok(Found { whole, parts })
}
