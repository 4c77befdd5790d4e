//! The first way from part to part through each dump that is found whole.

ghost use Rattle.std.specs.Prelude.{◌≡◌, ◌<◌, IfOk, length};
ghost use Rattle.tape_scan.specs.AssembledSteps.{seen};
ghost use Rattle.tape_scan.specs.AssembledPaths.{IsWalk, IsNextBegin, AreChains};

use crate::assembling_flags::next_of;
use crate::sections::PartFound;
use bk_text::List;
use std::alloc::{AllocError, Global};

/// A dump that is found whole.
#[derive(Debug, Drop)]
pub struct Chain {
    /// Its id.
    pub id: u32,
    /// The places of its parts in the list of all, in order.
    pub places: List<usize>,
}

/// The way from a part on: each time to the first flagged part that goes the last one on.
fn walk(
    alloc: Global,
    parts: &[&PartFound],
    good: &[bool],
    begin: usize,
) -> Result<List<usize>, AllocError>
    requires long { length good.now ≡ length parts.now }
    requires within { begin < length parts.now }
    ensures { IfOk result (λ places. IsWalk (seen parts.now) good.now begin places) }
{
    let mut places = List::new(alloc);
    places.push(begin)?;
    let mut at = begin;
    let mut number = parts[begin].head.fields().part;
    'steps: while let Some(next) = next_of(parts, good, parts[at]) {
        places.push(next)?;
        at = next;
        number = parts[next].head.fields().part;
    }
    Ok(places)
}

/// Of the flagged parts that begin a dump with an id from this one on the first one of the least id.
fn next_begin(parts: &[&PartFound], good: &[bool], least: u64) -> Option<usize>
    requires { length good.now ≡ length parts.now }
    ensures { IsNextBegin (seen parts.now) good.now least (length parts.now) result }
{
    let mut best = None;
    let mut below = 4294967296u64;
    for i in 0..parts.len() {
        let head = parts[i].head.fields();
        let id = u64::from(head.id);
        if good[i] && head.part == 1 && least <= id && id < below {
            best = Some(i);
            below = id;
        }
    }
    best
}

/// The ways of all dumps that are found whole, by ascending id.
pub(crate) fn choose(
    alloc: Global,
    parts: &[&PartFound],
    good: &[bool],
) -> Result<List<Chain>, AllocError>
    requires { length good.now ≡ length parts.now }
    ensures { IfOk result (λ chains. AreChains (seen parts.now) good.now chains) }
{
    let mut chains = List::new(alloc);
    let mut least = 0u64;
    'dumps: while let Some(begin) = next_begin(parts, good, least) {
        let places = walk(alloc, parts, good, begin)?;
        let id = parts[begin].head.fields().id;
        chains.push(Chain { id, places })?;
        least = u64::from(id) + 1;
    }
    Ok(chains)
}
