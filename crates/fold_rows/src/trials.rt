//! One list of changes at random.

use crate::bytes::put_step;
use crate::counts::Counts;
use crate::plain::Plain;
use crate::random::Random;
use crate::same::is_same;
use crate::steps::{Step, some_step};
use bk_text::{List, Out};
use budb_changes::{Change, ChangeFault, decode, encode};
use budb_fold::{Database, fold};
use std::alloc::{AllocError, Global};

/// The most changes of a list, and one more.
const MOST: u32 = 60;

/// A list, its bytes, and the places at which its changes end.
#[derive(Drop)]
pub struct Case {
    pub steps: Vec<Step>,
    pub bytes: Vec<u8>,
    pub ends: Vec<usize>,
}

/// A list at random.
pub fn some_case(alloc: Global, random: &mut Random) -> Result<Case, AllocError> {
    let mut case = Case {
        steps: Vec::new(alloc),
        bytes: Vec::new(alloc),
        ends: Vec::new(alloc),
    };
    for _ in 0..random.below(MOST) {
        let step = some_step(random);
        put_step(&mut case.bytes, &step)?;
        case.ends.push(case.bytes.len())?;
        case.steps.push(step)?;
    }
    Ok(case)
}

/// Makes the changes one by one, compares the database behind each one with the plain model, and hands that out in the end.
fn make_each(
    alloc: Global,
    steps: &[Step],
    changes: &[Change],
    counts: &mut Counts,
) -> Result<Plain, AllocError> {
    let mut database = Database::new(alloc);
    let mut plain = Plain {
        sets: Vec::new(alloc),
        levels: Vec::new(alloc),
        hosts: Vec::new(alloc),
        greatest: 0,
        dumps: Vec::new(alloc),
    };
    for (step, change) in steps.iter().zip(changes.iter()) {
        let fits = plain.take_step(alloc, step)?;
        let told = database.fits(change)?;
        database.make(change.clone()?)?;
        counts.change(step.kind(), fits);
        counts.want(told == fits);
        counts.want(is_same(&database, &plain));
    }
    Ok(plain)
}

/// Whether changes are written as these bytes.
fn are_written(alloc: Global, changes: &[Change], bytes: &[u8]) -> Result<bool, AllocError> {
    let mut written = Out::new(alloc);
    encode(alloc, changes, &mut written)?;
    Ok(written.as_slice() == bytes)
}

/// Whether the changes behind a place, folded on what those before it make, give what the plain model says.
fn same_in_pieces(
    alloc: Global,
    changes: &[Change],
    place: usize,
    plain: &Plain,
) -> Result<bool, AllocError> {
    let (Some(first), Some(rest)) = (changes.get(..place), changes.get(place..)) else {
        return Ok(false);
    };
    let nothing = Database::new(alloc);
    let before = nothing.with(first)?;
    let database = before.with(rest)?;
    Ok(is_same(&database, plain))
}

/// Whether the changes, folded at once, give what the plain model says.
fn same_at_once(alloc: Global, changes: List<Change>, plain: &Plain) -> Result<bool, AllocError> {
    let database = fold(alloc, changes)?;
    Ok(is_same(&database, plain))
}

/// Tries the changes that were read of a list: they are as many, they are written as its bytes, and folded change by change
/// and in two pieces they give what the plain model says, which is handed out.
fn try_changes(
    alloc: Global,
    random: &mut Random,
    case: &Case,
    changes: &[Change],
    counts: &mut Counts,
) -> Result<Plain, AllocError> {
    counts.want(changes.len() == case.steps.len());
    counts.want(are_written(alloc, changes, case.bytes.as_slice())?);
    let plain = make_each(alloc, case.steps.as_slice(), changes, counts)?;
    let place = random.below(u32::try_from(changes.len()).unwrap_or(0)) as usize;
    counts.want(same_in_pieces(alloc, changes, place, &plain)?);
    Ok(plain)
}

/// Reads the list as changes, writes them again, and folds them change by change, in two pieces and at once.
pub fn try_whole(
    alloc: Global,
    random: &mut Random,
    case: &Case,
    counts: &mut Counts,
) -> anyhow::Result<()> {
    let Ok(changes) = decode(alloc, case.bytes.as_slice()) else {
        anyhow::bail!("the changes aren't read");
    };
    let plain = try_changes(alloc, random, case, changes.as_slice(), counts)?;
    counts.want(same_at_once(alloc, changes, &plain)?);
    counts.database(case.bytes.len() as u64, &plain);
    Ok(())
}

/// How many changes some bytes have, or where they are refused as none.
fn read(alloc: Global, bytes: &[u8]) -> anyhow::Result<Result<usize, u64>> {
    match decode(alloc, bytes) {
        Ok(changes) => Ok(Ok(changes.len())),
        Err(ChangeFault::BadChange { at }) => Ok(Err(at)),
        Err(ChangeFault::Memory) => anyhow::bail!("memory was refused"),
    }
}

/// The place at which a change ends, at random; 0 where the list has fewer.
fn some_end(random: &mut Random, ends: &[usize]) -> usize {
    match ends.get(random.below(MOST) as usize) {
        Some(end) => *end,
        None => 0,
    }
}

/// Tries a front of a list: one that ends with a change has the changes before, and any other one is refused at its length.
pub fn try_front(
    alloc: Global,
    random: &mut Random,
    case: &Case,
    counts: &mut Counts,
) -> anyhow::Result<()> {
    let ends = case.ends.as_slice();
    let length = if random.below(3) == 0 {
        some_end(random, ends)
    } else {
        random.below(u32::try_from(case.bytes.len()).unwrap_or(0)) as usize
    };
    let Some(front) = case.bytes.as_slice().get(..length) else {
        anyhow::bail!("the list is shorter");
    };
    let before = ends.iter().filter(|end| **end <= length).count();
    let is_whole = length == 0 || ends.iter().any(|end| *end == length);
    let wanted = if is_whole {
        counts.whole_fronts = counts.whole_fronts.saturating_add(1);
        Ok(before)
    } else {
        counts.torn_fronts = counts.torn_fronts.saturating_add(1);
        Err(length as u64)
    };
    counts.want(read(alloc, front)? == wanted);
    Ok(())
}

/// Tries a list with a kind that is none in front of a change or behind all: it is refused there.
pub fn try_bad_kind(
    alloc: Global,
    random: &mut Random,
    case: &Case,
    counts: &mut Counts,
) -> anyhow::Result<()> {
    let kind = if random.below(2) == 0 { 0 } else { 17 };
    let at = some_end(random, case.ends.as_slice());
    let bytes = case.bytes.as_slice();
    let (Some(front), Some(rest)) = (bytes.get(..at), bytes.get(at..)) else {
        anyhow::bail!("the list is shorter");
    };
    let mut spoilt = Vec::new(alloc);
    spoilt.extend_from_slice(front)?;
    spoilt.push(kind)?;
    spoilt.extend_from_slice(rest)?;
    counts.bad_kinds = counts.bad_kinds.saturating_add(1);
    counts.want(read(alloc, spoilt.as_slice())? == Err(at as u64));
    Ok(())
}
