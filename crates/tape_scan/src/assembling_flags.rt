//! Which parts lead to the end of their dump.

ghost use Rattle.std.specs.Prelude.{◌≡◌, ◌↔◌, ◌+◌, ◌<◌, IsTrue, IfOk, IfSome, MatchOption, length};
ghost use Rattle.tape_scan.specs.AssembledSteps.{Stands, Completes, IsKnown, AreKnownFrom, AreKnown, IsBelow, IsAbove, IsGreatestBelow, IsFirstNext, HasNoNext, seen};

use crate::assembling_next::{ends, goes_on};
use crate::sections::PartFound;
use std::alloc::{AllocError, Global};

/// Whether a number is below a bound, if there is one.
fn is_below(number: u32, bound: Option<u32>) -> bool
    ensures { IsTrue result ↔ IsBelow number bound }
{
    match bound {
        None => true,
        Some(bound) => number < bound,
    }
}

/// Whether a number is above the greatest so far, if there is one.
fn is_above(number: u32, greatest: Option<u32>) -> bool
    ensures { IsTrue result ↔ IsAbove number greatest }
{
    match greatest {
        None => true,
        Some(greatest) => greatest < number,
    }
}

/// The greatest number of a part, of those below a bound.
fn greatest_below(parts: &[&PartFound], bound: Option<u32>) -> Option<u32>
    ensures { IsGreatestBelow (seen parts.now) bound (length parts.now) result }
{
    let mut greatest = None;
    for i in 0..parts.len() {
        let number = parts[i].head.fields().part;
        if is_below(number, bound) && is_above(number, greatest) {
            greatest = Some(number);
        }
    }
    greatest
}

/// The first flagged part that goes a part on.
pub(crate) fn next_of(parts: &[&PartFound], good: &[bool], part: &PartFound) -> Option<usize>
    requires { length good.now ≡ length parts.now }
    ensures next { MatchOption result (HasNoNext (seen parts.now) good.now part.now) (λ at. (q : PartFound) × IsFirstNext (seen parts.now) good.now part.now at q) }
    ensures below { IfSome result (λ at. part.now.head.part < 4294967295) }
{
    for i in 0..parts.len() {
        if good[i] && goes_on(part, parts[i]) {
            return Some(i);
        }
    }
    None
}

/// Whether a part leads to the end of its dump, where it is known which of the parts with greater numbers do.
fn leads_on(parts: &[&PartFound], good: &[bool], part: &PartFound) -> bool
    requires long { length good.now ≡ length parts.now }
    requires known { AreKnownFrom (seen parts.now) good.now (part.now.head.part + 1) }
    ensures { IsTrue result ↔ Completes (seen parts.now) part.now }
{
    if ends(part) {
        return true;
    }
    match next_of(parts, good, part) {
        None => false,
        Some(_) => true,
    }
}

/// Flags the parts of a number that lead to the end of their dump, where those with greater numbers are flagged.
fn flag_number(parts: &[&PartFound], number: u32, good: &mut [bool])
    requires long { length good.old ≡ length parts.now }
    requires known { AreKnownFrom (seen parts.now) good.old (number + 1) }
    ensures { AreKnownFrom (seen parts.now) good.new number }
{
    for i in 0..parts.len() {
        let part = parts[i];
        if part.head.fields().part == number {
            let leads = leads_on(parts, good, part);
            good[i] = leads;
        }
    }
}

/// Flags the parts that lead to the end of their dump, from the greatest number down.
fn flag(parts: &[&PartFound], good: &mut [bool])
    requires { length good.old ≡ length parts.now }
    ensures { AreKnown (seen parts.now) good.new }
{
    let mut greatest = greatest_below(parts, None);
    'numbers: while let Some(number) = greatest {
        flag_number(parts, number, good);
        greatest = greatest_below(parts, Some(number));
    }
}

/// The flags of the parts: whether a part leads to the end of its dump.
pub(crate) fn flags(alloc: Global, parts: &[&PartFound]) -> Result<Vec<bool>, AllocError>
    ensures long { IfOk result (λ good. length good.items ≡ length parts.now) }
    ensures known { IfOk result (λ good. AreKnown (seen parts.now) good.items) }
{
    let mut good = vec![in alloc; false; parts.len()]?;
    flag(parts, good.as_mut_slice());
    Ok(good)
}
