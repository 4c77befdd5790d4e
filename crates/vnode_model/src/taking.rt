//! The vnodes that entries stand for, taken out of a base's vnodes in order.

ghost use Rattle.std.specs.Prelude.{◌≡◌, ◌↔◌, IsTrue, IsOk, OnOk, find};
ghost use Rattle.vnode_model.specs.Limits.{AreFit, AreVolume, StandsBefore, number_of};
ghost use Rattle.vnode_model.specs.Increments.{is_named, vnodes_of};
ghost use Rattle.vnode_model.specs.Taking.{AreOrdered, BeginsBefore, begins_named, SameAt, SameBehind, IsTaken, AreTaken};

use crate::applying::ApplyFault;
use crate::increments::Entry;
use crate::vnodes::{Vnode, stands_before};
use crate::volumes::{Volume, VolumeFields};
use bk_text::List;
use std::alloc::Global;
use std::collections::VecDeque;

fn begins_before(rest: &VecDeque<Vnode>, number: u32) -> bool
    ensures { IsTrue result ↔ BeginsBefore number rest.now.items }
{
    match rest.front() {
        Some(vnode) => stands_before(vnode.number, number),
        None => false,
    }
}

fn begins_named(rest: &VecDeque<Vnode>, number: u32, uniq: u32) -> bool
    ensures { result ≡ begins_named number uniq rest.now.items }
{
    match rest.front() {
        Some(vnode) => vnode.number == number && vnode.uniq == uniq,
        None => false,
    }
}

/// Drops the vnodes that stand before a number.
fn skip_before(rest: &mut VecDeque<Vnode>, number: u32)
    requires { AreOrdered rest.old.items }
    ensures ordered { AreOrdered rest.new.items }
    ensures front { BeginsBefore number rest.new.items → ⊥ }
    ensures here { SameAt rest.old.items rest.new.items number }
    ensures behind { SameBehind number rest.old.items rest.new.items }
{
    while begins_before(rest, number) {
        rest.pop_front();
    }
}

/// Takes the vnode of this number and this uniquifier out, with those that stand before it.
fn take_named(rest: &mut VecDeque<Vnode>, number: u32, uniq: u32) -> Option<Vnode>
    requires { AreOrdered rest.old.items }
    ensures found { result ≡ find (is_named number uniq) rest.old.items }
    ensures ordered { AreOrdered rest.new.items }
    ensures behind { SameBehind number rest.old.items rest.new.items }
{
    skip_before(rest, number);
    if begins_named(rest, number, uniq) {
        rest.pop_front()
    } else {
        None
    }
}

/// The vnode that an entry stands for.
fn take(rest: &mut VecDeque<Vnode>, entry: Entry) -> Result<Vnode, ApplyFault>
    requires { AreOrdered rest.old.items }
    ensures taken { IsTaken rest.old.items entry result }
    ensures ordered { AreOrdered rest.new.items }
    ensures behind { SameBehind (number_of entry) rest.old.items rest.new.items }
{
    match entry {
        Entry::Whole(vnode) => Ok(vnode),
        Entry::Kept { number, uniq } => match take_named(rest, number, uniq) {
            Some(vnode) => Ok(vnode),
            None => Err(ApplyFault::BaseLacks { number, uniq }),
        },
    }
}

/// A base's vnodes; none without a base.
pub fn vnodes_in(alloc: Global, base: Option<Volume>) -> VecDeque<Vnode>
    ensures value { result.items ≡ vnodes_of base }
    ensures form { AreVolume (vnodes_of base) }
{
    match base {
        Some(volume) => {
            let VolumeFields { vnodes, .. } = volume.into_fields();
            VecDeque::from(vnodes.into_vec())
        }
        None => VecDeque::new(alloc),
    }
}

/// The vnodes that entries stand for over a base's.
pub fn take_all(
    alloc: Global,
    mut rest: VecDeque<Vnode>,
    entries: List<Entry>,
) -> Result<List<Vnode>, ApplyFault>
    requires ordered { AreOrdered rest.items }
    requires fit { AreFit entries }
    ensures { AreTaken rest.items entries result }
{
    let mut vnodes = List::new(alloc);
    for entry in entries.into_vec() {
        match take(&mut rest, entry) {
            Ok(vnode) => vnodes.push(vnode)?,
            Err(fault) => return Err(fault),
        }
    }
    Ok(vnodes)
}
