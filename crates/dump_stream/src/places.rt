//! How far a stream was given, and giving more of it.

ghost use Rattle.std.specs.Prelude.{◌≡◌, ◌↔◌, IsTrue, ℕ, List, ◌+◌, ◌<◌, ◌≤◌, ◌^◌, [], ◌++◌, length, min, take, drop, MatchOption, true, false};
ghost use Rattle.vnode_model.specs.Limits.{AreVolume};
ghost use Rattle.vnode_model.specs.Increments.{entry_from};
ghost use Rattle.dump_stream.specs.Parts.{head_of, data_of};
ghost use Rattle.dump_stream.specs.Left.{step_data, here, left, Gives, Turns, IsOver};

use crate::part::Part;
use crate::sections::{put_end, put_kept, put_whole};
use vnode_model::{Vnode, Volume, is_whole_from};

/// How far a stream was given. A stream goes by steps: step 0 has the headers, the next ones a vnode each, the last one
/// the end.
#[derive(Debug, Drop)]
pub struct Place {
    /// The bytes of the step up to its data.
    pub part: Part,
    pub step: usize,
    /// How many bytes of the part were given.
    pub taken: usize,
    /// How many bytes of the data were given.
    pub given: usize,
}

/// The data of a vnode in an increment from this time on.
fn data_from(from: u32, vnode: &Vnode) -> &[u8]
    ensures { result.now ≡ data_of (entry_from from vnode.now) }
{
    if is_whole_from(from, vnode) {
        vnode.body.as_slice()
    } else {
        &[]
    }
}

/// The data of a step.
fn data_at(vnodes: &[Vnode], from: u32, step: usize) -> &[u8]
    ensures { result.now ≡ step_data vnodes.now from step }
{
    if step == 0 {
        return &[];
    }
    match vnodes.get(step - 1) {
        Some(vnode) => data_from(from, vnode),
        None => &[],
    }
}

/// Copies as many bytes as there are and there is room for.
fn copy(from: &[u8], into: &mut [u8]) -> usize
    ensures count { result ≡ min (length from.now) (length into.old) }
    ensures filled { into.new ≡ take result from.now ++ drop result into.old }
{
    let count = from.len().min(into.len());
    into[..count].copy_from_slice(&from[..count]);
    count
}

/// Gives bytes of a source from a place on: none only where none are left of it.
fn give_from(source: &[u8], at: &mut usize, room: &mut [u8]) -> usize
    ensures gives { Gives (drop at.old source.now) (drop at.new source.now) room.old room.new result }
    ensures none { result ≡ 0 → 0 < length room.old → drop at.old source.now ≡ [] }
{
    if *at >= source.len() {
        return 0;
    }
    let count = copy(&source[*at..], room);
    *at += count;
    count
}

/// Gives bytes of the present step: none only where none are left of it.
fn give_here(vnodes: &[Vnode], from: u32, place: &mut Place, room: &mut [u8]) -> usize
    requires { 0 < length room.old }
    ensures gives { Gives (left vnodes.now from place.old) (left vnodes.now from place.new) room.old room.new result }
    ensures step { place.new.step ≡ place.old.step }
    ensures none { result ≡ 0 → here vnodes.now from place.new ≡ [] }
{
    let count = give_from(place.part.as_slice(), &mut place.taken, room);
    if count > 0 {
        return count;
    }
    let data = data_at(vnodes, from, place.step);
    let count = give_from(data, &mut place.given, room);
    count
}

/// The section of a vnode in an increment from this time on, up to its data.
fn put_vnode(part: &mut Part, from: u32, vnode: &Vnode)
    requires { length vnode.now.body < 2 ^ 32 }
    ensures { part.new ≡ head_of (entry_from from vnode.now) }
{
    if is_whole_from(from, vnode) {
        put_whole(part, vnode);
    } else {
        put_kept(part, vnode.number, vnode.uniq);
    }
}

/// Begins the step of the next vnode.
fn begin_vnode(vnodes: &[Vnode], from: u32, place: &mut Place)
    requires given { here vnodes.now from place.old ≡ [] }
    requires more { place.old.step < length vnodes.now }
    requires volume { AreVolume vnodes.now }
    ensures left { left vnodes.now from place.new ≡ left vnodes.now from place.old }
    ensures step { place.new.step ≡ place.old.step + 1 }
{
    put_vnode(&mut place.part, from, &vnodes[place.step]);
    place.step += 1;
    place.taken = 0;
    place.given = 0;
}

/// Begins the last step.
fn begin_end(vnodes: &[Vnode], from: u32, place: &mut Place)
    requires given { here vnodes.now from place.old ≡ [] }
    requires last { place.old.step ≡ length vnodes.now }
    ensures left { left vnodes.now from place.new ≡ left vnodes.now from place.old }
    ensures step { place.new.step ≡ place.old.step + 1 }
{
    put_end(&mut place.part);
    place.step += 1;
    place.taken = 0;
    place.given = 0;
}

/// Begins the next step; `false` where there is none.
fn advance(vnodes: &[Vnode], from: u32, place: &mut Place) -> bool
    requires given { here vnodes.now from place.old ≡ [] }
    requires volume { AreVolume vnodes.now }
    ensures moved { result ≡ true → (left vnodes.now from place.new ≡ left vnodes.now from place.old) × (place.new.step ≡ place.old.step + 1) × (place.old.step ≤ length vnodes.now) }
    ensures ended { result ≡ false → (left vnodes.now from place.old ≡ []) × (left vnodes.now from place.new ≡ []) }
{
    if place.step < vnodes.len() {
        begin_vnode(vnodes, from, place);
        return true;
    }
    if place.step == vnodes.len() {
        begin_end(vnodes, from, place);
        return true;
    }
    false
}

/// Gives bytes of the present step, or begins the next one; `None` where nothing is left.
fn turn(vnodes: &[Vnode], from: u32, place: &mut Place, room: &mut [u8]) -> Option<usize>
    requires room { 0 < length room.old }
    requires volume { AreVolume vnodes.now }
    ensures { MatchOption result (IsOver vnodes.now from place.old place.new room.old room.new) (λ count. Turns vnodes.now from place.old place.new room.old room.new count) }
{
    let count = give_here(vnodes, from, place, room);
    if count > 0 {
        return Some(count);
    }
    if advance(vnodes, from, place) {
        Some(0)
    } else {
        None
    }
}

/// Lets go of a volume's vnodes. Where nothing was left, nothing is left behind none either.
pub fn let_go(volume: &mut Volume, place: &Place)
    ensures { (since : ℕ) → left volume.old.vnodes since place.now ≡ [] → left volume.new.vnodes since place.now ≡ [] }
{
    volume.clear();
}

/// Whether nothing is left.
pub fn is_over(vnodes: &[Vnode], place: &Place) -> bool
    ensures { (since : ℕ) → IsTrue result ↔ (left vnodes.now since place.now ≡ []) }
{
    if place.step <= vnodes.len() {
        return false;
    }
    place.part.as_slice().len() <= place.taken
}

/// Gives the next bytes that are left: as many as there is room for, less only where no more are left.
pub fn give(vnodes: &[Vnode], from: u32, place: &mut Place, into: &mut [u8]) -> usize
    requires { AreVolume vnodes.now }
    ensures count { result ≡ min (length into.old) (length (left vnodes.now from place.old)) }
    ensures given { into.new ≡ take result (left vnodes.now from place.old) ++ drop result into.old }
    ensures left { left vnodes.now from place.new ≡ drop result (left vnodes.now from place.old) }
{
    let mut count = 0;
    while count < into.len() {
        match turn(vnodes, from, place, &mut into[count..]) {
            Some(more) => count += more,
            None => return count,
        }
    }
    count
}
