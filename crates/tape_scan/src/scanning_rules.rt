//! What continues a text, by where a scan stands in it.

ghost use Rattle.std.specs.Prelude.{◌≡◌, ◌≢◌, ◌↔◌, ◌+◌, ◌≤◌, IsTrue, IfOk};
ghost use Rattle.tape_frames.specs.declared.data.DataFields.{DataFields as AnyData};
ghost use Rattle.tape_frames.specs.Pieces.{Tells};
ghost use Rattle.tape_frames.specs.TapeNames.{numbered};
ghost use Rattle.tape_text.specs.Texts.{NextVolume};
ghost use Rattle.tape_scan.specs.Steps.{last_of, is_last, ends_last, HeadBehind, OpensPart, FragmentBehind, OpensFragment, AddsPiece, EndsFragment, EndsPart};

use crate::scanning_walk::{FragmentSoFar, PartSoFar, TapeSoFar};
use crate::sections::{FragFound, PartFound};
use bk_text::List;
use std::alloc::{AllocError, Global};
use std::cmp::Ordering;
use tape_frames::{DumpEnd, DumpHead, Label, Piece, VolEnd, VolHead, tape_name};

/// Whether a label's name is that of the tape of this number, behind what its dump's names begin with.
fn has_name(alloc: Global, label: &Label, head: &DumpHead) -> Result<bool, AllocError>
    ensures { IfOk result (λ b. IsTrue b ↔ (label.now.afs ≡ numbered head.now.base head.now.tape)) }
{
    let fields = head.fields();
    let name = tape_name(alloc, &fields.base, fields.tape)?;
    Ok(label.fields().afs.as_slice() == name.bytes())
}

/// Whether a head may stand behind these parts.
fn may_follow(parts: &List<PartFound>, head: &DumpHead) -> bool
    ensures { IsTrue result ↔ HeadBehind (last_of parts.now) head.now }
{
    match parts.as_slice().last() {
        None => true,
        Some(part) => {
            !part.more && part.head.fields().id < head.fields().id && head.fields().part == 1
        }
    }
}

/// Whether a head tells the label's initial dump, its tape and, where it tells uses, its permanent name.
fn agrees(label: &Label, head: &DumpHead) -> bool
    ensures { IsTrue result ↔ ((head.now.initial ≡ label.now.initial) × (head.now.tape ≡ label.now.tape) × (head.now.uses ≢ 0 → head.now.permanent ≡ label.now.permanent)) }
{
    let (own, told) = (head.fields(), label.fields());
    own.initial == told.initial
        && own.tape == told.tape
        && (own.uses == 0 || own.permanent.as_slice() == told.permanent.as_slice())
}

/// Whether a head tells the uses that the heads before it told, where both tell some.
fn agrees_in_uses(uses: u32, head: &DumpHead) -> bool
    ensures { IsTrue result ↔ (head.now.uses ≢ 0 → uses ≢ 0 → head.now.uses ≡ uses) }
{
    let own = head.fields().uses;
    own == 0 || uses == 0 || own == uses
}

/// Whether a head opens a part on this tape.
pub(crate) fn opens_part(
    alloc: Global,
    tape: &TapeSoFar,
    head: &DumpHead,
) -> Result<bool, AllocError>
    ensures { IfOk result (λ b. IsTrue b ↔ OpensPart tape.now head.now) }
{
    let named = has_name(alloc, &tape.label, head)?;
    Ok(
        named
            && agrees(&tape.label, head)
            && agrees_in_uses(tape.uses, head)
            && may_follow(&tape.parts, head),
    )
}

/// Whether one name stands before another in byte order.
fn is_before(one: &VolHead, other: &VolHead) -> bool
    ensures { IsTrue result ↔ NextVolume one.now other.now }
{
    let (a, b) = (one.fields(), other.fields());
    b.index as u64 == a.index as u64 + 1
        && b.fragment == 1
        && a.name.bytes().cmp(b.name.bytes()) == Ordering::Less
}

/// Whether a fragment that has its end ends its volume.
fn ends_volume(last: Option<bool>) -> bool
    ensures { result ≡ is_last last }
{
    match last {
        None => false,
        Some(last) => last,
    }
}

/// Whether a fragment's head may stand behind these fragments of a part of this number.
fn may_follow_in(part: u32, frags: &List<FragFound>, head: &VolHead) -> bool
    ensures { IsTrue result ↔ FragmentBehind part (last_of frags.now) head.now }
{
    match frags.as_slice().last() {
        None => part != 1 || (head.fields().index == 0 && head.fields().fragment == 1),
        Some(frag) => ends_volume(frag.last) && is_before(&frag.head, head),
    }
}

/// Whether a volume's head opens a fragment of this part.
pub(crate) fn opens_fragment(part: &PartSoFar, head: &VolHead) -> bool
    ensures { IsTrue result ↔ OpensFragment part.now head.now }
{
    let dump = part.head.fields();
    let own = head.fields();
    own.dump == dump.id && own.index < dump.volumes && may_follow_in(dump.part, &part.frags, head)
}

/// Whether a piece goes on in this fragment.
pub(crate) fn adds_piece(fragment: &FragmentSoFar, piece: Piece) -> bool
    ensures added { (d : AnyData) → Tells piece d → IsTrue result ↔ AddsPiece fragment.now d }
    ensures room { IsTrue result → fragment.now.bytes + piece.used ≤ 4294967295 }
{
    let head = fragment.head.fields();
    piece.dump == head.dump
        && piece.index == head.index
        && fragment.full
        && fragment.bytes as u64 + piece.used as u64 <= 4_294_967_295
}

/// Whether this is the end of a fragment.
pub(crate) fn ends_fragment(fragment: &FragmentSoFar, end: &VolEnd) -> bool
    ensures { IsTrue result ↔ EndsFragment fragment.now end.now }
{
    let head = fragment.head.fields();
    let own = end.fields();
    fragment.some
        && (fragment.full || own.last == 1)
        && own.dump == head.dump
        && own.index == head.index
        && own.fragment == head.fragment
        && own.bytes == fragment.bytes
}

/// Whether a fragment ends the last of so many volumes.
fn ends_dump(volumes: u32, frag: &FragFound) -> bool
    ensures { result ≡ ends_last volumes frag.now }
{
    ends_volume(frag.last) && frag.head.fields().index as u64 + 1 == volumes as u64
}

/// Whether this is the end of a part.
pub(crate) fn ends_part(part: &PartSoFar, end: &DumpEnd) -> bool
    ensures { IsTrue result ↔ EndsPart part.now end.now }
{
    let head = part.head.fields();
    let own = end.fields();
    match part.frags.as_slice().last() {
        None => false,
        Some(frag) => {
            own.dump == head.id && own.more == if ends_dump(head.volumes, frag) { 0 } else { 1 }
        }
    }
}
