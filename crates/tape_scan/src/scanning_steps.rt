//! One step of a scan: a record continues the text, or the scan stops in front of it.

ghost use Rattle.std.specs.Prelude.{◌≡◌, ℕ, ◌+◌, ◌≤◌, ◌<◌, IfOk};
ghost use Rattle.tape_scan.specs.declared.scanning_walk.Walk.TheVariants as walks;
ghost use Rattle.tape_frames.specs.declared.data.DataFields.{DataFields as AnyData};
ghost use Rattle.tape_frames.specs.Pieces.{Tells};
ghost use Rattle.tape_frames.specs.declared.frame.Frame.TheVariants as frames;
ghost use Rattle.tape_text.specs.Items.{Item};
ghost use Rattle.tape_text.specs.Items as items;
ghost use Rattle.tape_scan.specs.Steps.{IsOf, marks_in, with_piece, frag_found, with_frag, with_closed, Steps};

use crate::scanning_rules::{adds_piece, ends_fragment, ends_part, opens_fragment, opens_part};
use crate::scanning_walk::{FragmentSoFar, PartSoFar, Step, TapeItem, TapeSoFar, Walk};
use crate::sections::{FragFound, PartFound};
use bk_text::List;
use std::alloc::{AllocError, Global};
use tape_frames::{Label, Piece, VolEnd};

/// The number of bytes that a piece has at most.
const ROOM: u32 = 16_352;

/// In front of all a label continues the text.
fn at_the_front(at: u32, item: TapeItem) -> Step
    ensures { (said : Item) → IsOf item said → Steps walks.Nothing at said result }
{
    match item {
        TapeItem::Label(label) => Step::Taken(Walk::Labeled(label)),
        _ => Step::Stopped(Walk::Nothing),
    }
}

/// Behind the label a mark does.
fn behind_label(alloc: Global, label: Label, at: u32, item: TapeItem) -> Step
    ensures { (said : Item) → IsOf item said → Steps (walks.Labeled label) at said result }
{
    match item {
        TapeItem::Filemark => Step::Taken(Walk::Between(TapeSoFar {
            label,
            parts: List::new(alloc),
            marks: 1,
            uses: 0,
        })),
        _ => Step::Stopped(Walk::Labeled(label)),
    }
}

/// Behind a closed part, and where there is none yet, the head of the next part does.
fn between_parts(
    alloc: Global,
    tape: TapeSoFar,
    at: u32,
    item: TapeItem,
) -> Result<Step, AllocError>
    ensures { (said : Item) → IsOf item said → IfOk result (Steps (walks.Between tape) at said) }
{
    match item {
        TapeItem::DumpHead(head) => {
            if opens_part(alloc, &tape, &head)? {
                let frags = List::new(alloc);
                let first = at;
                let part = PartSoFar { head, first, frags };
                Ok(Step::Taken(Walk::InPart(tape, part)))
            } else {
                Ok(Step::Stopped(Walk::Between(tape)))
            }
        }
        _ => Ok(Step::Stopped(Walk::Between(tape))),
    }
}

/// In a part the head of a fragment does, or the part's end.
fn in_part(tape: TapeSoFar, part: PartSoFar, at: u32, item: TapeItem) -> Step
    ensures { (said : Item) → IsOf item said → Steps (walks.InPart tape part) at said result }
{
    match item {
        TapeItem::VolHead(head) => {
            if opens_fragment(&part, &head) {
                let fragment = FragmentSoFar {
                    head,
                    at,
                    some: false,
                    full: true,
                    bytes: 0,
                };
                Step::Taken(Walk::InFragment(tape, part, fragment))
            } else {
                Step::Stopped(Walk::InPart(tape, part))
            }
        }
        TapeItem::DumpEnd(end) => {
            if ends_part(&part, &end) {
                Step::Taken(Walk::BehindPart(tape, part, end.fields().more == 1))
            } else {
                Step::Stopped(Walk::InPart(tape, part))
            }
        }
        _ => Step::Stopped(Walk::InPart(tape, part)),
    }
}

/// A fragment with one more piece, for which there is room in the number of its bytes.
fn with_piece(fragment: FragmentSoFar, piece: Piece) -> FragmentSoFar
    requires { fragment.bytes + piece.used ≤ 4294967295 }
    ensures { (d : AnyData) → Tells piece d → result ≡ with_piece fragment d }
{
    let used = piece.used;
    FragmentSoFar {
        head: fragment.head,
        at: fragment.at,
        some: true,
        full: used == ROOM,
        bytes: fragment.bytes + used,
    }
}

/// What is found of a fragment that has its end.
fn frag_found(fragment: FragmentSoFar, end: &VolEnd) -> FragFound
    ensures { result ≡ frag_found fragment end.now }
{
    let last = end.fields().last == 1;
    FragFound {
        head: fragment.head,
        at: fragment.at,
        last: Some(last),
    }
}

/// A fragment with a piece behind it, where that goes on in it.
fn behind_piece(tape: TapeSoFar, part: PartSoFar, fragment: FragmentSoFar, piece: Piece) -> Step
    ensures { (at : ℕ) (d : AnyData) → Tells piece d → Steps (walks.InFragment tape part fragment) at (items.Says (frames.Data d)) result }
{
    if adds_piece(&fragment, piece) {
        let longer = with_piece(fragment, piece);
        Step::Taken(Walk::InFragment(tape, part, longer))
    } else {
        Step::Stopped(Walk::InFragment(tape, part, fragment))
    }
}

/// In a fragment a piece does, or the fragment's end.
fn in_fragment(
    tape: TapeSoFar,
    part: PartSoFar,
    fragment: FragmentSoFar,
    at: u32,
    item: &TapeItem,
) -> Result<Step, AllocError>
    ensures { (said : Item) → IsOf item.now said → IfOk result (Steps (walks.InFragment tape part fragment) at said) }
{
    match item {
        TapeItem::Piece(piece) => Ok(behind_piece(tape, part, fragment, *piece)),
        TapeItem::VolEnd(end) => {
            if ends_fragment(&fragment, end) {
                let longer = with_frag(part, frag_found(fragment, end))?;
                Ok(Step::Taken(Walk::BehindFragment(tape, longer)))
            } else {
                Ok(Step::Stopped(Walk::InFragment(tape, part, fragment)))
            }
        }
        _ => Ok(Step::Stopped(Walk::InFragment(tape, part, fragment))),
    }
}

/// A part with one more fragment.
fn with_frag(part: PartSoFar, frag: FragFound) -> Result<PartSoFar, AllocError>
    ensures { IfOk result (λ longer. longer ≡ with_frag part frag) }
{
    let PartSoFar {
        head,
        first,
        mut frags,
    } = part;
    frags.push(frag)?;
    Ok(PartSoFar { head, first, frags })
}

/// Behind a fragment's end a mark does.
fn behind_fragment(tape: TapeSoFar, part: PartSoFar, at: u32, item: TapeItem) -> Step
    requires { tape.marks < 4294967295 }
    ensures { (said : Item) → IsOf item said → Steps (walks.BehindFragment tape part) at said result }
{
    match item {
        TapeItem::Filemark => {
            let TapeSoFar {
                label,
                parts,
                marks,
                uses,
            } = tape;
            let marked = TapeSoFar {
                label,
                parts,
                marks: marks + 1,
                uses,
            };
            Step::Taken(Walk::InPart(marked, part))
        }
        _ => Step::Stopped(Walk::BehindFragment(tape, part)),
    }
}

/// The tape with a part that a mark closes, which is the record of this number.
fn with_closed(
    at: u32,
    tape: TapeSoFar,
    part: PartSoFar,
    more: bool,
) -> Result<TapeSoFar, AllocError>
    requires few { at < 4294967295 }
    requires marks { tape.marks < 4294967295 }
    ensures { IfOk result (λ now. now ≡ with_closed at tape part more) }
{
    let TapeSoFar {
        label,
        mut parts,
        marks,
        uses,
    } = tape;
    let told = part.head.fields().uses;
    let PartSoFar { head, first, frags } = part;
    parts.push(PartFound {
        head,
        first,
        end: Some(at + 1),
        marks: marks + 1,
        more,
        frags,
    })?;
    Ok(TapeSoFar {
        label,
        parts,
        marks: marks + 1,
        uses: if uses == 0 { told } else { uses },
    })
}

/// Behind a part's end a mark does.
fn behind_part(
    tape: TapeSoFar,
    part: PartSoFar,
    more: bool,
    at: u32,
    item: TapeItem,
) -> Result<Step, AllocError>
    requires few { at < 4294967295 }
    requires marks { tape.marks < 4294967295 }
    ensures { (said : Item) → IsOf item said → IfOk result (Steps (walks.BehindPart tape part more) at said) }
{
    match item {
        TapeItem::Filemark => {
            let closed = with_closed(at, tape, part, more)?;
            Ok(Step::Taken(Walk::Between(closed)))
        }
        _ => Ok(Step::Stopped(Walk::BehindPart(tape, part, more))),
    }
}

/// What becomes of a scan at a record of this number that says this. There were no more marks than records before it.
pub(crate) fn step(alloc: Global, walk: Walk, at: u32, item: TapeItem) -> Result<Step, AllocError>
    requires few { at < 4294967295 }
    requires marks { marks_in walk ≤ at }
    ensures steps { (said : Item) → IsOf item said → IfOk result (Steps walk at said) }
{
    match walk {
        Walk::Nothing => Ok(at_the_front(at, item)),
        Walk::Labeled(label) => Ok(behind_label(alloc, label, at, item)),
        Walk::Between(tape) => between_parts(alloc, tape, at, item),
        Walk::InPart(tape, part) => Ok(in_part(tape, part, at, item)),
        Walk::InFragment(tape, part, fragment) => in_fragment(tape, part, fragment, at, &item),
        Walk::BehindFragment(tape, part) => Ok(behind_fragment(tape, part, at, item)),
        Walk::BehindPart(tape, part, more) => behind_part(tape, part, more, at, item),
    }
}
