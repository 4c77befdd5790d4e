//! What a scan tells where it stands.

ghost use Rattle.std.specs.Prelude.{◌≡◌, ◌++◌, ◌∷◌, [], IfOk};
ghost use Rattle.tape_scan.specs.Steps.{open_part, open_frag, sections_of};

use crate::scanning_walk::{FragmentSoFar, PartSoFar, TapeSoFar, Walk};
use crate::sections::{FragFound, PartFound, Sections};
use bk_text::List;
use std::alloc::{AllocError, Global};

/// A part that isn't closed, with these fragments.
fn open_part(part: PartSoFar) -> PartFound
    ensures { result ≡ open_part part part.frags }
{
    PartFound {
        head: part.head,
        first: part.first,
        end: None,
        marks: 0,
        more: false,
        frags: part.frags,
    }
}

/// A part with one more fragment, which has no end.
fn with_open(part: PartSoFar, fragment: FragmentSoFar) -> Result<PartSoFar, AllocError>
    ensures { IfOk result (λ longer. longer ≡ record part { frags = part.frags ++ open_frag fragment ∷ [] }) }
{
    let PartSoFar {
        head,
        first,
        mut frags,
    } = part;
    frags.push(FragFound {
        head: fragment.head,
        at: fragment.at,
        last: None,
    })?;
    Ok(PartSoFar { head, first, frags })
}

/// What is told of a tape whose last part is open.
fn with_part(
    slot: u32,
    stop: Option<u32>,
    tape: TapeSoFar,
    part: PartSoFar,
) -> Result<Sections, AllocError>
    ensures { IfOk result (λ told. told ≡ record { slot = slot; label = Some tape.label; parts = tape.parts ++ open_part part part.frags ∷ []; stop = stop }) }
{
    let TapeSoFar {
        label,
        mut parts,
        marks: _,
        uses: _,
    } = tape;
    parts.push(open_part(part))?;
    Ok(Sections {
        slot,
        label: Some(label),
        parts,
        stop,
    })
}

/// What a scan of the tape in this slot tells that stands here.
pub(crate) fn sections_in(
    alloc: Global,
    slot: u32,
    walk: Walk,
    stop: Option<u32>,
) -> Result<Sections, AllocError>
    ensures { IfOk result (λ told. told ≡ sections_of slot stop walk) }
{
    match walk {
        Walk::Nothing => Ok(Sections {
            slot,
            label: None,
            parts: List::new(alloc),
            stop,
        }),
        Walk::Labeled(label) => Ok(Sections {
            slot,
            label: Some(label),
            parts: List::new(alloc),
            stop,
        }),
        Walk::Between(tape) => Ok(Sections {
            slot,
            label: Some(tape.label),
            parts: tape.parts,
            stop,
        }),
        Walk::InPart(tape, part) => with_part(slot, stop, tape, part),
        Walk::InFragment(tape, part, fragment) => {
            with_part(slot, stop, tape, with_open(part, fragment)?)
        }
        Walk::BehindFragment(tape, part) => with_part(slot, stop, tape, part),
        Walk::BehindPart(tape, part, _) => with_part(slot, stop, tape, part),
    }
}
