//! What a scan of one tape tells.

use bk_text::List;
use std::alloc::AllocError;
use tape_frames::{DumpHead, Label, VolHead};
use thiserror::Error;

/// A fragment whose head stands in the scanned front.
#[derive(Debug, Drop)]
pub struct FragFound {
    /// Its head.
    pub head: VolHead,
    /// The number of the record that its head is.
    pub at: u32,
    /// Whether the volume's stream ends with it, as its end says; None where its end isn't in the front.
    pub last: Option<bool>,
}

/// A part of a dump whose head stands in the scanned front.
#[derive(Debug, Drop)]
pub struct PartFound {
    /// Its head.
    pub head: DumpHead,
    /// The number of the record that its head is.
    pub first: u32,
    /// The number behind its last mark; None where that mark isn't in the front.
    pub end: Option<u32>,
    /// How many of the records before `end` are marks; 0 where there is no `end`.
    pub marks: u32,
    /// Whether the dump goes on on another tape, as the part's end says; false where there is no `end`.
    pub more: bool,
    /// Its fragments whose heads stand in the front, in order.
    pub frags: List<FragFound>,
}

/// What stands in the scanned front of a tape: the longest one that is a tape text.
#[derive(Debug, Drop)]
pub struct Sections {
    /// The slot.
    pub slot: u32,
    /// The label; None where the front is empty.
    pub label: Option<Label>,
    /// The parts whose heads stand in the front, in order.
    pub parts: List<PartFound>,
    /// The number of the record that doesn't continue the front; None where the front is all of the tape.
    pub stop: Option<u32>,
}

/// Why a tape wasn't scanned.
#[derive(Clone, Copy, Debug, PartialEq, Eq, Drop, Error)]
pub enum ScanFault {
    /// The call was refused by the outside.
    #[error("a call of the plant failed")]
    Failed,
    /// Memory was refused.
    #[error("memory was refused")]
    Memory,
}

impl From<AllocError> for ScanFault {
    ghost use Rattle.std.specs.Prelude.{◌≡◌};
    ghost use Rattle.tape_scan.specs.declared.sections.ScanFault.TheVariants.{Memory};

    ghost from_gives = { λ _ e. e ≡ Memory };

    fn from(_: AllocError) -> Self {
        ScanFault::Memory
    }
}

impl From<plant_core::Failed> for ScanFault {
    ghost use Rattle.std.specs.Prelude.{◌≡◌};
    ghost use Rattle.tape_scan.specs.declared.sections.ScanFault.TheVariants as faults;

    ghost from_gives = { λ _ e. e ≡ faults.Failed };

    fn from(_: plant_core::Failed) -> Self {
        ScanFault::Failed
    }
}
