//! How far a scan got on a tape: where it stands in the text, and what it has found.

use crate::sections::{FragFound, PartFound};
use bk_text::List;
use tape_frames::{DumpEnd, DumpHead, Label, Piece, VolEnd, VolHead};

/// What a record of a tape says.
#[derive(Debug, Drop)]
pub(crate) enum TapeItem {
    /// A tape's label.
    Label(Label),
    /// The head of a dump's part.
    DumpHead(DumpHead),
    /// The head of a volume's fragment.
    VolHead(VolHead),
    /// A piece of data, without its bytes: with them each item would be as large as a block.
    Piece(Piece),
    /// The end of a volume's fragment.
    VolEnd(VolEnd),
    /// The end of a dump's part.
    DumpEnd(DumpEnd),
    /// A mark.
    Filemark,
    /// Nothing that a tape of dumps may have: a block of no frame, or a bad record.
    Nothing,
}

/// The tape up to its last closed part.
#[derive(Debug, Drop)]
pub(crate) struct TapeSoFar {
    /// The label.
    pub label: Label,
    /// The closed parts.
    pub parts: List<PartFound>,
    /// How many marks there were, with those of the open part.
    pub marks: u32,
    /// The uses that the first head of version 2 tells; 0 where there was none.
    pub uses: u32,
}

/// A part that is open.
#[derive(Debug, Drop)]
pub(crate) struct PartSoFar {
    /// Its head.
    pub head: DumpHead,
    /// The number of the record that its head is.
    pub first: u32,
    /// Its fragments up to the last one that has its end.
    pub frags: List<FragFound>,
}

/// A fragment that has no end yet.
#[derive(Debug, Drop)]
pub(crate) struct FragmentSoFar {
    /// Its head.
    pub head: VolHead,
    /// The number of the record that its head is.
    pub at: u32,
    /// Whether a piece has come.
    pub some: bool,
    /// Whether all of its pieces have all the room used.
    pub full: bool,
    /// How many bytes its pieces have.
    pub bytes: u32,
}

/// Where a scan stands.
#[derive(Debug, Drop)]
pub(crate) enum Walk {
    /// In front of all.
    Nothing,
    /// Behind the label.
    Labeled(Label),
    /// Behind the label's mark or that of a part.
    Between(TapeSoFar),
    /// Behind a part's head, or behind the mark of a fragment.
    InPart(TapeSoFar, PartSoFar),
    /// Behind a fragment's head, or one of its pieces.
    InFragment(TapeSoFar, PartSoFar, FragmentSoFar),
    /// Behind a fragment's end.
    BehindFragment(TapeSoFar, PartSoFar),
    /// Behind a part's end, and whether its dump goes on on another tape.
    BehindPart(TapeSoFar, PartSoFar, bool),
}

/// What becomes of a scan at a record.
#[derive(Debug, Drop)]
pub(crate) enum Step {
    /// The record continues the text.
    Taken(Walk),
    /// It doesn't, and the scan stands where it stood.
    Stopped(Walk),
}
