//! What a dump has in hand between two steps.

ghost use Rattle.std.specs.Prelude.{◌≡◌};

use bk_text::List;
use budb_journal::{DumpRecord, Frag, TapePart, VolRecord};
use dump_stream::Writer;
use tape_config::Port;
use tape_frames::{DumpHead, Label, VolHead};

/// The next step of a dump.
#[derive(Clone, Copy, Debug, PartialEq, Eq)]
pub enum Phase {
    /// The chosen tape is cut and begun.
    Tape,
    /// The next volume is cloned.
    Clone,
    /// The head of a fragment is put, or the part is ended where the tape is full.
    Head,
    /// A piece of the volume's stream is put, or the fragment is ended where the tape is full.
    Piece,
    /// The volume's last fragment is ended.
    VolumeEnd,
    /// The part is ended behind a fragment that doesn't end its volume.
    PartEnd,
    /// The dump is ended.
    DumpEnd,
    /// No step is left.
    Over,
}

/// The tape in hand: its slot, and the blocks and filemarks on it. Before the tape step these are what it is cut to.
#[derive(Clone, Copy, Debug, PartialEq, Eq)]
pub struct Reel {
    /// The slot.
    pub slot: u32,
    /// The number of blocks.
    pub blocks: u32,
    /// The number of filemarks.
    pub marks: u32,
}

/// The volume in hand.
pub struct Hand {
    /// The head of its open fragment, or of the next one.
    pub head: VolHead,
    /// The bytes of its stream that weren't put.
    pub stream: Writer,
    /// Where its fragments on earlier tapes begin.
    pub frags: List<Frag>,
    /// The number of the record at which its fragment on this tape begins.
    pub at: u32,
    /// How many bytes of the stream this fragment has.
    pub bytes: u32,
}

/// It is written out, so that each function that lets one go calls it.
impl Drop for Hand {
    fn drop(self) {
        let Hand {
            head,
            stream,
            frags,
            at,
            bytes,
        } = self;
    }
}

impl Hand {
    /// The head of the open fragment, the stream, the record at which the fragment begins, and how many bytes it has.
    pub(crate) fn into_parts(self) -> (VolHead, Writer, u32, u32)
        ensures head { result.0 ≡ self.head }
        ensures stream { result.1 ≡ self.stream }
        ensures at { result.2 ≡ self.at }
        ensures bytes { result.3 ≡ self.bytes }
    {
        let Hand {
            head,
            stream,
            frags,
            at,
            bytes,
        } = self;
        (head, stream, at, bytes)
    }
}

/// A part of the dump that is ended: the slot of its tape, and its place there.
pub struct Filled {
    /// The slot.
    pub slot: u32,
    /// The part as the dump's record has it.
    pub part: TapePart,
}

/// It is written out, so that each function that lets one go calls it.
impl Drop for Filled {
    fn drop(self) {
        let Filled { slot, part } = self;
    }
}

/// A dump between two steps.
pub struct JobFields {
    /// The port whose slots it fills.
    pub port: Port,
    /// The time of the command in seconds since 1970, which is the clone time of read/write volumes.
    pub time: u32,
    /// The places of its volumes in the cell's list, in ascending order of their names.
    pub places: List<u32>,
    /// The record of its parent as it was when the dump began.
    pub parent: Option<DumpRecord>,
    /// The head of the part in hand. Of a tape that is taken the uses count from the tape step on, and are 1 before.
    pub head: DumpHead,
    /// The same head once more, from which the tape step makes the one that it puts; none behind that step.
    pub spare: Option<DumpHead>,
    /// The new label, where the tape in hand is taken; none where the dump is appended to it.
    pub label: Option<Label>,
    /// The tape in hand.
    pub reel: Reel,
    /// The number of the record at which the part in hand begins.
    pub first: u32,
    /// The parts that are ended, in order.
    pub filled: List<Filled>,
    /// The volume in hand: none before the first one.
    pub hand: Option<Hand>,
    /// The records of the volumes before the one in hand.
    pub volumes: List<VolRecord>,
    /// The next step.
    pub phase: Phase,
}

/// It is written out, so that who lets a dump go calls it: derived, it would be proved once more at each such place.
impl Drop for JobFields {
    fn drop(self) {
        let JobFields {
            port,
            time,
            places,
            parent,
            head,
            spare,
            label,
            reel,
            first,
            filled,
            hand,
            volumes,
            phase,
        } = self;
    }
}
