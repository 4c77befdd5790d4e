//! The frames.

ghost use Rattle.std.specs.Prelude.{◌≡◌};
ghost use Rattle.tape_frames.specs.Frames.{Fits, spelling};

use crate::data::Data;
use crate::dump_end::DumpEnd;
use crate::dump_head::DumpHead;
use crate::label::Label;
use crate::page::Block;
use crate::vol_end::VolEnd;
use crate::vol_head::VolHead;

/// A frame of a tape.
#[derive(Debug, Drop)]
pub enum Frame {
    /// The label in front of all.
    Label(Label),
    /// The head of a dump's part on a tape.
    DumpHead(DumpHead),
    /// The head of a volume's fragment.
    VolHead(VolHead),
    /// A piece of a volume's stream.
    Data(Data),
    /// The end of a volume's fragment.
    VolEnd(VolEnd),
    /// The end of a dump's part on this tape.
    DumpEnd(DumpEnd),
}

impl Frame {
    /// Writes its block. It takes no memory.
    pub fn encode(&self, into: &mut Block)
        ensures block { into.new ≡ spelling self.now }
        ensures fits { Fits self.now }
    {
        match self {
            Frame::Label(a) => a.encode(into),
            Frame::DumpHead(a) => a.encode(into),
            Frame::VolHead(a) => a.encode(into),
            Frame::Data(a) => a.encode(into),
            Frame::VolEnd(a) => a.encode(into),
            Frame::DumpEnd(a) => a.encode(into),
        }
    }
}
