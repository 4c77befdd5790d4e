//! Reading a frame from its block.

ghost use Rattle.std.specs.Prelude.{◌≡◌, ◌-◌, ◌≤◌, [], length, drop, IfSome, MatchResult};
ghost use Rattle.byte_formats.specs.Formats.{Took, Stops, filled};
ghost use Rattle.tape_frames.specs.declared.fault.FrameFault.TheVariants as faults;
ghost use Rattle.tape_frames.specs.declared.frame.Frame.{Frame as AnyFrame};
ghost use Rattle.tape_frames.specs.Frames.{Fits, spelling};
ghost use Rattle.tape_frames.specs.Kinds.{frame_form};
ghost use Rattle.tape_frames.specs.Decodes.{Decodes};
ghost use Rattle.tape_frames.specs.declared.dump_head.DumpHeadFields.{DumpHeadFields as AnyHead};
ghost use Rattle.tape_frames.specs.Layouts.{FitsDumpHead};
ghost use Rattle.tape_frames.specs.Blocks.{dump_head_block};
ghost use Rattle.tape_frames.specs.Pieces.{IsPieceOf};

use crate::data::Data;
use crate::dump_end::DumpEnd;
use crate::dump_head::DumpHead;
use crate::fault::FrameFault;
use crate::frame::Frame;
use crate::head::{has_head, read_head};
use crate::kind::Kind;
use crate::label::Label;
use crate::page::Block;
use crate::vol_end::VolEnd;
use crate::vol_head::VolHead;
use crate::whole::{
    whole_data, whole_dump_end, whole_dump_head, whole_label, whole_plain_head, whole_vol_end,
    whole_vol_head,
};
use byte_formats::ReadFault;
use std::alloc::Global;

/// What is told of a piece of data without its bytes.
#[derive(Clone, Copy, Debug, PartialEq, Eq)]
pub struct Piece {
    /// The id of the dump.
    pub dump: u32,
    /// The place of the volume in the dump, from 0 on.
    pub index: u32,
    /// The number of bytes that are used, 1 to 16,352.
    pub used: u32,
}

/// The bytes behind the head.
fn body_of(block: &Block) -> &[u8]
    ensures is { result.now ≡ drop 8 block.now }
    ensures long { length result.now ≡ 16376 }
{
    &block[8..]
}

/// The frame of a kind whose fields these are, up to the end of the block.
fn frame_in(alloc: Global, kind: Kind, body: &[u8]) -> Result<Frame, ReadFault>
    requires { length body.now ≡ 16376 }
    ensures { MatchResult result (λ f. Took (filled (length body.now) (frame_form kind)) body.now f []) (λ fault. Stops (filled (length body.now) (frame_form kind)) body.now fault) }
{
    match kind {
        Kind::Label => match whole_label(body) {
            Err(left) => Err(ReadFault::Bad { left }),
            Ok(view) => Ok(Frame::Label(Label::from_view(alloc, &view)?)),
        },
        Kind::PlainHead => match whole_plain_head(body) {
            Err(left) => Err(ReadFault::Bad { left }),
            Ok(view) => Ok(Frame::DumpHead(DumpHead::from_view(alloc, &view)?)),
        },
        Kind::DumpHead => match whole_dump_head(body) {
            Err(left) => Err(ReadFault::Bad { left }),
            Ok(view) => Ok(Frame::DumpHead(DumpHead::from_view(alloc, &view)?)),
        },
        Kind::VolHead => match whole_vol_head(body) {
            Err(left) => Err(ReadFault::Bad { left }),
            Ok(view) => Ok(Frame::VolHead(VolHead::from_view(alloc, &view)?)),
        },
        Kind::Data => match whole_data(body) {
            Err(left) => Err(ReadFault::Bad { left }),
            Ok(view) => Ok(Frame::Data(Data::from_view(&view))),
        },
        Kind::VolEnd => match whole_vol_end(body) {
            Err(left) => Err(ReadFault::Bad { left }),
            Ok(fields) => Ok(Frame::VolEnd(VolEnd::new(fields))),
        },
        Kind::DumpEnd => match whole_dump_end(body) {
            Err(left) => Err(ReadFault::Bad { left }),
            Ok(fields) => Ok(Frame::DumpEnd(DumpEnd::new(fields))),
        },
    }
}

/// The frame whose block this is, or the place at which the block stops being a frame's.
pub fn decode(alloc: Global, block: &Block) -> Result<Frame, FrameFault>
    ensures { Decodes block.now result }
{
    let kind = match read_head(block) {
        Ok(kind) => kind,
        Err(at) => return Err(FrameFault::NotFrame { at }),
    };
    match frame_in(alloc, kind, body_of(block)) {
        Ok(frame) => Ok(frame),
        Err(ReadFault::Bad { left }) => Err(FrameFault::NotFrame { at: 16384 - left }),
        Err(ReadFault::Memory) => Err(FrameFault::Memory),
    }
}

/// The uses that a dump's head tells, where this block is one as a whole; 0 where it isn't, as where the head is one of
/// version 1. It takes no memory.
pub fn uses_of(block: &Block) -> u32
    ensures head { (a : AnyHead) → FitsDumpHead a → block.now ≡ dump_head_block a → result ≡ a.uses }
    ensures other { ((a : AnyHead) → FitsDumpHead a → block.now ≡ dump_head_block a → ⊥) → result ≡ 0 }
{
    if !has_head(Kind::DumpHead, block) {
        return 0;
    }
    match whole_dump_head(body_of(block)) {
        Ok(view) => view.uses,
        Err(_) => 0,
    }
}

/// What is told of the piece of data whose block this is, where it is a piece's. The bytes stay where they are, and no memory is
/// taken.
pub fn piece_of(block: &Block) -> Option<Piece>
    ensures { IfSome result (IsPieceOf block.now) }
{
    if !has_head(Kind::Data, block) {
        return None;
    }
    match whole_data(body_of(block)) {
        Ok(view) => Some(Piece {
            dump: view.dump,
            index: view.index,
            used: view.used,
        }),
        Err(_) => None,
    }
}

/// A block is that of at most one frame.
pub fn one_frame()
    ensures { (f g : AnyFrame) → Fits f → Fits g → spelling f ≡ spelling g → f ≡ g }
{}
