//! How a frame behind those that were seen of a fragment is judged.

ghost use Rattle.std.specs.Prelude.{◌≡◌, ◌↔◌, IsTrue};
ghost use Rattle.std.specs.Option.{option_copied};
ghost use Rattle.tape_frames.specs.declared.frame.Frame.TheVariants as frames;
ghost use Rattle.restore_chain.specs.Playing.{lying_of, end_of, TakesPiece, Judges};

use crate::play_called::{Called, Seen};
use tape_frames::{Data, DataFields, Frame, VolEndFields};

/// The most bytes of a fragment: its end tells them in four bytes.
const MOST_BYTES: u32 = 4_294_967_295;

/// The most bytes of a Data.
const ROOM: u32 = 16_352;

/// How a frame is judged: the fragment's next Data, its end, or none of what is called for.
#[derive(Drop)]
pub enum Judged {
    Piece(Data),
    End,
    Bad,
}

/// Whether a Data is the next one of a fragment.
fn takes_piece(piece: &DataFields, called: &Called, seen: &Seen) -> bool
    ensures { IsTrue result ↔ TakesPiece (lying_of called.now) seen.now piece.now }
{
    let head = called.head.fields();
    piece.dump == head.dump
        && piece.index == head.index
        && seen.is_open
        && (piece.used == ROOM || called.ends)
        && piece.used <= MOST_BYTES - seen.sum
}

/// Whether an end is that of a fragment.
fn takes_end(end: VolEndFields, called: &Called, seen: &Seen) -> bool
    ensures { IsTrue result ↔ ((end ≡ end_of (lying_of called.now) seen.now.sum) × (IsTrue seen.now.some)) }
{
    let head = called.head.fields();
    seen.some
        && end.dump == head.dump
        && end.index == head.index
        && end.fragment == head.fragment
        && end.last == u32::from(called.ends)
        && end.bytes == seen.sum
}

/// Judges the frame behind those that were seen of a fragment.
pub(crate) fn judge(found: Option<Frame>, called: &Called, seen: &Seen) -> Judged
    ensures { Judges (lying_of called.now) seen.now found result }
{
    match found {
        None => Judged::Bad,
        Some(frame) => match frame {
            Frame::Data(piece) => {
                if takes_piece(piece.fields(), called, seen) {
                    Judged::Piece(piece)
                } else {
                    Judged::Bad
                }
            }
            Frame::VolEnd(end) => {
                if takes_end(end.fields(), called, seen) {
                    Judged::End
                } else {
                    Judged::Bad
                }
            }
            Frame::Label(_other) => Judged::Bad,
            Frame::DumpHead(_other) => Judged::Bad,
            Frame::VolHead(_other) => Judged::Bad,
            Frame::DumpEnd(_other) => Judged::Bad,
        },
    }
}
