//! What the bytes of an image are.

ghost use Rattle.std.specs.Prelude.{◌≡◌, ◌↔◌, IsTrue, IfOk, OnOk};
ghost use Rattle.dump_stream.specs.Inputs.{IsOpen};
ghost use Rattle.dump_stream.specs.declared.input.Input.{Input};
ghost use Rattle.dump_stream.specs.declared.input.Input.TheVariants.{Stream};
ghost use Rattle.dir_cell.specs.Judging.{MayStand, IsJudged};

use bk_text::Name;
use cell_core::Image;
use dump_stream::{Input, InputReader};
use host_edge::read_again;
use std::alloc::{AllocError, Global};
use std::fs;
use std::io::{self, Read};
use std::rt::Files;
use vnode_model::{ApplyFault, Increment, Volume, apply};

/// How many bytes are read at a time.
const PIECE: usize = 65_536;

/// Whether a volume may stand under a name.
fn may_stand(volume: &Volume, name: &Name) -> bool
    ensures { IsTrue result ↔ MayStand name.now volume.now }
{
    let fields = volume.header().fields();
    (fields.kind == 0 || fields.kind == 2) && fields.name.bytes() == name.bytes()
}

/// Judges an image whose bytes are a stream.
fn judge_stream(alloc: Global, name: &Name, increment: Increment) -> Result<Image, AllocError>
    ensures { IfOk result (λ image. IsJudged name.now (Stream increment) image) }
{
    match apply(alloc, None, increment) {
        Ok(volume) => {
            if may_stand(&volume, name) {
                Ok(Image::Good(volume))
            } else {
                Ok(Image::Bad { at: 0 })
            }
        }
        Err(ApplyFault::Memory) => Err(AllocError),
        Err(ApplyFault::BaseLacks { .. }) | Err(ApplyFault::TooLarge) => Ok(Image::Bad { at: 0 }),
    }
}

/// Judges the image of a name.
pub(crate) fn judge(alloc: Global, name: &Name, input: Input) -> Result<Image, AllocError>
    ensures { IfOk result (λ image. IsJudged name.now input image) }
{
    match input {
        Input::Stream(increment) => judge_stream(alloc, name, increment),
        Input::Cut { length } => Ok(Image::Bad { at: length as u64 }),
        Input::Bad { at } => Ok(Image::Bad { at: at as u64 }),
        Input::Followed { .. } => Ok(Image::Bad { at: 0 }),
    }
}

/// Reads a file up to its end, or up to where it can't be one stream.
fn feed_all<F: Read>(file: &mut F, buffer: &mut [u8], input: &mut InputReader) -> io::Result<()>
    requires { IsOpen input.old }
    ensures { OnOk result (IsOpen input.new) }
{
    for _ in 0..u64::MAX {
        if input.stops_at().is_some() {
            return Ok(());
        }
        let count = read_again(file, buffer)?;
        if count == 0 {
            return Ok(());
        }
        input.feed(&buffer[..count])?;
    }
    Ok(())
}

/// Room for a piece.
pub(crate) fn room(alloc: Global) -> Result<Vec<u8>, AllocError> {
    let room = vec![in alloc; 0u8; PIECE]?;
    Ok(room)
}

/// What the file at a path is, as the image of a name. It is read in pieces, and no further than it can be one stream.
pub(crate) fn read_image<R: Files>(
    rt: &R,
    alloc: Global,
    path: &str,
    name: &Name,
) -> io::Result<Image>
    ensures { IfOk result (λ image. (input : Input) × IsJudged name.now input image) }
{
    let mut file = fs::open(rt, path)?;
    let mut buffer = room(alloc)?;
    let mut input = InputReader::new(alloc);
    feed_all(&mut file, &mut buffer, &mut input)?;
    Ok(judge(alloc, name, input.finish())?)
}
