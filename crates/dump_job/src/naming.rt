//! The names of a dump's tapes, and what they begin with.

ghost use Rattle.std.specs.Prelude.{◌≡◌, ◌≤◌, length, IfOk};
ghost use Rattle.byte_formats.specs.Forms.{base_most};
ghost use Rattle.tape_frames.specs.TapeNames.{numbered};
ghost use Rattle.dump_job.specs.Beginning.{last_element, base_of};

use crate::order::DumpOrder;
use bk_text::{Bytes, LevelPath, TapeName};
use itoa::Buffer;
use std::alloc::{AllocError, Global};

/// The greatest length of what the names of a dump's tapes begin with, which leaves room for a period and a number.
const BASE_MOST: usize = 69;

/// The last element of a level's path.
fn last_element(level: &LevelPath) -> &[u8]
    ensures { result.now ≡ last_element level.now }
{
    let _bytes = level.bytes();
    level.last()
}

/// What the names of the tapes of a new dump set begin with: the volume set, a period, and the last element of the level.
pub(crate) fn base_name(alloc: Global, order: &DumpOrder) -> Result<TapeName, AllocError>
    ensures { IfOk result (λ name. name ≡ base_of order.now) }
{
    let _level = order.level.bytes();
    let mut name = Bytes::from_slice(alloc, order.set.bytes())?;
    name.push(b'.')?;
    name.extend_from_slice(last_element(&order.level))?;
    TapeName::from_bytes(alloc, name.as_slice())
}

/// The name of the tape of a number in a dump set: the base, a period, and the number in decimal, also where it is one more
/// than tapes have. A base has at most 69 bytes in every record, so that it leaves room; of a longer one memory is refused.
pub(crate) fn name_of(alloc: Global, base: &TapeName, number: u64) -> Result<TapeName, AllocError>
    requires { number ≤ 4294967296 }
    ensures is { IfOk result (λ name. name ≡ numbered base.now number) }
    ensures base { IfOk result (λ name. length base.now ≤ base_most) }
{
    let first = base.bytes();
    if first.len() > BASE_MOST {
        return Err(AllocError);
    }
    let mut buffer = Buffer::new();
    let mut name = Bytes::from_slice(alloc, first)?;
    name.push(b'.')?;
    name.extend_from_slice(buffer.format(number).as_bytes())?;
    TapeName::from_bytes(alloc, name.as_slice())
}
