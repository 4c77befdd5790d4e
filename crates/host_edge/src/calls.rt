//! Calls of the system, which are made again where a signal interrupts them.

ghost use Rattle.std.specs.Prelude.{◌≡◌, ◌<◌, ◌≤◌, length, take, IfOk, OnErr};
ghost use Rattle.std.specs.Io.KnownBytes.{Keeps, Consumes, Appends, IsAtEnd};

use std::io::{self, ErrorKind, Read, Write};

/// Whether a signal interrupted a call.
fn is_interrupted(cause: &io::Error) -> bool {
    cause.kind() == ErrorKind::Interrupted
}

/// The refusal of a call that was interrupted each time.
fn interrupted() -> io::Error {
    io::Error::from(ErrorKind::Interrupted)
}

/// A call, which is made again where a signal interrupts it.
pub fn again<T: Drop, C: Fn() -> io::Result<T>>(call: C) -> io::Result<T>
    requires { C.IsAlwaysCallable call }
{
    for _ in 0..u64::MAX {
        match call() {
            Ok(value) => return Ok(value),
            Err(cause) => {
                if !is_interrupted(&cause) {
                    return Err(cause);
                }
            }
        }
    }
    Err(interrupted())
}

/// A read, which is made again where a signal interrupts it.
pub fn read_again<R: Read>(reader: &mut R, into: &mut [u8]) -> io::Result<usize>
    ensures room { IfOk result (λ n. n ≤ length into.new) }
    ensures taken { IfOk result (λ n. Consumes (R.remaining reader.old) (R.remaining reader.new) (take n into.new)) }
    ensures end { IfOk result (λ n. n ≡ 0 → 0 < length into.new → IsAtEnd (R.remaining reader.new)) }
    ensures refused { OnErr result (Keeps (R.remaining reader.old) (R.remaining reader.new)) }
{
    for _ in 0..u64::MAX {
        match reader.read(into) {
            Ok(count) => return Ok(count),
            Err(cause) => {
                if !is_interrupted(&cause) {
                    return Err(cause);
                }
            }
        }
    }
    Err(interrupted())
}

/// A write, which is made again where a signal interrupts it.
pub(crate) fn write_again<W: Write>(output: &mut W, piece: &[u8]) -> io::Result<usize>
    ensures front { IfOk result (λ n. n ≤ length piece.now) }
    ensures taken { IfOk result (λ n. Appends (W.contents output.old) (W.contents output.new) (take n piece.now)) }
    ensures refused { OnErr result (Keeps (W.contents output.old) (W.contents output.new)) }
{
    for _ in 0..u64::MAX {
        match output.write(piece) {
            Ok(count) => return Ok(count),
            Err(cause) => {
                if !is_interrupted(&cause) {
                    return Err(cause);
                }
            }
        }
    }
    Err(interrupted())
}
