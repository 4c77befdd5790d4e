//! The names of a dump's tapes: what they begin with, a period, and the number of the tape.

ghost use Rattle.std.specs.Prelude.{◌≡◌, ◌≤◌, ℕ, List as AnyList, length, IfOk};
ghost use Rattle.byte_formats.specs.Forms.{base_most};
ghost use Rattle.tape_frames.specs.TapeNames.{numbered};

use bk_text::{Bytes, TapeName};
use itoa::Buffer;
use std::alloc::{AllocError, Global};

/// The name of the tape of this number: the base, a period, and the number in decimal, as `users.full.1`.
pub fn tape_name(alloc: Global, base: &TapeName, number: u32) -> Result<TapeName, AllocError>
    requires { length base.now ≤ base_most }
    ensures { IfOk result (λ name. name ≡ numbered base.now number) }
{
    let mut buffer = Buffer::new();
    let mut name = Bytes::from_slice(alloc, base.bytes())?;
    name.push(b'.')?;
    name.extend_from_slice(buffer.format(number).as_bytes())?;
    TapeName::from_bytes(alloc, name.as_slice())
}

/// Tapes of two numbers have two names.
pub fn one_number()
    ensures { (base : AnyList ℕ) (m n : ℕ) → m ≤ 4294967295 → n ≤ 4294967295 → numbered base m ≡ numbered base n → m ≡ n }
{}

/// The name of a tape tells its base and its number: where two are the same, so are these. What stands behind the last
/// period is the number, in decimal without a zero in front.
pub fn one_base_and_number()
    ensures { (a b : AnyList ℕ) (m n : ℕ) → m ≤ 4294967295 → n ≤ 4294967295 → numbered a m ≡ numbered b n → (a ≡ b) × (m ≡ n) }
{}
