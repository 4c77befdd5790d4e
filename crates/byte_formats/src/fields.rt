//! Reading numbers and texts from the front of bytes. A refusal tells how many bytes are left from the first bad one on.

ghost use Rattle.std.specs.Prelude.{◌≤◌, MatchResult};
ghost use Rattle.bk_text.specs.Alphabets.{IsName, IsHost, IsSetName, IsTapeName};
ghost use Rattle.bk_text.specs.LevelPaths.{IsLevelPath};
ghost use Rattle.bk_text.specs.Words.{IsWordOf};
ghost use Rattle.byte_formats.specs.Forms.{IsBase};
ghost use Rattle.byte_formats.specs.Formats.{Took, Stops, stated, one_in, two_in, any_four, text1_of, text2_of, any_of, maybe};

use crate::fault::ReadFault;
use crate::fronts::{
    behind, front_four, front_level, front_maybe, front_one, front_text1, front_two, front_word_of,
    has_no_text,
};
use crate::text::Text;
use bk_text::{Alphabet, Bytes, Host, LevelPath, Name, Part, SetName, TapeName};
use std::alloc::Global;

/// A number of one byte within bounds.
pub fn read_one<'a>(low: u8, high: u8, bytes: &'a [u8]) -> Result<(u8, &'a [u8]), ReadFault>
    requires { low ≤ high }
    ensures { MatchResult result (λ x. Took (one_in low high) bytes.now x.0 x.1.now) (λ fault. Stops (one_in low high) bytes.now fault) }
{
    match front_one(low, high, bytes) {
        Err(left) => Err(ReadFault::Bad { left }),
        Ok((number, rest)) => Ok((number, rest)),
    }
}

/// A number of two bytes within bounds.
pub fn read_two<'a>(low: u16, high: u16, bytes: &'a [u8]) -> Result<(u16, &'a [u8]), ReadFault>
    requires { low ≤ high }
    ensures { MatchResult result (λ x. Took (two_in low high) bytes.now x.0 x.1.now) (λ fault. Stops (two_in low high) bytes.now fault) }
{
    match front_two(low, high, bytes) {
        Err(left) => Err(ReadFault::Bad { left }),
        Ok((number, rest)) => Ok((number, rest)),
    }
}

/// A number of four bytes.
pub fn read_four<'a>(bytes: &'a [u8]) -> Result<(u32, &'a [u8]), ReadFault>
    ensures { MatchResult result (λ x. Took any_four bytes.now x.0 x.1.now) (λ fault. Stops any_four bytes.now fault) }
{
    match front_four(bytes) {
        Err(left) => Err(ReadFault::Bad { left }),
        Ok((number, rest)) => Ok((number, rest)),
    }
}

/// A word of so many bytes.
pub fn read_word_of<'a>(
    alphabet: Alphabet,
    most: usize,
    count: usize,
    bytes: &'a [u8],
) -> Result<(&'a [u8], &'a [u8]), ReadFault>
    requires some { 1 ≤ count }
    requires most { count ≤ most }
    ensures { MatchResult result (λ x. Took (stated count (IsWordOf alphabet most)) bytes.now x.0.now x.1.now) (λ fault. Stops (stated count (IsWordOf alphabet most)) bytes.now fault) }
{
    match front_word_of(alphabet, most, count, bytes) {
        Err(left) => Err(ReadFault::Bad { left }),
        Ok((text, rest)) => Ok((text, rest)),
    }
}

/// A level.
pub fn read_level<'a>(alloc: Global, bytes: &'a [u8]) -> Result<(LevelPath, &'a [u8]), ReadFault>
    ensures { MatchResult result (λ x. Took (text2_of IsLevelPath) bytes.now x.0 x.1.now) (λ fault. Stops (text2_of IsLevelPath) bytes.now fault) }
{
    match front_level(bytes) {
        Err(left) => Err(ReadFault::Bad { left }),
        Ok((text, rest)) => Ok((LevelPath::from_bytes(alloc, text)?, rest)),
    }
}

/// The name of a volume.
pub fn read_name<'a>(alloc: Global, bytes: &'a [u8]) -> Result<(Name, &'a [u8]), ReadFault>
    ensures { MatchResult result (λ x. Took (text1_of IsName) bytes.now x.0 x.1.now) (λ fault. Stops (text1_of IsName) bytes.now fault) }
{
    match front_text1(Text::Name, bytes) {
        Err(left) => Err(ReadFault::Bad { left }),
        Ok((text, rest)) => Ok((Name::from_bytes(alloc, text)?, rest)),
    }
}

/// A partition, without a slash.
pub fn read_part<'a>(alloc: Global, bytes: &'a [u8]) -> Result<(Part, &'a [u8]), ReadFault>
    ensures { MatchResult result (λ x. Took (text1_of IsName) bytes.now x.0 x.1.now) (λ fault. Stops (text1_of IsName) bytes.now fault) }
{
    match front_text1(Text::Name, bytes) {
        Err(left) => Err(ReadFault::Bad { left }),
        Ok((text, rest)) => Ok((Part::from_bytes(alloc, text)?, rest)),
    }
}

/// The name of a server.
pub fn read_host<'a>(alloc: Global, bytes: &'a [u8]) -> Result<(Host, &'a [u8]), ReadFault>
    ensures { MatchResult result (λ x. Took (text1_of IsHost) bytes.now x.0 x.1.now) (λ fault. Stops (text1_of IsHost) bytes.now fault) }
{
    match front_text1(Text::Host, bytes) {
        Err(left) => Err(ReadFault::Bad { left }),
        Ok((text, rest)) => Ok((Host::from_bytes(alloc, text)?, rest)),
    }
}

/// The name of a volume set.
pub fn read_set<'a>(alloc: Global, bytes: &'a [u8]) -> Result<(SetName, &'a [u8]), ReadFault>
    ensures { MatchResult result (λ x. Took (text1_of IsSetName) bytes.now x.0 x.1.now) (λ fault. Stops (text1_of IsSetName) bytes.now fault) }
{
    match front_text1(Text::SetName, bytes) {
        Err(left) => Err(ReadFault::Bad { left }),
        Ok((text, rest)) => Ok((SetName::from_bytes(alloc, text)?, rest)),
    }
}

/// What the names of a dump's tapes begin with.
#[tactic(auto, using(crate::proofs::Bases::base_name))]
pub fn read_base<'a>(alloc: Global, bytes: &'a [u8]) -> Result<(TapeName, &'a [u8]), ReadFault>
    ensures { MatchResult result (λ x. Took (text1_of IsBase) bytes.now x.0 x.1.now) (λ fault. Stops (text1_of IsBase) bytes.now fault) }
{
    match front_text1(Text::Base, bytes) {
        Err(left) => Err(ReadFault::Bad { left }),
        Ok((text, rest)) => Ok((TapeName::from_bytes(alloc, text)?, rest)),
    }
}

/// A server, or none for any.
pub fn read_any_host<'a>(
    alloc: Global,
    bytes: &'a [u8],
) -> Result<(Option<Host>, &'a [u8]), ReadFault>
    ensures { MatchResult result (λ x. Took (any_of IsHost) bytes.now x.0 x.1.now) (λ fault. Stops (any_of IsHost) bytes.now fault) }
{
    if has_no_text(bytes) {
        return Ok((None, behind(bytes, 1)));
    }
    match read_host(alloc, bytes) {
        Err(fault) => Err(fault),
        Ok((host, rest)) => Ok((Some(host), rest)),
    }
}

/// A partition, or none for any.
pub fn read_any_part<'a>(
    alloc: Global,
    bytes: &'a [u8],
) -> Result<(Option<Part>, &'a [u8]), ReadFault>
    ensures { MatchResult result (λ x. Took (any_of IsName) bytes.now x.0 x.1.now) (λ fault. Stops (any_of IsName) bytes.now fault) }
{
    if has_no_text(bytes) {
        return Ok((None, behind(bytes, 1)));
    }
    match read_part(alloc, bytes) {
        Err(fault) => Err(fault),
        Ok((part, rest)) => Ok((Some(part), rest)),
    }
}

/// The name of a server, or an empty text.
pub fn read_maybe_host<'a>(alloc: Global, bytes: &'a [u8]) -> Result<(Bytes, &'a [u8]), ReadFault>
    ensures { MatchResult result (λ x. Took (maybe IsHost) bytes.now x.0 x.1.now) (λ fault. Stops (maybe IsHost) bytes.now fault) }
{
    match front_maybe(Text::Host, bytes) {
        Err(left) => Err(ReadFault::Bad { left }),
        Ok((text, rest)) => Ok((Bytes::from_slice(alloc, text)?, rest)),
    }
}

/// The name of a tape, or an empty text.
pub fn read_maybe_tape_name<'a>(
    alloc: Global,
    bytes: &'a [u8],
) -> Result<(Bytes, &'a [u8]), ReadFault>
    ensures { MatchResult result (λ x. Took (maybe IsTapeName) bytes.now x.0 x.1.now) (λ fault. Stops (maybe IsTapeName) bytes.now fault) }
{
    match front_maybe(Text::TapeName, bytes) {
        Err(left) => Err(ReadFault::Bad { left }),
        Ok((text, rest)) => Ok((Bytes::from_slice(alloc, text)?, rest)),
    }
}
