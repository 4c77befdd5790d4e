//! Reading the pattern of an entry.

ghost use Rattle.std.specs.Prelude.{◌≡◌, MatchResult};
ghost use Rattle.byte_formats.specs.Formats.{Took, Stops, text2_of};
ghost use Rattle.budb_changes.specs.Printable.{IsPatternBytes};

use crate::pattern_bytes::PatternBytes;
use bk_text::Alphabet;
use byte_formats::{ReadFault, read_two, read_word_of};
use std::alloc::Global;

/// The bytes of a pattern behind their length in two bytes.
fn read_pattern_text<'a>(bytes: &'a [u8]) -> Result<(&'a [u8], &'a [u8]), ReadFault>
    ensures { MatchResult result (λ x. Took (text2_of IsPatternBytes) bytes.now x.0.now x.1.now) (λ fault. Stops (text2_of IsPatternBytes) bytes.now fault) }
{
    match read_two(1, 128, bytes) {
        Err(fault) => Err(fault),
        Ok((count, rest)) => match read_word_of(Alphabet::Printable, 128, count as usize, rest) {
            Err(fault) => Err(fault),
            Ok((text, rest)) => Ok((text, rest)),
        },
    }
}

/// The pattern of an entry.
pub fn read_pattern<'a>(
    alloc: Global,
    bytes: &'a [u8],
) -> Result<(PatternBytes, &'a [u8]), ReadFault>
    ensures { MatchResult result (λ x. Took (text2_of IsPatternBytes) bytes.now x.0 x.1.now) (λ fault. Stops (text2_of IsPatternBytes) bytes.now fault) }
{
    match read_pattern_text(bytes) {
        Err(fault) => Err(fault),
        Ok((text, rest)) => Ok((PatternBytes::from_bytes(alloc, text)?, rest)),
    }
}
