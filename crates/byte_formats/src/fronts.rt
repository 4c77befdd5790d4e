//! Reading numbers and texts from the front of bytes, without memory. A refusal tells how many bytes are left from the first
//! bad one on.

ghost use Rattle.std.specs.Prelude.{◌≡◌, ◌↔◌, ◌<◌, ◌≤◌, ◌++◌, [], length, drop, slice_index, IsTrue, MatchResult};
ghost use Rattle.std.specs.Int.{w32, from_be_bytes};
ghost use Rattle.bk_text.specs.LevelPaths.{IsLevelPath};
ghost use Rattle.bk_text.specs.Words.{IsWordOf};
ghost use Rattle.byte_formats.specs.Texts.{IsText};
ghost use Rattle.byte_formats.specs.Formats.{Took, Sticks, stated, one_in, two_in, any_four, four_in, text1_of, text2_of, maybe};

use crate::text::Text;
use bk_text::{Alphabet, fault_in_stated, fault_in_stated_path, read_u32};

/// The bytes behind the first so many.
pub fn behind(bytes: &[u8], count: usize) -> &[u8]
    requires { count ≤ length bytes.now }
    ensures { result.now ≡ drop count bytes.now }
{
    &bytes[count..]
}

/// Whether a number lies within bounds.
fn is_within(low: u32, high: u32, number: u32) -> bool
    ensures { IsTrue result ↔ (low ≤ number) × (number ≤ high) }
{
    low <= number && number <= high
}

/// Whether a number of these bounds lies between these.
fn meets(least: u16, most: u16, low: u16, high: u16) -> bool
    ensures { IsTrue result ↔ (low ≤ most) × (least ≤ high) }
{
    low <= most && least <= high
}

/// A number of one byte within bounds.
pub fn front_one<'a>(low: u8, high: u8, bytes: &'a [u8]) -> Result<(u8, &'a [u8]), usize>
    requires { low ≤ high }
    ensures { MatchResult result (λ x. Took (one_in low high) bytes.now x.0 x.1.now) (λ left. Sticks (one_in low high) bytes.now left) }
{
    if bytes.len() < 1 {
        return Err(0);
    }
    let number = bytes[0];
    if !is_within(low as u32, high as u32, number as u32) {
        return Err(bytes.len());
    }
    Ok((number, behind(bytes, 1)))
}

/// A number of two bytes within bounds. Its first byte is judged with the least and with the greatest that may follow, so the
/// number is put together from its bytes one by one.
pub fn front_two<'a>(low: u16, high: u16, bytes: &'a [u8]) -> Result<(u16, &'a [u8]), usize>
    requires { low ≤ high }
    ensures { MatchResult result (λ x. Took (two_in low high) bytes.now x.0 x.1.now) (λ left. Sticks (two_in low high) bytes.now left) }
{
    if bytes.len() < 1 {
        return Err(0);
    }
    let least = u16::from_be_bytes([bytes[0], 0]);
    let most = u16::from_be_bytes([bytes[0], 255]);
    if !meets(least, most, low, high) {
        return Err(bytes.len());
    }
    if bytes.len() < 2 {
        return Err(0);
    }
    let number = u16::from_be_bytes([bytes[0], bytes[1]]);
    if !is_within(low as u32, high as u32, number as u32) {
        return Err(bytes.len() - 1);
    }
    Ok((number, behind(bytes, 2)))
}

/// A number of four bytes.
pub fn front_four<'a>(bytes: &'a [u8]) -> Result<(u32, &'a [u8]), usize>
    ensures { MatchResult result (λ x. Took any_four bytes.now x.0 x.1.now) (λ left. Sticks any_four bytes.now left) }
{
    if bytes.len() < 4 {
        return Err(0);
    }
    let number = read_u32(bytes);
    Ok((number, behind(bytes, 4)))
}

/// Whether a number of these bounds lies between two that stand in these bytes.
fn meets_four(low: u32, high: u32, least: [u8; 4], most: [u8; 4]) -> bool
    ensures { IsTrue result ↔ (low ≤ from_be_bytes w32 most) × (from_be_bytes w32 least ≤ high) }
{
    low <= u32::from_be_bytes(most) && u32::from_be_bytes(least) <= high
}

/// A number of four bytes within bounds. Each byte is judged with the least and the greatest that may follow, so the number is
/// put together from its bytes one by one.
pub fn front_four_in<'a>(low: u32, high: u32, bytes: &'a [u8]) -> Result<(u32, &'a [u8]), usize>
    requires { low ≤ high }
    ensures { MatchResult result (λ x. Took (four_in low high) bytes.now x.0 x.1.now) (λ left. Sticks (four_in low high) bytes.now left) }
{
    let count = bytes.len();
    if count < 1 {
        return Err(0);
    }
    let a = bytes[0];
    if !meets_four(low, high, [a, 0, 0, 0], [a, 255, 255, 255]) {
        return Err(count);
    }
    if count < 2 {
        return Err(0);
    }
    let b = bytes[1];
    if !meets_four(low, high, [a, b, 0, 0], [a, b, 255, 255]) {
        return Err(count - 1);
    }
    if count < 3 {
        return Err(0);
    }
    let c = bytes[2];
    if !meets_four(low, high, [a, b, c, 0], [a, b, c, 255]) {
        return Err(count - 2);
    }
    if count < 4 {
        return Err(0);
    }
    let number = u32::from_be_bytes([a, b, c, bytes[3]]);
    if !is_within(low, high, number) {
        return Err(count - 3);
    }
    Ok((number, behind(bytes, 4)))
}

/// The first so many bytes, or all where there are fewer, and what stands behind them.
fn split_front(bytes: &[u8], count: usize) -> (&[u8], &[u8])
    ensures joined { bytes.now ≡ result.0.now ++ result.1.now }
    ensures within { length result.0.now ≤ count }
    ensures whole { length result.0.now < count → result.1.now ≡ [] }
{
    if count <= bytes.len() {
        (&bytes[..count], behind(bytes, count))
    } else {
        (bytes, &[])
    }
}

/// A word of so many bytes.
pub fn front_word_of<'a>(
    alphabet: Alphabet,
    most: usize,
    count: usize,
    bytes: &'a [u8],
) -> Result<(&'a [u8], &'a [u8]), usize>
    requires some { 1 ≤ count }
    requires most { count ≤ most }
    ensures { MatchResult result (λ x. Took (stated count (IsWordOf alphabet most)) bytes.now x.0.now x.1.now) (λ left. Sticks (stated count (IsWordOf alphabet most)) bytes.now left) }
{
    let (front, rest) = split_front(bytes, count);
    match fault_in_stated(alphabet, most, count, front) {
        Some(at) => Err(bytes.len() - at),
        None => {
            if front.len() < count {
                Err(0)
            } else {
                Ok((front, rest))
            }
        }
    }
}

/// The path of a level of so many bytes.
fn front_path_of<'a>(count: usize, bytes: &'a [u8]) -> Result<(&'a [u8], &'a [u8]), usize>
    requires some { 2 ≤ count }
    requires most { count ≤ 256 }
    ensures { MatchResult result (λ x. Took (stated count IsLevelPath) bytes.now x.0.now x.1.now) (λ left. Sticks (stated count IsLevelPath) bytes.now left) }
{
    let (front, rest) = split_front(bytes, count);
    match fault_in_stated_path(count, front) {
        Some(at) => Err(bytes.len() - at),
        None => {
            if front.len() < count {
                Err(0)
            } else {
                Ok((front, rest))
            }
        }
    }
}

/// A word behind its length in one byte.
fn front_word1<'a>(
    alphabet: Alphabet,
    most: u8,
    bytes: &'a [u8],
) -> Result<(&'a [u8], &'a [u8]), usize>
    requires { 1 ≤ most }
    ensures { MatchResult result (λ x. Took (text1_of (IsWordOf alphabet most)) bytes.now x.0.now x.1.now) (λ left. Sticks (text1_of (IsWordOf alphabet most)) bytes.now left) }
{
    match front_one(1, most, bytes) {
        Err(left) => Err(left),
        Ok((count, rest)) => match front_word_of(alphabet, most as usize, count as usize, rest) {
            Err(left) => Err(left),
            Ok((text, rest)) => Ok((text, rest)),
        },
    }
}

/// A text behind its length in one byte.
pub fn front_text1<'a>(form: Text, bytes: &'a [u8]) -> Result<(&'a [u8], &'a [u8]), usize>
    ensures { MatchResult result (λ x. Took (text1_of (IsText form)) bytes.now x.0.now x.1.now) (λ left. Sticks (text1_of (IsText form)) bytes.now left) }
{
    match front_word1(form.alphabet(), form.most(), bytes) {
        Err(left) => Err(left),
        Ok((text, rest)) => Ok((text, rest)),
    }
}

/// The path of a level behind its length in two bytes.
pub fn front_level<'a>(bytes: &'a [u8]) -> Result<(&'a [u8], &'a [u8]), usize>
    ensures { MatchResult result (λ x. Took (text2_of IsLevelPath) bytes.now x.0.now x.1.now) (λ left. Sticks (text2_of IsLevelPath) bytes.now left) }
{
    match front_two(2, 256, bytes) {
        Err(left) => Err(left),
        Ok((count, rest)) => match front_path_of(count as usize, rest) {
            Err(left) => Err(left),
            Ok((text, rest)) => Ok((text, rest)),
        },
    }
}

/// Whether an empty text stands at the front.
pub fn has_no_text(bytes: &[u8]) -> bool
    ensures { IsTrue result ↔ (1 ≤ length bytes.now) × (slice_index bytes.now 0 ≡ 0) }
{
    bytes.len() >= 1 && bytes[0] == 0
}

/// A text behind its length in one byte, or an empty one.
pub fn front_maybe<'a>(form: Text, bytes: &'a [u8]) -> Result<(&'a [u8], &'a [u8]), usize>
    ensures { MatchResult result (λ x. Took (maybe (IsText form)) bytes.now x.0.now x.1.now) (λ left. Sticks (maybe (IsText form)) bytes.now left) }
{
    if has_no_text(bytes) {
        return Ok((&[], behind(bytes, 1)));
    }
    match front_text1(form, bytes) {
        Err(left) => Err(left),
        Ok((text, rest)) => Ok((text, rest)),
    }
}
