//! What the fields of a section say, one by one.

ghost use Rattle.std.specs.Prelude.{◌≡◌, ◌<◌, ◌-◌, None, Some, MatchOption, IfOk, length, take, drop};
ghost use Rattle.dump_stream.specs.Fields.{payload_of, has, used, number, byte, string, short, body_of, if_there};
ghost use Rattle.dump_stream.specs.Stream.{week_of, is_typed};

use crate::judge::{byte_or, number_at};
use crate::sofar::Field;
use bk_text::{Bytes, List};
use std::alloc::{AllocError, Global};

/// The bytes behind a tag.
pub fn find(fields: &[Field], tag: u8) -> Option<&[u8]>
    ensures { MatchOption result (payload_of tag fields.now ≡ None) (λ p. payload_of tag fields.now ≡ Some p.now) }
{
    for field in fields {
        if field.tag == tag {
            return Some(field.payload.as_slice());
        }
    }
    None
}

/// The bytes behind a tag, taken out.
pub fn taken(fields: List<Field>, tag: u8) -> Option<Bytes>
    ensures { result ≡ payload_of tag fields }
{
    for field in fields.into_vec() {
        let Field {
            tag: other,
            payload,
        } = field;
        if other == tag {
            return Some(payload);
        }
    }
    None
}

pub fn has_tag(fields: &[Field], tag: u8) -> bool
    ensures { result ≡ has tag fields.now }
{
    find(fields, tag).is_some()
}

pub fn number_of(fields: &[Field], tag: u8, at: usize) -> u32
    requires { at < 1000 }
    ensures { result ≡ number (payload_of tag fields.now) at }
{
    match find(fields, tag) {
        None => 0,
        Some(payload) => number_at(payload, at),
    }
}

pub fn byte_of(fields: &[Field], tag: u8) -> u8
    ensures { result ≡ byte (payload_of tag fields.now) }
{
    match find(fields, tag) {
        None => 0,
        Some(payload) => byte_or(payload, 0, 0),
    }
}

pub fn string_of(alloc: Global, fields: &[Field], tag: u8) -> Result<Bytes, AllocError>
    ensures { IfOk result (λ text. text ≡ string (payload_of tag fields.now)) }
{
    match find(fields, tag) {
        None => Ok(Bytes::new(alloc)),
        Some(payload) => {
            let len = payload.len();
            if len == 0 {
                return Ok(Bytes::new(alloc));
            }
            Bytes::from_slice(alloc, &payload[..len - 1])
        }
    }
}

pub fn week_from(fields: &[Field]) -> [u32; 7]
    ensures { result ≡ week_of (payload_of 87 fields.now) }
{
    [
        number_of(fields, b'W', 2),
        number_of(fields, b'W', 6),
        number_of(fields, b'W', 10),
        number_of(fields, b'W', 14),
        number_of(fields, b'W', 18),
        number_of(fields, b'W', 22),
        number_of(fields, b'W', 26),
    ]
}

pub fn number_if(fields: &[Field], tag: u8) -> Option<u32>
    ensures { result ≡ if_there (payload_of tag fields.now) }
{
    match find(fields, tag) {
        None => None,
        Some(payload) => Some(number_at(payload, 0)),
    }
}

pub fn short_of(fields: &[Field], tag: u8) -> u16
    ensures { result ≡ short (payload_of tag fields.now) }
{
    match find(fields, tag) {
        None => 0,
        Some(payload) => u16::from_be_bytes([byte_or(payload, 0, 0), byte_or(payload, 1, 0)]),
    }
}

fn tail(bytes: &[u8], at: usize) -> &[u8]
    ensures { result.now ≡ drop at bytes.now }
{
    if at <= bytes.len() { &bytes[at..] } else { &[] }
}

pub fn data_of(fields: &[Field]) -> &[u8]
    ensures { result.now ≡ body_of fields.now }
{
    match find(fields, b'f') {
        Some(payload) => tail(payload, 4),
        None => match find(fields, b'h') {
            Some(payload) => tail(payload, 8),
            None => &[],
        },
    }
}

pub fn is_used(fields: &[Field], tag: u8) -> bool
    ensures { result ≡ used tag fields.now }
{
    ((tag == b'f' || tag == b'h') && (has_tag(fields, b'f') || has_tag(fields, b'h')))
        || has_tag(fields, tag)
}

pub fn typed(fields: &[Field]) -> bool
    ensures { result ≡ is_typed fields.now }
{
    fields.is_empty() || has_tag(fields, b't')
}

/// All bytes but the last.
pub fn front_of(payload: &[u8]) -> &[u8]
    ensures { result.now ≡ take (length payload.now - 1) payload.now }
{
    let len = payload.len();
    if len == 0 {
        payload
    } else {
        &payload[..len - 1]
    }
}
