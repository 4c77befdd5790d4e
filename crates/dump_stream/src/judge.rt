//! Whether bytes behind a tag are whole.

ghost use Rattle.std.specs.Prelude.{◌≡◌, ◌↔◌, ◌<◌, ◌≤◌, ℕ, List, ◌++◌, IsTrue, length, slice_index, slice_index_or, All, if◌then◌else◌, Bool};
ghost use Rattle.dump_stream.specs.declared.form.Verdict.TheVariants.{More};
ghost use Rattle.vnode_model.specs.Limits.{ComesAfter};
ghost use Rattle.dump_stream.specs.Forms.{IsBytes, IsFixedBytes, size_len, size_in, IsKind, IsWhole, Judges, number_from};

use crate::form::{CLOSING, Form, OPENING, Verdict};
use bk_text::Name;
use vnode_model::{comes_after, is_message};

/// The byte at this place, or another past the end.
pub fn byte_or(bytes: &[u8], at: usize, other: u8) -> u8
    ensures { result ≡ slice_index_or bytes.now at other }
{
    match bytes.get(at) {
        Some(byte) => *byte,
        None => other,
    }
}

/// The number of four bytes that begins at this place. Bytes that aren't there count as 0: a number is judged byte by byte as it
/// comes, and so is read by std's `from_be_bytes` and not whole by the crate `byteorder`.
pub fn number_at(bytes: &[u8], at: usize) -> u32
    requires { at < 1000 }
    ensures { result ≡ number_from at bytes.now }
{
    u32::from_be_bytes([
        byte_or(bytes, at, 0),
        byte_or(bytes, at + 1, 0),
        byte_or(bytes, at + 2, 0),
        byte_or(bytes, at + 3, 0),
    ])
}

fn judge_fixed(front: &[u8], count: u8, payload: &[u8]) -> Verdict
    requires { length front.now < 1000 }
    ensures { Judges (IsFixedBytes front.now count) payload.now result }
{
    if payload.len() < front.len() {
        if front.starts_with(payload) {
            Verdict::More
        } else {
            Verdict::Never
        }
    } else if !payload.starts_with(front) {
        Verdict::Never
    } else if payload.len() < front.len() + count as usize {
        Verdict::More
    } else if payload.len() == front.len() + count as usize {
        Verdict::Whole
    } else {
        Verdict::Never
    }
}

fn judge_name(payload: &[u8]) -> Verdict
    ensures { Judges (IsWhole Form.Name) payload.now result }
{
    match payload.split_last() {
        None => Verdict::More,
        Some((last, front)) => {
            if *last == 0 {
                if Name::is_name(front) {
                    Verdict::Whole
                } else {
                    Verdict::Never
                }
            } else if Name::is_name(payload) {
                Verdict::More
            } else {
                Verdict::Never
            }
        }
    }
}

fn judge_text(payload: &[u8]) -> Verdict
    ensures { Judges (IsWhole Form.Text) payload.now result }
{
    match payload.split_last() {
        None => Verdict::More,
        Some((last, front)) => {
            if *last == 0 {
                if is_message(front) {
                    Verdict::Whole
                } else {
                    Verdict::Never
                }
            } else if is_message(payload) {
                Verdict::More
            } else {
                Verdict::Never
            }
        }
    }
}

fn judge_volume_kind(payload: &[u8]) -> Verdict
    ensures { Judges (IsWhole Form.VolumeKind) payload.now result }
{
    match payload {
        [] => Verdict::More,
        [kind] => {
            if *kind <= 2 {
                Verdict::Whole
            } else {
                Verdict::Never
            }
        }
        _ => Verdict::Never,
    }
}

/// The length that begins these bytes. A byte that isn't there yet counts as 0, so that a length is refused at the first
/// byte that makes it too great; so the number isn't read whole.
fn size_at(wide: bool, p: &[u8]) -> u64
    ensures { result ≡ size_in wide p.now }
{
    if wide {
        u64::from_be_bytes([
            byte_or(p, 0, 0),
            byte_or(p, 1, 0),
            byte_or(p, 2, 0),
            byte_or(p, 3, 0),
            byte_or(p, 4, 0),
            byte_or(p, 5, 0),
            byte_or(p, 6, 0),
            byte_or(p, 7, 0),
        ])
    } else {
        u32::from_be_bytes([
            byte_or(p, 0, 0),
            byte_or(p, 1, 0),
            byte_or(p, 2, 0),
            byte_or(p, 3, 0),
        ]) as u64
    }
}

fn len_of_size(wide: bool) -> usize
    ensures { result ≡ size_len wide }
{
    if wide { 8 } else { 4 }
}

fn judge_data(wide: bool, limit: u32, payload: &[u8]) -> Verdict
    ensures { Judges (IsWhole (Form.Data wide limit)) payload.now result }
{
    let size = size_at(wide, payload);
    let before = len_of_size(wide);
    if size > limit as u64 {
        Verdict::Never
    } else if payload.len() < before + size as usize {
        Verdict::More
    } else if payload.len() == before + size as usize {
        Verdict::Whole
    } else {
        Verdict::Never
    }
}

fn is_kind(directory: bool, kind: u8) -> bool
    ensures { IsTrue result ↔ IsKind directory kind }
{
    if directory {
        kind == 2
    } else {
        kind == 1 || kind == 3
    }
}

fn judge_kind(directory: bool, payload: &[u8]) -> Verdict
    ensures { Judges (IsWhole (Form.Kind directory)) payload.now result }
{
    match payload {
        [] => Verdict::More,
        [kind] => {
            if is_kind(directory, *kind) {
                Verdict::Whole
            } else {
                Verdict::Never
            }
        }
        _ => Verdict::Never,
    }
}

fn judge_vnode(last: u32, payload: &[u8]) -> Verdict
    ensures { Judges (IsWhole (Form.Vnode last)) payload.now result }
{
    if payload.len() < 4 {
        // the greatest even number that begins so
        let greatest = u32::from_be_bytes([
            byte_or(payload, 0, 255),
            byte_or(payload, 1, 255),
            byte_or(payload, 2, 255),
            254,
        ]);
        if comes_after(last, greatest) {
            Verdict::More
        } else {
            Verdict::Never
        }
    } else if !comes_after(last, number_at(payload, 0)) || payload.len() > 8 {
        Verdict::Never
    } else if payload.len() < 8 {
        Verdict::More
    } else {
        Verdict::Whole
    }
}

/// Whether bytes behind a tag are whole.
pub fn judge(form: Form, payload: &[u8]) -> Verdict
    ensures { Judges (IsWhole form) payload.now result }
{
    match form {
        Form::Exact(count) => judge_fixed(&[], count, payload),
        Form::Opening => judge_fixed(&OPENING, 0, payload),
        Form::Closing => judge_fixed(&CLOSING, 0, payload),
        Form::Times => judge_fixed(&[0, 2], 8, payload),
        Form::Week => judge_fixed(&[0, 7], 28, payload),
        Form::Text => judge_text(payload),
        Form::VolumeKind => judge_volume_kind(payload),
        Form::Data { wide, limit } => judge_data(wide, limit, payload),
        Form::Name => judge_name(payload),
        Form::Kind { directory } => judge_kind(directory, payload),
        Form::Vnode { last } => judge_vnode(last, payload),
    }
}

fn free_data(wide: bool, limit: u32, payload: &[u8]) -> usize
    ensures { (q : List ℕ) → Judges (IsWhole (Form.Data wide limit)) payload.now More → IsBytes q → length q ≤ result
        → Judges (IsWhole (Form.Data wide limit)) (payload.now ++ q) More }
{
    let size = size_at(wide, payload);
    let before = len_of_size(wide);
    if payload.len() < before || size > limit as u64 {
        return 0;
    }
    (before + size as usize).saturating_sub(payload.len() + 1)
}

/// How many bytes may follow these, whichever they are, so that more have still to come.
pub fn free_bytes(form: Form, payload: &[u8]) -> usize
    ensures { (q : List ℕ) → Judges (IsWhole form) payload.now More → IsBytes q → length q ≤ result
        → Judges (IsWhole form) (payload.now ++ q) More }
{
    match form {
        Form::Data { wide, limit } => free_data(wide, limit, payload),
        _ => 0,
    }
}
