//! Reading the fields of a frame. It takes no memory; a refusal tells how many bytes are left from the first bad one on.

ghost use Rattle.std.specs.Prelude.{◌≡◌, ◌≤◌, length, take, drop, MatchResult};
ghost use Rattle.byte_formats.specs.Formats.{Took, Sticks};
ghost use Rattle.tape_frames.specs.Formats.{tape_of, afs_of, zeros_of, used_of, label_form, plain_head_form, dump_head_form, vol_head_form, data_form, vol_end_form, dump_end_form};
ghost use Rattle.tape_frames.specs.Views.{label_seen, head_seen, vol_head_seen, data_seen};

use crate::blank::first_set;
use crate::dump_end::DumpEndFields;
use crate::views::{DataView, HeadView, LabelView, VolHeadView};
use crate::vol_end::VolEndFields;
use byte_formats::{Text, front_four, front_four_in, front_level, front_maybe, front_text1};

/// The tape's number of a label with this initial id.
fn read_tape<'a>(initial: u32, bytes: &'a [u8]) -> Result<(u32, &'a [u8]), usize>
    ensures { MatchResult result (λ x. Took (tape_of initial) bytes.now x.0 x.1.now) (λ left. Sticks (tape_of initial) bytes.now left) }
{
    if initial == 0 {
        front_four_in(0, 0, bytes)
    } else {
        front_four_in(1, u32::MAX, bytes)
    }
}

/// The AFS name of a label with this initial id.
fn read_afs<'a>(initial: u32, bytes: &'a [u8]) -> Result<(&'a [u8], &'a [u8]), usize>
    ensures { MatchResult result (λ x. Took (afs_of initial) bytes.now x.0.now x.1.now) (λ left. Sticks (afs_of initial) bytes.now left) }
{
    if initial == 0 {
        match front_maybe(Text::TapeName, bytes) {
            Err(left) => Err(left),
            Ok((text, rest)) => Ok((text, rest)),
        }
    } else {
        match front_text1(Text::TapeName, bytes) {
            Err(left) => Err(left),
            Ok((text, rest)) => Ok((text, rest)),
        }
    }
}

/// The fields of a label.
pub fn read_label<'a>(bytes: &'a [u8]) -> Result<(LabelView<'a>, &'a [u8]), usize>
    ensures { MatchResult result (λ x. Took label_form bytes.now (label_seen x.0) x.1.now) (λ left. Sticks label_form bytes.now left) }
{
    let (initial, after_initial) = front_four(bytes)?;
    let (tape, after_tape) = read_tape(initial, after_initial)?;
    let (afs, after_afs) = read_afs(initial, after_tape)?;
    let (permanent, rest) = front_maybe(Text::TapeName, after_afs)?;
    let view = LabelView {
        initial,
        tape,
        afs,
        permanent,
    };
    Ok((view, rest))
}

/// The fields of a dump's head in version 1.
pub fn read_plain_head<'a>(bytes: &'a [u8]) -> Result<(HeadView<'a>, &'a [u8]), usize>
    ensures { MatchResult result (λ x. Took plain_head_form bytes.now (head_seen x.0) x.1.now) (λ left. Sticks plain_head_form bytes.now left) }
{
    let (id, after_id) = front_four_in(1, u32::MAX, bytes)?;
    let (initial, after_initial) = front_four_in(1, id, after_id)?;
    let (parent, after_parent) = front_four(after_initial)?;
    let (expires, after_expires) = front_four(after_parent)?;
    let (tape, after_tape) = front_four_in(1, u32::MAX, after_expires)?;
    let (part, after_part) = front_four_in(1, u32::MAX, after_tape)?;
    let (volumes, after_volumes) = front_four_in(1, u32::MAX, after_part)?;
    let (set, after_set) = front_text1(Text::SetName, after_volumes)?;
    let (level, after_level) = front_level(after_set)?;
    let (base, rest) = front_text1(Text::Base, after_level)?;
    let view = HeadView {
        id,
        initial,
        parent,
        expires,
        tape,
        part,
        volumes,
        set,
        level,
        base,
        cell: &[],
        permanent: &[],
        uses: 0,
    };
    Ok((view, rest))
}

/// The fields of a dump's head in version 2: those of version 1, and then cell, permanent name and uses.
pub fn read_dump_head<'a>(bytes: &'a [u8]) -> Result<(HeadView<'a>, &'a [u8]), usize>
    ensures { MatchResult result (λ x. Took dump_head_form bytes.now (head_seen x.0) x.1.now) (λ left. Sticks dump_head_form bytes.now left) }
{
    let (plain, after_plain) = read_plain_head(bytes)?;
    let (cell, after_cell) = front_maybe(Text::Host, after_plain)?;
    let (permanent, after_permanent) = front_maybe(Text::TapeName, after_cell)?;
    let (uses, rest) = front_four_in(1, u32::MAX, after_permanent)?;
    let mut view = plain;
    view.cell = cell;
    view.permanent = permanent;
    view.uses = uses;
    Ok((view, rest))
}

/// The fields of a volume's head.
pub fn read_vol_head<'a>(bytes: &'a [u8]) -> Result<(VolHeadView<'a>, &'a [u8]), usize>
    ensures { MatchResult result (λ x. Took vol_head_form bytes.now (vol_head_seen x.0) x.1.now) (λ left. Sticks vol_head_form bytes.now left) }
{
    let (dump, after_dump) = front_four(bytes)?;
    let (index, after_index) = front_four(after_dump)?;
    let (fragment, after_fragment) = front_four_in(1, u32::MAX, after_index)?;
    let (volume, after_volume) = front_four(after_fragment)?;
    let (clone, after_clone) = front_four(after_volume)?;
    let (from, after_from) = front_four(after_clone)?;
    let (name, after_name) = front_text1(Text::Name, after_from)?;
    let (server, after_server) = front_text1(Text::Host, after_name)?;
    let (partition, rest) = front_text1(Text::Name, after_server)?;
    let view = VolHeadView {
        dump,
        index,
        fragment,
        volume,
        clone,
        from,
        name,
        server,
        partition,
    };
    Ok((view, rest))
}

/// The fields of a fragment's end.
pub fn read_vol_end<'a>(bytes: &'a [u8]) -> Result<(VolEndFields, &'a [u8]), usize>
    ensures { MatchResult result (λ x. Took vol_end_form bytes.now x.0 x.1.now) (λ left. Sticks vol_end_form bytes.now left) }
{
    let (dump, after_dump) = front_four(bytes)?;
    let (index, after_index) = front_four(after_dump)?;
    let (fragment, after_fragment) = front_four(after_index)?;
    let (last, after_last) = front_four_in(0, 1, after_fragment)?;
    let (sum, rest) = front_four(after_last)?;
    let fields = VolEndFields {
        dump,
        index,
        fragment,
        last,
        bytes: sum,
    };
    Ok((fields, rest))
}

/// The fields of a part's end.
pub fn read_dump_end<'a>(bytes: &'a [u8]) -> Result<(DumpEndFields, &'a [u8]), usize>
    ensures { MatchResult result (λ x. Took dump_end_form bytes.now x.0 x.1.now) (λ left. Sticks dump_end_form bytes.now left) }
{
    let (dump, after_dump) = front_four(bytes)?;
    let (tape, after_tape) = front_four(after_dump)?;
    let (more, rest) = front_four_in(0, 1, after_tape)?;
    Ok((DumpEndFields { dump, tape, more }, rest))
}

/// The first so many bytes, and those behind them.
fn split(bytes: &[u8], count: usize) -> (&[u8], &[u8])
    requires { count ≤ length bytes.now }
    ensures front { result.0.now ≡ take count bytes.now }
    ensures rest { result.1.now ≡ drop count bytes.now }
{
    (&bytes[..count], &bytes[count..])
}

/// So many zeros.
fn read_zeros<'a>(count: usize, bytes: &'a [u8]) -> Result<(&'a [u8], &'a [u8]), usize>
    requires { count ≤ length bytes.now }
    ensures { MatchResult result (λ x. Took (zeros_of count) bytes.now x.0.now x.1.now) (λ left. Sticks (zeros_of count) bytes.now left) }
{
    let (front, rest) = split(bytes, count);
    match first_set(front) {
        Some(at) => Err(bytes.len() - at),
        None => Ok((front, rest)),
    }
}

/// So many bytes, which are zeros from the used ones on.
fn read_used<'a>(count: usize, used: u32, bytes: &'a [u8]) -> Result<(&'a [u8], &'a [u8]), usize>
    requires room { count ≤ length bytes.now }
    requires few { used ≤ count }
    ensures { MatchResult result (λ x. Took (used_of count used) bytes.now x.0.now x.1.now) (λ left. Sticks (used_of count used) bytes.now left) }
{
    let (front, rest) = split(bytes, count);
    let (_used, blank) = split(front, used as usize);
    match first_set(blank) {
        Some(at) => Err(bytes.len() - (used as usize + at)),
        None => Ok((front, rest)),
    }
}

/// The fields of a piece of data.
pub fn read_data<'a>(bytes: &'a [u8]) -> Result<(DataView<'a>, &'a [u8]), usize>
    requires { 16376 ≤ length bytes.now }
    ensures { MatchResult result (λ x. Took data_form bytes.now (data_seen x.0) x.1.now) (λ left. Sticks data_form bytes.now left) }
{
    let (dump, after_dump) = front_four(bytes)?;
    let (index, after_index) = front_four(after_dump)?;
    let (used, after_used) = front_four_in(1, 16352, after_index)?;
    let (_blank, after_blank) = read_zeros(12, after_used)?;
    let (data, rest) = read_used(16352, used, after_blank)?;
    let view = DataView {
        dump,
        index,
        used,
        bytes: data,
    };
    Ok((view, rest))
}
