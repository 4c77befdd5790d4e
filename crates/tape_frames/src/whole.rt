//! Reading the fields of a frame and the zeros behind them, up to the end of its block.

ghost use Rattle.std.specs.Prelude.{◌≤◌, [], length, MatchResult};
ghost use Rattle.byte_formats.specs.Formats.{Took, Sticks, filled};
ghost use Rattle.tape_frames.specs.Formats.{label_form, plain_head_form, dump_head_form, vol_head_form, data_form, vol_end_form, dump_end_form};
ghost use Rattle.tape_frames.specs.Views.{label_seen, head_seen, vol_head_seen, data_seen};

use crate::blank::first_set;
use crate::dump_end::DumpEndFields;
use crate::reading::{
    read_data, read_dump_end, read_dump_head, read_label, read_plain_head, read_vol_end,
    read_vol_head,
};
use crate::views::{DataView, HeadView, LabelView, VolHeadView};
use crate::vol_end::VolEndFields;

/// The fields of a label, behind which all is zeros.
pub fn whole_label<'a>(body: &'a [u8]) -> Result<LabelView<'a>, usize>
    ensures { MatchResult result (λ x. Took (filled (length body.now) label_form) body.now (label_seen x) []) (λ left. Sticks (filled (length body.now) label_form) body.now left) }
{
    let (fields, rest) = read_label(body)?;
    match first_set(rest) {
        Some(at) => Err(rest.len() - at),
        None => Ok(fields),
    }
}

/// The fields of a dump's head in version 1, behind which all is zeros.
pub fn whole_plain_head<'a>(body: &'a [u8]) -> Result<HeadView<'a>, usize>
    ensures { MatchResult result (λ x. Took (filled (length body.now) plain_head_form) body.now (head_seen x) []) (λ left. Sticks (filled (length body.now) plain_head_form) body.now left) }
{
    let (fields, rest) = read_plain_head(body)?;
    match first_set(rest) {
        Some(at) => Err(rest.len() - at),
        None => Ok(fields),
    }
}

/// The fields of a dump's head in version 2, behind which all is zeros.
pub fn whole_dump_head<'a>(body: &'a [u8]) -> Result<HeadView<'a>, usize>
    ensures { MatchResult result (λ x. Took (filled (length body.now) dump_head_form) body.now (head_seen x) []) (λ left. Sticks (filled (length body.now) dump_head_form) body.now left) }
{
    let (fields, rest) = read_dump_head(body)?;
    match first_set(rest) {
        Some(at) => Err(rest.len() - at),
        None => Ok(fields),
    }
}

/// The fields of a volume's head, behind which all is zeros.
pub fn whole_vol_head<'a>(body: &'a [u8]) -> Result<VolHeadView<'a>, usize>
    ensures { MatchResult result (λ x. Took (filled (length body.now) vol_head_form) body.now (vol_head_seen x) []) (λ left. Sticks (filled (length body.now) vol_head_form) body.now left) }
{
    let (fields, rest) = read_vol_head(body)?;
    match first_set(rest) {
        Some(at) => Err(rest.len() - at),
        None => Ok(fields),
    }
}

/// The fields of a piece of data, behind which all is zeros.
pub fn whole_data<'a>(body: &'a [u8]) -> Result<DataView<'a>, usize>
    requires { 16376 ≤ length body.now }
    ensures { MatchResult result (λ x. Took (filled (length body.now) data_form) body.now (data_seen x) []) (λ left. Sticks (filled (length body.now) data_form) body.now left) }
{
    let (fields, rest) = read_data(body)?;
    match first_set(rest) {
        Some(at) => Err(rest.len() - at),
        None => Ok(fields),
    }
}

/// The fields of a fragment's end, behind which all is zeros.
pub fn whole_vol_end(body: &[u8]) -> Result<VolEndFields, usize>
    ensures { MatchResult result (λ x. Took (filled (length body.now) vol_end_form) body.now x []) (λ left. Sticks (filled (length body.now) vol_end_form) body.now left) }
{
    let (fields, rest) = read_vol_end(body)?;
    match first_set(rest) {
        Some(at) => Err(rest.len() - at),
        None => Ok(fields),
    }
}

/// The fields of a part's end, behind which all is zeros.
pub fn whole_dump_end(body: &[u8]) -> Result<DumpEndFields, usize>
    ensures { MatchResult result (λ x. Took (filled (length body.now) dump_end_form) body.now x []) (λ left. Sticks (filled (length body.now) dump_end_form) body.now left) }
{
    let (fields, rest) = read_dump_end(body)?;
    match first_set(rest) {
        Some(at) => Err(rest.len() - at),
        None => Ok(fields),
    }
}
