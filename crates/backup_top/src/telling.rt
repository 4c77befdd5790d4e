//! Telling lines to the output of a media.

ghost use Rattle.std.specs.Prelude.{◌≡◌, ◌++◌, ℕ, List, length, IfOk, OnErr, Err};
ghost use Rattle.std.specs.List.{flat_map};
ghost use Rattle.crash_moments.specs.Moments.{Leads, HasCause, HasCauseAt};
ghost use Rattle.backup_top.specs.Tells.{ToldLines, TellsOn, OnlyTells};
ghost use Rattle.backup_top.specs.Replies.{entry_line, stream_lines, lines_of};
ghost use Rattle.backup_top.specs.declared.telling.TellStop.TheVariants.{Refused};

use crate::lines::{line_of_bad, line_of_cut, line_of_entry, line_of_volume};
use bk_text::Bytes;
use dump_stream::Input;
use media_core::{Failed, Media};
use std::alloc::{AllocError, Global};
use thiserror::Error;
use vnode_model::{Entry, Increment};

/// Why not all lines were told.
#[derive(Clone, Copy, Debug, PartialEq, Eq, Drop, Error)]
pub enum TellStop {
    /// The output took no more.
    #[error("the output took no more")]
    Refused,
    /// Memory was refused.
    #[error("memory was refused")]
    Memory,
}

/// Tells all of a piece.
pub fn tell_all<M: Media>(media: &mut M, piece: &[u8]) -> Result<(), Failed>
    ensures told { M.tells → ToldLines piece.now (M.seen media.old).told (M.seen media.new).told result }
    ensures images { M.tells → Leads M.time media.old media.new (TellsOn piece.now (M.seen media.old).told) }
    ensures only { OnlyTells M.tells M.seen M.time M.count M.present M.faults M.tell_faults media.old media.new }
    ensures cause { HasCause (M.tell_faults media.old) (M.tell_faults media.new) result }
{
    let mut at = 0;
    while at < piece.len() {
        match media.tell(&piece[at..]) {
            Ok(count) => at += count,
            Err(_) => return Err(Failed),
        }
    }
    Ok(())
}

/// Tells a line, where memory for it was there.
fn tell_line<M: Media>(media: &mut M, line: Result<Bytes, AllocError>) -> Result<(), TellStop>
    ensures told { (text : List ℕ) → IfOk line (λ bytes. bytes ≡ text) → M.tells → ToldLines text (M.seen media.old).told (M.seen media.new).told result }
    ensures images { (text : List ℕ) → IfOk line (λ bytes. bytes ≡ text) → M.tells → Leads M.time media.old media.new (TellsOn text (M.seen media.old).told) }
    ensures only { OnlyTells M.tells M.seen M.time M.count M.present M.faults M.tell_faults media.old media.new }
    ensures cause { HasCauseAt Refused (M.tell_faults media.old) (M.tell_faults media.new) result }
{
    match line {
        Err(_) => Err(TellStop::Memory),
        Ok(line) => match tell_all(media, line.as_slice()) {
            Ok(()) => Ok(()),
            Err(_) => Err(TellStop::Refused),
        },
    }
}

/// Tells the lines of a stream's entries.
fn tell_entries<M: Media>(alloc: Global, media: &mut M, entries: &[Entry]) -> Result<(), TellStop>
    ensures told { M.tells → ToldLines (flat_map entry_line entries.now) (M.seen media.old).told (M.seen media.new).told result }
    ensures images { M.tells → Leads M.time media.old media.new (TellsOn (flat_map entry_line entries.now) (M.seen media.old).told) }
    ensures only { OnlyTells M.tells M.seen M.time M.count M.present M.faults M.tell_faults media.old media.new }
    ensures cause { HasCauseAt Refused (M.tell_faults media.old) (M.tell_faults media.new) result }
{
    for entry in entries {
        match tell_line(media, line_of_entry(alloc, entry)) {
            Ok(()) => {}
            Err(stop) => return Err(stop),
        }
    }
    Ok(())
}

/// Tells the lines of a stream.
fn tell_stream<M: Media>(
    alloc: Global,
    media: &mut M,
    increment: &Increment,
) -> Result<(), TellStop>
    ensures told { M.tells → ToldLines (stream_lines increment.now) (M.seen media.old).told (M.seen media.new).told result }
    ensures images { M.tells → Leads M.time media.old media.new (TellsOn (stream_lines increment.now) (M.seen media.old).told) }
    ensures only { OnlyTells M.tells M.seen M.time M.count M.present M.faults M.tell_faults media.old media.new }
    ensures cause { HasCauseAt Refused (M.tell_faults media.old) (M.tell_faults media.new) result }
{
    match tell_line(media, line_of_volume(alloc, increment)) {
        Err(stop) => Err(stop),
        Ok(()) => match tell_entries(alloc, media, increment.fields().entries.as_slice()) {
            Err(stop) => Err(stop),
            Ok(()) => Ok(()),
        },
    }
}

/// Tells what an input is.
pub fn tell_input<M: Media>(alloc: Global, media: &mut M, input: &Input) -> Result<(), TellStop>
    ensures told { M.tells → ToldLines (lines_of input.now) (M.seen media.old).told (M.seen media.new).told result }
    ensures images { M.tells → Leads M.time media.old media.new (TellsOn (lines_of input.now) (M.seen media.old).told) }
    ensures only { OnlyTells M.tells M.seen M.time M.count M.present M.faults M.tell_faults media.old media.new }
    ensures cause { HasCauseAt Refused (M.tell_faults media.old) (M.tell_faults media.new) result }
{
    match input {
        Input::Stream(increment) => tell_stream(alloc, media, increment),
        Input::Cut { length } => tell_line(media, line_of_cut(alloc, *length)),
        Input::Bad { at } => tell_line(media, line_of_bad(alloc, *at)),
        Input::Followed { at } => tell_line(media, line_of_bad(alloc, *at)),
    }
}
