//! The head of a dump's part on a tape.

ghost use Rattle.std.specs.Prelude.{◌≡◌, ◌↔◌, ◌≤◌, ◌++◌, length, IsTrue, IfOk};
ghost use Rattle.byte_formats.specs.Forms.{base_most};
ghost use Rattle.tape_frames.specs.Kinds.{head};
ghost use Rattle.tape_frames.specs.Blocks.{dump_head_block};
ghost use Rattle.tape_frames.specs.Layouts.{plain_head_bytes, dump_head_bytes, FitsDumpHead, IsDumpHead};

use crate::kind::Kind;
use crate::page::{Block, Page};
use crate::views::HeadView;
use bk_text::{Bytes, LevelPath, SetName, TapeName};
use byte_formats::{Text, is_maybe_host, is_maybe_tape_name};
use std::alloc::{AllocError, Global};
use std::marker::Model;

/// The fields of a dump's head, in the order of its block.
#[derive(Debug, Drop)]
pub struct DumpHeadFields {
    /// The id of the dump.
    pub id: u32,
    /// The id of the first dump on its tapes: its own, or an earlier one that it is appended to.
    pub initial: u32,
    /// The id of the dump that this one is taken since; 0 for a full dump.
    pub parent: u32,
    /// When it expires, in seconds since 1970; 0 where it has no expiration.
    pub expires: u32,
    /// The number of the tape, from 1 on.
    pub tape: u32,
    /// The number of this part of the dump, from 1 on.
    pub part: u32,
    /// The number of volumes of the dump.
    pub volumes: u32,
    /// The volume set.
    pub set: SetName,
    /// The level.
    pub level: LevelPath,
    /// What the names of its tapes begin with, at most 69 bytes.
    pub base: TapeName,
    /// The name of the cell, a server's name or empty.
    pub cell: Bytes,
    /// The name that stays with the tape, a tape's name or empty.
    pub permanent: Bytes,
    /// How often the tape was taken, this time included; 0 where it isn't told.
    pub uses: u32,
}

/// The head of a dump's part. Id, initial, tape, part and volumes are at least 1, and initial is at most the id. A head
/// with uses 0 has no cell and no permanent name, and is written in version 1; any other one is written in version 2.
#[derive(Debug)]
pub struct DumpHead {
    fields: DumpHeadFields,
}

/// It is written out, so that each function that lets one go calls it.
impl Drop for DumpHead {
    fn drop(self) {
        let DumpHead { fields } = self;
    }
}

impl Model for DumpHead {
    ghost use Rattle.tape_frames.specs.declared.dump_head.DumpHeadFields.{DumpHeadFields};
    ghost use Rattle.tape_frames.specs.Layouts.{FitsDumpHead};

    ghost Value = { DumpHeadFields };

    ghost view = { λ a. a.fields };

    ghost invariant = { λ a. FitsDumpHead a.fields };
}

impl DumpHeadFields {
    /// Whether a dump's head may have these fields.
    pub fn is_dump_head(&self) -> bool
        ensures { IsTrue result ↔ IsDumpHead self.now }
    {
        1 <= self.initial
            && self.initial <= self.id
            && 1 <= self.tape
            && 1 <= self.part
            && 1 <= self.volumes
            && self.base.bytes().len() <= Text::Base.most() as usize
            && is_maybe_host(self.cell.as_slice())
            && is_maybe_tape_name(self.permanent.as_slice())
            && (self.uses != 0 || (self.cell.is_empty() && self.permanent.is_empty()))
    }
}

impl DumpHead {
    ghost use Rattle.tape_frames.specs.Views.{head_seen};

    /// The head of fields that were read.
    pub(crate) fn from_view(alloc: Global, view: &HeadView) -> Result<DumpHead, AllocError>
        requires { FitsDumpHead (head_seen view.now) }
        ensures { IfOk result (λ a. a ≡ head_seen view.now) }
    {
        let fields = DumpHeadFields {
            id: view.id,
            initial: view.initial,
            parent: view.parent,
            expires: view.expires,
            tape: view.tape,
            part: view.part,
            volumes: view.volumes,
            set: SetName::from_bytes(alloc, view.set)?,
            level: LevelPath::from_bytes(alloc, view.level)?,
            base: TapeName::from_bytes(alloc, view.base)?,
            cell: Bytes::from_slice(alloc, view.cell)?,
            permanent: Bytes::from_slice(alloc, view.permanent)?,
            uses: view.uses,
        };
        Ok(DumpHead::new(fields))
    }

    /// The head of these fields, which `DumpHeadFields::is_dump_head` tests.
    pub fn new(fields: DumpHeadFields) -> Self
        requires { IsDumpHead fields }
        ensures { result ≡ fields }
    {
        let _set = fields.set.bytes();
        let _level = fields.level.bytes();
        let _base = fields.base.bytes();
        DumpHead { fields }
    }

    /// Its fields.
    pub fn fields(&self) -> &DumpHeadFields
        ensures value { result.now ≡ self.now }
        ensures form { IsDumpHead self.now }
        ensures fits { FitsDumpHead self.now }
    {
        &self.fields
    }

    /// Its fields, taken out. It takes no memory.
    pub fn into_fields(self) -> DumpHeadFields
        ensures value { result ≡ self }
        ensures fits { FitsDumpHead self }
    {
        let DumpHead { fields } = self;
        fields
    }

    /// Writes its block, in version 1 where uses is 0 and in version 2 where it isn't. It takes no memory.
    pub fn encode(&self, into: &mut Block)
        ensures block { into.new ≡ dump_head_block self.now }
        ensures fits { FitsDumpHead self.now }
    {
        let a = &self.fields;
        if a.uses == 0 {
            write_plain(a, Kind::PlainHead).finish(into);
        } else {
            write_whole(a).finish(into);
        }
    }
}

/// The fields of version 1 behind a kind's head.
fn write_plain(a: &DumpHeadFields, kind: Kind) -> Page
    requires { length a.now.base ≤ base_most }
    ensures value { result ≡ head kind ++ plain_head_bytes a.now }
    ensures long { length result ≤ 500 }
{
    let mut page = Page::new(kind);
    page.four(a.id);
    page.four(a.initial);
    page.four(a.parent);
    page.four(a.expires);
    page.four(a.tape);
    page.four(a.part);
    page.four(a.volumes);
    page.text1(a.set.bytes());
    page.text2(a.level.bytes());
    page.text1(a.base.bytes());
    page
}

/// The fields of version 2 behind its head.
fn write_whole(a: &DumpHeadFields) -> Page
    requires base { length a.now.base ≤ base_most }
    requires cell { length a.now.cell ≤ 63 }
    requires permanent { length a.now.permanent ≤ 80 }
    ensures { result ≡ head Kind.DumpHead ++ dump_head_bytes a.now }
{
    let mut page = write_plain(a, Kind::DumpHead);
    page.text1(a.cell.as_slice());
    page.text1(a.permanent.as_slice());
    page.four(a.uses);
    page
}
