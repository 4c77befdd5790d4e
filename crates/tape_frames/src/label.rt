//! The label of a tape.

ghost use Rattle.std.specs.Prelude.{◌≡◌, ◌↔◌, IsTrue, IfOk};
ghost use Rattle.tape_frames.specs.Blocks.{block_of};
ghost use Rattle.tape_frames.specs.Layouts.{label_bytes, FitsLabel, IsLabel};

use crate::kind::Kind;
use crate::page::{Block, Page};
use crate::views::LabelView;
use bk_text::Bytes;
use byte_formats::is_maybe_tape_name;
use std::alloc::{AllocError, Global};
use std::marker::Model;

/// The fields of a label, in the order of its block.
#[derive(Debug, Drop)]
pub struct LabelFields {
    /// The id of the initial dump that the tape belongs to, 0 where it carries none.
    pub initial: u32,
    /// The number of the tape in that dump, from 1 on; 0 where it carries none.
    pub tape: u32,
    /// The name that the dump's tapes are known by, a tape's name; it may be empty where the tape carries no dump.
    pub afs: Bytes,
    /// The name that stays with the tape, a tape's name or empty.
    pub permanent: Bytes,
}

/// A tape's label. Initial and tape are both 0, or both aren't and the AFS name isn't empty.
#[derive(Debug)]
pub struct Label {
    fields: LabelFields,
}

/// It is written out, so that each function that lets one go calls it.
impl Drop for Label {
    fn drop(self) {
        let Label { fields } = self;
    }
}

impl Model for Label {
    ghost use Rattle.tape_frames.specs.declared.label.LabelFields.{LabelFields};
    ghost use Rattle.tape_frames.specs.Layouts.{FitsLabel};

    ghost Value = { LabelFields };

    ghost view = { λ a. a.fields };

    ghost invariant = { λ a. FitsLabel a.fields };
}

impl LabelFields {
    /// Whether a label may have these fields.
    pub fn is_label(&self) -> bool
        ensures { IsTrue result ↔ IsLabel self.now }
    {
        is_maybe_tape_name(self.afs.as_slice())
            && is_maybe_tape_name(self.permanent.as_slice())
            && ((self.initial == 0 && self.tape == 0)
                || (self.initial != 0 && self.tape != 0 && !self.afs.is_empty()))
    }
}

impl Label {
    ghost use Rattle.tape_frames.specs.Views.{label_seen};

    /// The label of fields that were read.
    pub(crate) fn from_view(alloc: Global, view: &LabelView) -> Result<Label, AllocError>
        requires { FitsLabel (label_seen view.now) }
        ensures { IfOk result (λ a. a ≡ label_seen view.now) }
    {
        let fields = LabelFields {
            initial: view.initial,
            tape: view.tape,
            afs: Bytes::from_slice(alloc, view.afs)?,
            permanent: Bytes::from_slice(alloc, view.permanent)?,
        };
        Ok(Label::new(fields))
    }

    /// The label of these fields, which `LabelFields::is_label` tests.
    pub fn new(fields: LabelFields) -> Self
        requires { IsLabel fields }
        ensures { result ≡ fields }
    {
        Label { fields }
    }

    /// Its fields.
    pub fn fields(&self) -> &LabelFields
        ensures value { result.now ≡ self.now }
        ensures form { IsLabel self.now }
        ensures fits { FitsLabel self.now }
    {
        &self.fields
    }

    /// Its fields, taken out. It takes no memory.
    pub fn into_fields(self) -> LabelFields
        ensures value { result ≡ self }
        ensures fits { FitsLabel self }
    {
        let Label { fields } = self;
        fields
    }

    /// Writes its block. It takes no memory.
    pub fn encode(&self, into: &mut Block)
        ensures block { into.new ≡ block_of 1 1 (label_bytes self.now) }
        ensures fits { FitsLabel self.now }
    {
        let a = &self.fields;
        let mut page = Page::new(Kind::Label);
        page.four(a.initial);
        page.four(a.tape);
        page.text1(a.afs.as_slice());
        page.text1(a.permanent.as_slice());
        page.finish(into);
    }
}
