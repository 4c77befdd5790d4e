//! The head of a volume's fragment on a tape.

ghost use Rattle.std.specs.Prelude.{◌≡◌, ◌≤◌, IfOk};
ghost use Rattle.tape_frames.specs.Blocks.{block_of};
ghost use Rattle.tape_frames.specs.Layouts.{vol_head_bytes, FitsVolHead};

use crate::kind::Kind;
use crate::page::{Block, Page};
use crate::views::VolHeadView;
use bk_text::{Host, Name, Part};
use std::alloc::{AllocError, Global};
use std::marker::Model;

/// The fields of a volume's head, in the order of its block.
#[derive(Debug, Drop)]
pub struct VolHeadFields {
    /// The id of the dump.
    pub dump: u32,
    /// The place of the volume in the dump, from 0 on.
    pub index: u32,
    /// The number of this fragment of the volume's stream, from 1 on.
    pub fragment: u32,
    /// The id of the volume.
    pub volume: u32,
    /// The time of the copy that was dumped, in seconds since 1970.
    pub clone: u32,
    /// The time from which on changes are dumped, in seconds since 1970; 0 for the whole volume.
    pub from: u32,
    /// The name of the volume.
    pub name: Name,
    /// The server that it lies on.
    pub server: Host,
    /// The partition that it lies on.
    pub partition: Part,
}

/// The head of a volume's fragment. The fragment's number is at least 1.
#[derive(Debug)]
pub struct VolHead {
    fields: VolHeadFields,
}

/// It is written out, so that each function that lets one go calls it.
impl Drop for VolHead {
    fn drop(self) {
        let VolHead { fields } = self;
    }
}

impl Model for VolHead {
    ghost use Rattle.tape_frames.specs.declared.vol_head.VolHeadFields.{VolHeadFields};
    ghost use Rattle.tape_frames.specs.Layouts.{FitsVolHead};

    ghost Value = { VolHeadFields };

    ghost view = { λ a. a.fields };

    ghost invariant = { λ a. FitsVolHead a.fields };
}

impl VolHead {
    ghost use Rattle.tape_frames.specs.Views.{vol_head_seen};

    /// The head of fields that were read.
    pub(crate) fn from_view(alloc: Global, view: &VolHeadView) -> Result<VolHead, AllocError>
        requires { FitsVolHead (vol_head_seen view.now) }
        ensures { IfOk result (λ a. a ≡ vol_head_seen view.now) }
    {
        let fields = VolHeadFields {
            dump: view.dump,
            index: view.index,
            fragment: view.fragment,
            volume: view.volume,
            clone: view.clone,
            from: view.from,
            name: Name::from_bytes(alloc, view.name)?,
            server: Host::from_bytes(alloc, view.server)?,
            partition: Part::from_bytes(alloc, view.partition)?,
        };
        Ok(VolHead::new(fields))
    }

    /// The head of these fields.
    pub fn new(fields: VolHeadFields) -> Self
        requires { 1 ≤ fields.fragment }
        ensures { result ≡ fields }
    {
        let _name = fields.name.bytes();
        let _server = fields.server.bytes();
        let _partition = fields.partition.bytes();
        VolHead { fields }
    }

    /// Its fields.
    pub fn fields(&self) -> &VolHeadFields
        ensures value { result.now ≡ self.now }
        ensures fits { FitsVolHead self.now }
    {
        &self.fields
    }

    /// Its fields, taken out. It takes no memory.
    pub fn into_fields(self) -> VolHeadFields
        ensures value { result ≡ self }
        ensures fits { FitsVolHead self }
    {
        let VolHead { fields } = self;
        fields
    }

    /// Writes its block. It takes no memory.
    pub fn encode(&self, into: &mut Block)
        ensures block { into.new ≡ block_of 1 3 (vol_head_bytes self.now) }
        ensures fits { FitsVolHead self.now }
    {
        let a = &self.fields;
        let mut page = Page::new(Kind::VolHead);
        page.four(a.dump);
        page.four(a.index);
        page.four(a.fragment);
        page.four(a.volume);
        page.four(a.clone);
        page.four(a.from);
        page.text1(a.name.bytes());
        page.text1(a.server.bytes());
        page.text1(a.partition.bytes());
        page.finish(into);
    }
}
