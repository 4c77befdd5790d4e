//! The end of a volume's fragment on a tape.

ghost use Rattle.std.specs.Prelude.{◌≡◌, ◌≤◌};
ghost use Rattle.tape_frames.specs.Blocks.{block_of};
ghost use Rattle.tape_frames.specs.Layouts.{vol_end_bytes, FitsVolEnd};

use crate::kind::Kind;
use crate::page::{Block, Page};
use std::marker::Model;

/// The fields of a fragment's end, in the order of its block.
#[derive(Clone, Copy, Debug, PartialEq, Eq)]
pub struct VolEndFields {
    /// The id of the dump.
    pub dump: u32,
    /// The place of the volume in the dump, from 0 on.
    pub index: u32,
    /// The number of the fragment.
    pub fragment: u32,
    /// 1 where the volume's stream ends with this fragment, else 0.
    pub last: u32,
    /// The number of the stream's bytes in this fragment.
    pub bytes: u32,
}

/// The end of a volume's fragment. `last` is 0 or 1.
#[derive(Debug, Drop)]
pub struct VolEnd {
    fields: VolEndFields,
}

impl Model for VolEnd {
    ghost use Rattle.tape_frames.specs.declared.vol_end.VolEndFields.{VolEndFields};
    ghost use Rattle.tape_frames.specs.Layouts.{FitsVolEnd};

    ghost Value = { VolEndFields };

    ghost view = { λ a. a.fields };

    ghost invariant = { λ a. FitsVolEnd a.fields };
}

impl VolEnd {
    /// The end of these fields.
    pub fn new(fields: VolEndFields) -> Self
        requires { fields.last ≤ 1 }
        ensures { result ≡ fields }
    {
        VolEnd { fields }
    }

    /// Its fields.
    pub fn fields(&self) -> VolEndFields
        ensures value { result ≡ self.now }
        ensures fits { FitsVolEnd self.now }
    {
        self.fields
    }

    /// Its fields, taken out. It takes no memory.
    pub fn into_fields(self) -> VolEndFields
        ensures value { result ≡ self }
        ensures fits { FitsVolEnd self }
    {
        let VolEnd { fields } = self;
        fields
    }

    /// Writes its block. It takes no memory.
    pub fn encode(&self, into: &mut Block)
        ensures block { into.new ≡ block_of 1 5 (vol_end_bytes self.now) }
        ensures fits { FitsVolEnd self.now }
    {
        let a = &self.fields;
        let mut page = Page::new(Kind::VolEnd);
        page.four(a.dump);
        page.four(a.index);
        page.four(a.fragment);
        page.four(a.last);
        page.four(a.bytes);
        page.finish(into);
    }
}
