//! The end of a dump's part on a tape.

ghost use Rattle.std.specs.Prelude.{◌≡◌, ◌≤◌};
ghost use Rattle.tape_frames.specs.Blocks.{block_of};
ghost use Rattle.tape_frames.specs.Layouts.{dump_end_bytes, FitsDumpEnd};

use crate::kind::Kind;
use crate::page::{Block, Page};
use std::marker::Model;

/// The fields of a part's end, in the order of its block.
#[derive(Clone, Copy, Debug, PartialEq, Eq)]
pub struct DumpEndFields {
    /// The id of the dump.
    pub dump: u32,
    /// The number of the tape.
    pub tape: u32,
    /// 1 where the dump goes on on another tape, else 0.
    pub more: u32,
}

/// The end of a dump's part on a tape. `more` is 0 or 1.
#[derive(Debug, Drop)]
pub struct DumpEnd {
    fields: DumpEndFields,
}

impl Model for DumpEnd {
    ghost use Rattle.tape_frames.specs.declared.dump_end.DumpEndFields.{DumpEndFields};
    ghost use Rattle.tape_frames.specs.Layouts.{FitsDumpEnd};

    ghost Value = { DumpEndFields };

    ghost view = { λ a. a.fields };

    ghost invariant = { λ a. FitsDumpEnd a.fields };
}

impl DumpEnd {
    /// The end of these fields.
    pub fn new(fields: DumpEndFields) -> Self
        requires { fields.more ≤ 1 }
        ensures { result ≡ fields }
    {
        DumpEnd { fields }
    }

    /// Its fields.
    pub fn fields(&self) -> DumpEndFields
        ensures value { result ≡ self.now }
        ensures fits { FitsDumpEnd self.now }
    {
        self.fields
    }

    /// Its fields, taken out. It takes no memory.
    pub fn into_fields(self) -> DumpEndFields
        ensures value { result ≡ self }
        ensures fits { FitsDumpEnd self }
    {
        let DumpEnd { fields } = self;
        fields
    }

    /// Writes its block. It takes no memory.
    pub fn encode(&self, into: &mut Block)
        ensures block { into.new ≡ block_of 1 6 (dump_end_bytes self.now) }
        ensures fits { FitsDumpEnd self.now }
    {
        let a = &self.fields;
        let mut page = Page::new(Kind::DumpEnd);
        page.four(a.dump);
        page.four(a.tape);
        page.four(a.more);
        page.finish(into);
    }
}
