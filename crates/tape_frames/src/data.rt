//! A piece of a volume's stream on a tape.

ghost use Rattle.std.specs.Prelude.{◌≡◌, ◌<◌, All};
ghost use Rattle.tape_frames.specs.Blocks.{block_of};
ghost use Rattle.tape_frames.specs.Layouts.{data_bytes, FitsData, IsData};

use crate::kind::Kind;
use crate::page::{Block, Page};
use crate::views::DataView;
use std::marker::Model;

/// The fields of a piece of data, in the order of its block.
#[derive(Debug, Drop)]
pub struct DataFields {
    /// The id of the dump.
    pub dump: u32,
    /// The place of the volume in the dump, from 0 on.
    pub index: u32,
    /// The number of bytes that are used, 1 to 16,352.
    pub used: u32,
    /// These bytes, and zeros behind them.
    pub bytes: [u8; 16352],
}

/// A piece of a volume's stream: 1 to 16,352 bytes.
#[derive(Debug, Drop)]
pub struct Data {
    fields: DataFields,
}

impl Model for Data {
    ghost use Rattle.tape_frames.specs.declared.data.DataFields.{DataFields};
    ghost use Rattle.tape_frames.specs.Layouts.{FitsData};

    ghost Value = { DataFields };

    ghost view = { λ a. a.fields };

    ghost invariant = { λ a. FitsData a.fields };
}

/// Bytes are below 256, whichever they are.
fn are_bytes(bytes: &[u8])
    ensures { All (λ b. b < 256) bytes.now }
{
    let _bytes = bytes;
}

impl Data {
    ghost use Rattle.tape_frames.specs.Views.{data_seen};

    /// The piece of fields that were read.
    pub(crate) fn from_view(view: &DataView) -> Data
        requires { FitsData (data_seen view.now) }
        ensures { result ≡ data_seen view.now }
    {
        let mut bytes = [0; 16352];
        bytes.copy_from_slice(view.bytes);
        Data::new(DataFields {
            dump: view.dump,
            index: view.index,
            used: view.used,
            bytes,
        })
    }

    /// The piece of these fields.
    pub fn new(fields: DataFields) -> Self
        requires { IsData fields }
        ensures { result ≡ fields }
    {
        are_bytes(&fields.bytes);
        Data { fields }
    }

    /// Its fields.
    pub fn fields(&self) -> &DataFields
        ensures value { result.now ≡ self.now }
        ensures form { IsData self.now }
        ensures fits { FitsData self.now }
    {
        &self.fields
    }

    /// Its fields, taken out. It takes no memory.
    pub fn into_fields(self) -> DataFields
        ensures value { result ≡ self }
        ensures fits { FitsData self }
    {
        let Data { fields } = self;
        fields
    }

    /// Writes its block. It takes no memory.
    pub fn encode(&self, into: &mut Block)
        ensures block { into.new ≡ block_of 1 4 (data_bytes self.now) }
        ensures fits { FitsData self.now }
    {
        let a = &self.fields;
        let mut page = Page::new(Kind::Data);
        page.four(a.dump);
        page.four(a.index);
        page.four(a.used);
        page.zeros(12);
        page.piece(&a.bytes);
        page.finish(into);
    }
}
