//! How far a stream was read, from one field to the next.

use bk_text::{Bytes, List, Name};
use vnode_model::IncrementFields;

/// A field: its tag and the bytes behind it.
#[derive(Drop)]
pub struct Field {
    pub tag: u8,
    pub payload: Bytes,
}

/// What a dump header says.
#[derive(Drop)]
pub struct DumpHead {
    pub id: u32,
    pub name: Name,
    pub from: u32,
    pub to: u32,
}

/// What was read of a stream, up to the end of a field.
#[derive(Drop)]
pub enum Sofar {
    Start,
    Dump {
        fields: List<Field>,
    },
    Volume {
        dump: DumpHead,
        fields: List<Field>,
    },
    Vnode {
        made: IncrementFields,
        room: usize,
        number: u32,
        uniq: u32,
        fields: List<Field>,
    },
    Ended {
        made: IncrementFields,
    },
}
