//! What a dump stream says.

ghost use Rattle.std.specs.Prelude.{◌≡◌};
ghost use Rattle.vnode_model.specs.Limits.{AreFit};

use crate::headers::VolHeader;
use crate::vnodes::Vnode;
use bk_text::{List, Name};
use std::marker::Model;

/// What an increment says of a vnode.
#[derive(Debug, Drop)]
pub enum Entry {
    /// The vnode with all its fields.
    Whole(Vnode),
    /// A vnode by number alone: the base has it.
    Kept { number: u32, uniq: u32 },
}

/// The fields of an increment.
#[derive(Debug, Drop)]
pub struct IncrementFields {
    /// The volume's id in the dump header.
    pub dump_id: u32,
    /// The volume's name in the dump header.
    pub dump_name: Name,
    /// The time from which on changed vnodes are whole, in seconds since 1970; 0 for all of them.
    pub from: u32,
    /// The time of the volume's state, in seconds since 1970.
    pub to: u32,
    pub header: VolHeader,
    pub entries: List<Entry>,
}

/// An increment: a volume's header and an entry for each of its vnodes, in the order, of the parity and within the
/// limits of a volume's vnodes.
#[derive(Debug)]
pub struct Increment {
    fields: IncrementFields,
}

/// It is written out, so that each function that lets one go calls it.
impl Drop for Increment {
    fn drop(self) {
        let Increment { fields } = self;
    }
}

impl Model for Increment {
    ghost use Rattle.vnode_model.specs.declared.increments.IncrementFields.{IncrementFields};

    ghost Value = { IncrementFields };

    ghost use Rattle.vnode_model.specs.Limits.{AreFit};

    ghost view = { λ a. a.fields };

    ghost invariant = { λ a. AreFit a.fields.entries };
}

impl Increment {
    /// The increment of these fields. `fault_in` tests the entries.
    pub fn new(fields: IncrementFields) -> Self
        requires { AreFit fields.entries }
        ensures { result ≡ fields }
    {
        Increment { fields }
    }

    /// Its fields.
    pub fn fields(&self) -> &IncrementFields
        ensures value { result.now ≡ self.now }
        ensures form { AreFit self.now.entries }
    {
        &self.fields
    }

    /// Its fields, for whoever changes them.
    pub fn into_fields(self) -> IncrementFields
        ensures value { result ≡ self }
        ensures form { AreFit self.entries }
    {
        let Increment { fields } = self;
        fields
    }
}
