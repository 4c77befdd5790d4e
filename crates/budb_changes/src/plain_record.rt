//! Records that tell no more than the form of version 1 can.

ghost use Rattle.std.specs.Prelude.{◌≡◌, ◌↔◌, IsTrue, All};
ghost use Rattle.budb_changes.specs.Plain.{IsPlainPart, IsPlain};

use crate::records::{DumpRecord, TapePart};
use std::alloc::AllocError;
use std::marker::Model;

/// A dump's record whose cell and permanent names are empty, and whose numbers of uses are 0.
#[derive(Debug, Drop)]
pub struct PlainRecord {
    dump: DumpRecord,
}

impl Model for PlainRecord {
    ghost use Rattle.budb_changes.specs.declared.records.DumpRecordFields.{DumpRecordFields};
    ghost use Rattle.budb_changes.specs.Plain.{IsPlain};

    ghost Value = { DumpRecordFields };

    ghost view = { λ a. a.dump };

    ghost invariant = { λ a. IsPlain a.dump };
}

impl Clone for PlainRecord {
    ghost is_clone = { λ a b. b ≡ a };

    fn clone(&self) -> Result<PlainRecord, AllocError> {
        Ok(PlainRecord {
            dump: self.dump.clone()?,
        })
    }
}

/// Whether a part tells no uses and no permanent name.
fn is_plain_part(tape: &TapePart) -> bool
    ensures { IsTrue result ↔ IsPlainPart tape.now }
{
    tape.uses == 0 && tape.permanent.is_empty()
}

/// Whether each part tells no uses and no permanent name.
fn are_plain(tapes: &[TapePart]) -> bool
    ensures { IsTrue result ↔ All IsPlainPart tapes.now }
{
    tapes.iter().all(|tape| is_plain_part(tape))
}

impl DumpRecord {
    /// Whether its cell and permanent names are empty and its numbers of uses are 0.
    pub fn is_plain(&self) -> bool
        ensures { IsTrue result ↔ IsPlain self.now }
    {
        let fields = self.fields();
        fields.cell.is_empty() && are_plain(fields.tapes.as_slice())
    }
}

impl PlainRecord {
    /// The plain record that this one is, as `DumpRecord::is_plain` tests.
    pub fn new(dump: DumpRecord) -> Self
        requires { IsPlain dump }
        ensures { result ≡ dump }
    {
        PlainRecord { dump }
    }

    /// The record.
    pub fn as_record(&self) -> &DumpRecord
        ensures value { result.now ≡ self.now }
        ensures plain { IsPlain self.now }
    {
        &self.dump
    }

    /// The record, for whoever goes on with it.
    pub fn into_record(self) -> DumpRecord
        ensures value { result ≡ self }
        ensures plain { IsPlain self }
    {
        let PlainRecord { dump } = self;
        dump
    }
}
