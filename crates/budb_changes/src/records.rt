//! The record of a dump: where it lies on tapes, and which volumes it has.

ghost use Rattle.std.specs.Prelude.{◌≡◌, ◌↔◌, IsTrue, All};
ghost use Rattle.budb_changes.specs.Dumps.{IsNamed};

use bk_text::{Bytes, Host, LevelPath, List, Name, Part, SetName, TapeName};
use byte_formats::{Text, is_maybe_host, is_maybe_tape_name};
use std::alloc::AllocError;
use std::marker::Model;

/// The part of a dump on one tape.
#[derive(Debug, Drop)]
pub struct TapePart {
    /// The number of the tape in its dump set.
    pub tape: u32,
    /// The number of the record at which the part begins.
    pub first: u32,
    /// The number of the record behind it.
    pub end: u32,
    /// How many of the records before `end` are marks.
    pub marks: u32,
    /// How often the tape was used, this use counted in; 0 where that isn't known.
    pub uses: u32,
    /// The permanent name of the tape, a `TapeName`; empty where it has none.
    pub permanent: Bytes,
}

impl Clone for TapePart {
    ghost is_clone = { λ a b. b ≡ a };

    fn clone(&self) -> Result<TapePart, AllocError> {
        Ok(TapePart {
            tape: self.tape,
            first: self.first,
            end: self.end,
            marks: self.marks,
            uses: self.uses,
            permanent: self.permanent.copy()?,
        })
    }
}

/// Where a fragment of a volume lies.
#[derive(Clone, Copy, Debug, PartialEq, Eq)]
pub struct Frag {
    /// The number of the tape in its dump set.
    pub tape: u32,
    /// The number of the record at which it begins.
    pub at: u32,
}

/// The fields of a volume's record, in the order of their bytes.
#[derive(Debug, Drop)]
pub struct VolRecordFields {
    /// The name of the volume.
    pub name: Name,
    /// The id of the volume.
    pub id: u32,
    /// The server that it lay on.
    pub server: Host,
    /// The partition that it lay on.
    pub partition: Part,
    /// The time of the copy that was dumped, in seconds since 1970.
    pub clone: u32,
    /// The time from which on changes were dumped, in seconds since 1970; 0 for the whole volume.
    pub from: u32,
    /// Its fragments, 1 to 65,535 of them, in order.
    pub frags: List<Frag>,
}

impl Clone for VolRecordFields {
    ghost is_clone = { λ a b. b ≡ a };

    fn clone(&self) -> Result<VolRecordFields, AllocError> {
        Ok(VolRecordFields {
            name: self.name.clone()?,
            id: self.id,
            server: self.server.clone()?,
            partition: self.partition.clone()?,
            clone: self.clone,
            from: self.from,
            frags: self.frags.copy()?,
        })
    }
}

/// A volume of a dump's record. It has 1 to 65,535 fragments.
#[derive(Debug)]
pub struct VolRecord {
    fields: VolRecordFields,
}

/// It is written out, so that each function that lets one go calls it.
impl Drop for VolRecord {
    fn drop(self) {
        let VolRecord { fields } = self;
    }
}

impl Model for VolRecord {
    ghost use Rattle.budb_changes.specs.declared.records.VolRecordFields.{VolRecordFields};
    ghost use Rattle.budb_changes.specs.Frags.{KeepsFrags};

    ghost Value = { VolRecordFields };

    ghost view = { λ a. a.fields };

    ghost invariant = { λ a. KeepsFrags a.fields };
}

impl Clone for VolRecord {
    ghost is_clone = { λ a b. b ≡ a };

    fn clone(&self) -> Result<VolRecord, AllocError> {
        Ok(VolRecord {
            fields: self.fields.clone()?,
        })
    }
}

impl VolRecordFields {
    ghost use Rattle.budb_changes.specs.Frags.{KeepsFrags};

    /// Whether a volume's record may have these fields.
    pub fn is_vol_record(&self) -> bool
        ensures { IsTrue result ↔ KeepsFrags self.now }
    {
        1 <= self.frags.len() && self.frags.len() <= 65535
    }
}

impl VolRecord {
    ghost use Rattle.budb_changes.specs.Frags.{KeepsFrags};

    /// The record of these fields, which `VolRecordFields::is_vol_record` tests.
    pub fn new(fields: VolRecordFields) -> Self
        requires { KeepsFrags fields }
        ensures { result ≡ fields }
    {
        VolRecord { fields }
    }

    /// Its fields.
    pub fn fields(&self) -> &VolRecordFields
        ensures value { result.now ≡ self.now }
        ensures form { KeepsFrags self.now }
    {
        &self.fields
    }

    /// Its fields, for whoever changes them.
    pub fn into_fields(self) -> VolRecordFields
        ensures value { result ≡ self }
        ensures form { KeepsFrags self }
    {
        let VolRecord { fields } = self;
        fields
    }
}

/// The fields of a dump's record, in the order of their bytes.
#[derive(Debug, Drop)]
pub struct DumpRecordFields {
    /// The id of the dump, which is its creation date in seconds since 1970.
    pub id: u32,
    /// The id of the first dump on its tapes: its own, or an earlier one that it was appended to.
    pub initial: u32,
    /// The id of the dump that it was taken since; 0 for a full dump.
    pub parent: u32,
    /// When it expires, in seconds since 1970; 0 where it has no expiration, 4,294,967,295 where it never does.
    pub expires: u32,
    /// The volume set.
    pub set: SetName,
    /// The level.
    pub level: LevelPath,
    /// What the names of its tapes begin with, at most 69 bytes.
    pub base: TapeName,
    /// Its parts on tapes, at most 65,535 of them, in order.
    pub tapes: List<TapePart>,
    /// Its volumes, fewer than 2^32 of them, in order.
    pub volumes: List<VolRecord>,
    /// The cell that it was dumped in, a `Host`; empty where that isn't known.
    pub cell: Bytes,
}

impl Clone for DumpRecordFields {
    ghost is_clone = { λ a b. b ≡ a };

    fn clone(&self) -> Result<DumpRecordFields, AllocError> {
        Ok(DumpRecordFields {
            id: self.id,
            initial: self.initial,
            parent: self.parent,
            expires: self.expires,
            set: self.set.clone()?,
            level: self.level.clone()?,
            base: self.base.clone()?,
            tapes: self.tapes.clone()?,
            volumes: self.volumes.clone()?,
            cell: self.cell.copy()?,
        })
    }
}

/// A dump's record: at most 65,535 parts on tapes, fewer than 2^32 volumes, a base of at most 69 bytes, and permanent names
/// and a cell that have their forms where they aren't empty.
#[derive(Debug)]
pub struct DumpRecord {
    fields: DumpRecordFields,
}

/// It is written out, so that each function that lets one go calls it.
impl Drop for DumpRecord {
    fn drop(self) {
        let DumpRecord { fields } = self;
    }
}

impl Model for DumpRecord {
    ghost use Rattle.budb_changes.specs.declared.records.DumpRecordFields.{DumpRecordFields};
    ghost use Rattle.budb_changes.specs.Dumps.{KeepsDump};

    ghost Value = { DumpRecordFields };

    ghost view = { λ a. a.fields };

    ghost invariant = { λ a. KeepsDump a.fields };
}

impl Clone for DumpRecord {
    ghost is_clone = { λ a b. b ≡ a };

    fn clone(&self) -> Result<DumpRecord, AllocError> {
        Ok(DumpRecord {
            fields: self.fields.clone()?,
        })
    }
}

/// Whether each permanent name is a tape's name or empty.
fn are_named(tapes: &[TapePart]) -> bool
    ensures { IsTrue result ↔ All IsNamed tapes.now }
{
    tapes
        .iter()
        .all(|tape| is_maybe_tape_name(tape.permanent.as_slice()))
}

impl DumpRecordFields {
    ghost use Rattle.budb_changes.specs.Dumps.{KeepsDump};

    /// Whether a dump's record may have these fields.
    pub fn is_dump_record(&self) -> bool
        ensures { IsTrue result ↔ KeepsDump self.now }
    {
        self.base.bytes().len() <= Text::Base.most() as usize
            && self.tapes.len() <= 65535
            && are_named(self.tapes.as_slice())
            && self.volumes.len() <= 4294967295
            && is_maybe_host(self.cell.as_slice())
    }
}

impl DumpRecord {
    ghost use Rattle.budb_changes.specs.Dumps.{KeepsDump};

    /// The record of these fields, which `DumpRecordFields::is_dump_record` tests.
    pub fn new(fields: DumpRecordFields) -> Self
        requires { KeepsDump fields }
        ensures { result ≡ fields }
    {
        DumpRecord { fields }
    }

    /// Its fields.
    pub fn fields(&self) -> &DumpRecordFields
        ensures value { result.now ≡ self.now }
        ensures form { KeepsDump self.now }
    {
        &self.fields
    }

    /// Its fields, for whoever changes them.
    pub fn into_fields(self) -> DumpRecordFields
        ensures value { result ≡ self }
        ensures form { KeepsDump self }
    {
        let DumpRecord { fields } = self;
        fields
    }
}
