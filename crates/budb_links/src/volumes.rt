//! The fragments of a whole record: volume by volume into their chains, and all of them out again.

ghost use Rattle.std.specs.Prelude.{◌≡◌, ℕ, ◌+◌, ◌*◌, ◌<◌, ◌≤◌, ◌^◌, List, ◌++◌, length, Some, None, IsSome};
ghost use Rattle.std.specs.Int.{w32, to_be_bytes};
ghost use Rattle.budb_changes.specs.Dumps.{KeepsDump};
ghost use Rattle.budb_changes.specs.declared.records.DumpRecordFields.{DumpRecordFields};
ghost use Rattle.budb_links.specs.Stands.{first_place};
ghost use Rattle.budb_links.specs.Keyed.{chain_in};
ghost use Rattle.budb_links.specs.Frags.{Placed, volume_frags, dump_frags, count_frags, fragments, without_dump};
ghost use Rattle.budb_links.specs.Filing.{Files, with_dump, without_frag, AreOfDump, IsOwn};

use crate::frags::{FragPlace, Frags};
use crate::steps::Steps;
use budb_changes::{DumpRecord, DumpRecordFields};
use std::sync::ledger::Ledger;

/// Puts so many fragments of a volume, in order.
fn link_volume<L: Ledger>(
    frags: &mut Frags,
    id: u32,
    volume: u32,
    name: &[u8],
    count: u32,
    steps: &mut Steps<L>,
)
    requires files { (ps : List Placed) × Files frags.old ps }
    requires room { count ≤ length frags.old.free.items }
    requires short { length name.now ≤ 32 }
    ensures files { (ps : List Placed) → Files frags.old ps → (more : List Placed) × Files frags.new (ps ++ more) × (fragments more ≡ volume_frags id volume name.now 0 count) }
    ensures spare { length frags.new.free.items + count ≡ length frags.old.free.items }
    ensures cost { steps.new ≤ steps.old + 4 * count }
{
    for frag in 0..count {
        frags.link(FragPlace { id, volume, frag }, name, steps);
    }
}

/// Puts the fragments of a record, volume by volume.
pub(crate) fn link_dump<L: Ledger>(
    frags: &mut Frags,
    id: u32,
    dump: &DumpRecordFields,
    steps: &mut Steps<L>,
)
    requires id_is { id ≡ dump.now.id }
    requires files { (ps : List Placed) × Files frags.old ps }
    requires room { length (dump_frags dump.now) ≤ length frags.old.free.items }
    requires form { KeepsDump dump.now }
    ensures small { id < 2 ^ 32 }
    ensures files { (ps : List Placed) → Files frags.old ps → (more : List Placed) × Files frags.new (ps ++ more) × (fragments more ≡ dump_frags dump.now) }
    ensures spare { length frags.new.free.items + length (dump_frags dump.now) ≡ length frags.old.free.items }
    ensures cost { steps.new ≤ steps.old + 4 * length (dump_frags dump.now) }
{
    let volumes = dump.volumes.as_slice();
    for volume in 0..volumes.len() {
        let fields = volumes[volume].fields();
        link_volume(
            frags,
            id,
            volume as u32,
            fields.name.bytes(),
            fields.frags.len() as u32,
            steps,
        );
    }
}

/// How many fragments a record has, which is the room for fragments that `Links::insert` asks for.
pub fn frag_count(dump: &DumpRecord) -> usize
    ensures { result ≡ length (dump_frags dump.now) }
{
    let volumes = dump.fields().volumes.as_slice();
    let mut count = 0;
    for volume in 0..volumes.len() {
        count += volumes[volume].fields().frags.len();
    }
    count
}

/// Takes the first fragment of a record out.
fn unlink_first<L: Ledger>(
    frags: &mut Frags,
    id: u32,
    dump: &DumpRecordFields,
    place: usize,
    steps: &mut Steps<L>,
)
    requires id_is { id ≡ dump.now.id }
    requires files { (ps : List Placed) × Files frags.old ps × AreOfDump dump.now ps }
    requires first { first_place (chain_in frags.old.keys 1 (to_be_bytes w32 id)) None ≡ Some place }
    ensures files { (ps : List Placed) → Files frags.old ps → Files frags.new (without_frag place ps) }
    ensures own { (ps : List Placed) → Files frags.old ps → IsOwn place id ps }
    ensures spare { length frags.new.free.items ≡ length frags.old.free.items + 1 }
    ensures places { length frags.new.marks.items ≡ length frags.old.marks.items }
    ensures cost { steps.new ≤ steps.old + 4 }
{
    let volumes = dump.volumes.as_slice();
    if let Some(mark) = frags.mark(place) {
        let volume = mark.volume as usize;
        let fields = volumes[volume].fields();
        frags.unlink(place, id, fields.name.bytes(), steps);
    }
}

/// Takes all fragments of a record out.
fn unlink_dump<L: Ledger>(frags: &mut Frags, dump: &DumpRecordFields, steps: &mut Steps<L>)
    requires files { (ps : List Placed) × Files frags.old ps × (fragments (with_dump dump.now.id ps) ≡ dump_frags dump.now) }
    ensures files { (ps : List Placed) → Files frags.old ps → fragments (with_dump dump.now.id ps) ≡ dump_frags dump.now → Files frags.new (without_dump dump.now.id ps) }
    ensures spare { length frags.new.free.items ≡ length frags.old.free.items + length (dump_frags dump.now) }
    ensures cost { steps.new ≤ steps.old + 4 * length (dump_frags dump.now) }
{
    let key = dump.id.to_be_bytes();
    while let Some(place) = frags.first_of_dump(key.as_slice()) {
        unlink_first(frags, dump.id, dump, place, steps);
    }
}

/// Takes the fragments of a record out that was taken out itself, where there is one.
pub(crate) fn unlink_taken<L: Ledger>(
    frags: &mut Frags,
    taken: &Option<DumpRecord>,
    steps: &mut Steps<L>,
)
    requires files { (ps : List Placed) × Files frags.old ps × ((dump : DumpRecordFields) → taken.now ≡ Some dump → fragments (with_dump dump.id ps) ≡ dump_frags dump) }
    ensures files { (ps : List Placed) (dump : DumpRecordFields) → Files frags.old ps → taken.now ≡ Some dump → fragments (with_dump dump.id ps) ≡ dump_frags dump → Files frags.new (without_dump dump.id ps) }
    ensures none { taken.now ≡ None → frags.new ≡ frags.old }
    ensures spare { length frags.new.free.items ≡ length frags.old.free.items + count_frags taken.now }
    ensures cost { steps.new ≤ steps.old + 4 * count_frags taken.now }
{
    if let Some(record) = taken {
        unlink_dump(frags, record.fields(), steps);
    }
}
