//! What holds of all that is written, and of all that a stream says.

ghost use Rattle.std.specs.Prelude.{◌≡◌, ◌<◌, ℕ, List, ◌++◌, length, Ok, All};
ghost use Rattle.vnode_model.specs.declared.increments.IncrementFields.{IncrementFields};
ghost use Rattle.vnode_model.specs.Increments.{selected};
ghost use Rattle.dump_stream.specs.Stream.{Spells};
ghost use Rattle.dump_stream.specs.Reads.{Answers};
ghost use Rattle.dump_stream.specs.Written.{written};
ghost use Rattle.dump_stream.specs.Forms.{IsBytes};
ghost use Rattle.dump_stream.specs.Allowed.{IsShort, IsNumber, AllowedIds, AllowedCounts, AllowedTimes, AllowedUses, AllowedHeader, AllowedNumbers, AllowedVnode, AllowedEntry, Allowed};

use vnode_model::{Entry, HeaderFields, Increment, Vnode, VolHeader, Volume};

/// What is written of an increment that its type allows is a stream, and the stream says that increment.
pub fn written_is_a_stream()
    ensures { (i : IncrementFields) → Allowed i → Spells (written i) i }
{}

/// What a stream says is an increment that its type allows.
pub fn said_is_allowed()
    ensures { (bytes : List ℕ) (i : IncrementFields) → Spells bytes i → Allowed i }
{}

/// What was written is read again, whatever follows it.
pub fn written_is_read()
    ensures { (i : IncrementFields) (more : List ℕ) → Allowed i → Answers (written i ++ more) (Ok (i, length (written i))) }
{}

/// Bytes are below 256, whichever they are.
fn are_bytes(bytes: &[u8])
    ensures { IsBytes bytes.now }
{
    let _bytes = bytes;
}

/// Numbers of four bytes are below 2^32, whichever they are.
fn are_numbers(numbers: &[u32])
    ensures { All IsNumber numbers.now }
{
    let _numbers = numbers;
}

fn byte_is_allowed(number: u8)
    ensures { number < 256 }
{}

fn short_is_allowed(number: u16)
    ensures { IsShort number }
{}

fn number_is_allowed(number: u32)
    ensures { IsNumber number }
{}

fn ids_are_allowed(h: &HeaderFields)
    ensures { AllowedIds h.now }
{
    number_is_allowed(h.id);
    number_is_allowed(h.stamp);
    byte_is_allowed(h.in_service);
    byte_is_allowed(h.blessed);
    number_is_allowed(h.uniq);
    number_is_allowed(h.parent);
    number_is_allowed(h.clone_id);
}

fn counts_are_allowed(h: &HeaderFields)
    ensures { AllowedCounts h.now }
{
    number_is_allowed(h.max_quota);
    number_is_allowed(h.min_quota);
    number_is_allowed(h.disk_used);
    number_is_allowed(h.file_count);
    number_is_allowed(h.account);
    number_is_allowed(h.owner);
}

fn times_are_allowed(h: &HeaderFields)
    ensures { AllowedTimes h.now }
{
    number_is_allowed(h.created);
    number_is_allowed(h.accessed);
    number_is_allowed(h.updated);
    number_is_allowed(h.expires);
    number_is_allowed(h.backed_up);
}

fn uses_are_allowed(h: &HeaderFields)
    ensures { AllowedUses h.now }
{
    are_numbers(&h.week);
    number_is_allowed(h.day_date);
    number_is_allowed(h.day_use);
    if let Some(updates) = h.updates {
        number_is_allowed(updates);
    }
}

fn header_is_allowed(header: &VolHeader)
    ensures { AllowedHeader header.now }
{
    let h = header.fields();
    ids_are_allowed(h);
    counts_are_allowed(h);
    times_are_allowed(h);
    uses_are_allowed(h);
    are_bytes(h.offline.as_slice());
    are_bytes(h.message.as_slice());
    let _name = h.name.bytes();
}

fn vnode_numbers_are_allowed(v: &Vnode)
    ensures { AllowedNumbers v.now }
{
    number_is_allowed(v.number);
    number_is_allowed(v.uniq);
    short_is_allowed(v.links);
    number_is_allowed(v.data_version);
    number_is_allowed(v.modified);
    number_is_allowed(v.author);
}

fn vnode_is_allowed(v: &Vnode)
    ensures { AllowedVnode v.now }
{
    vnode_numbers_are_allowed(v);
    number_is_allowed(v.owner);
    number_is_allowed(v.group);
    short_is_allowed(v.mode);
    number_is_allowed(v.parent);
    number_is_allowed(v.server_modified);
    are_bytes(&v.access);
    are_bytes(v.body.as_slice());
}

fn entry_is_allowed(entry: &Entry)
    ensures { AllowedEntry entry.now }
{
    match entry {
        Entry::Whole(vnode) => vnode_is_allowed(vnode),
        Entry::Kept { number, uniq } => {
            number_is_allowed(*number);
            number_is_allowed(*uniq);
        }
    }
}

fn entries_are_allowed(entries: &[Entry])
    ensures { All AllowedEntry entries.now }
{
    for entry in entries {
        entry_is_allowed(entry);
    }
}

fn vnodes_are_allowed(vnodes: &[Vnode])
    ensures { All AllowedVnode vnodes.now }
{
    for vnode in vnodes {
        vnode_is_allowed(vnode);
    }
}

/// Every increment of a volume is one that its type allows, so that no caller needs to make it by `select` to know so. It
/// is a law that takes the volume by reference.
pub fn volume_is_allowed(volume: &Volume, from: u32, to: u32)
    ensures { Allowed (selected volume.now from to) }
{
    number_is_allowed(from);
    number_is_allowed(to);
    header_is_allowed(volume.header());
    vnodes_are_allowed(volume.vnodes());
}

/// Every increment is one that its type allows. It is a law that takes the increment by reference: there is nothing to
/// find out.
pub fn increment_is_allowed(increment: &Increment)
    ensures { Allowed increment.now }
{
    let fields = increment.fields();
    number_is_allowed(fields.dump_id);
    number_is_allowed(fields.from);
    number_is_allowed(fields.to);
    let _name = fields.dump_name.bytes();
    header_is_allowed(&fields.header);
    entries_are_allowed(fields.entries.as_slice());
}
