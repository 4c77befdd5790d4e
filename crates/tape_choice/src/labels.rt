//! Which labels pass, and what taking a tape forgets.

ghost use Rattle.std.specs.Prelude.{◌≡◌, ◌==◌};
ghost use Rattle.budb_fold.specs.Database.{is_initial};
ghost use Rattle.tape_choice.specs.Choice.{is_unexpired, has_unexpired, fits_name, is_own, label_passes, is_used, forgotten};
ghost use Rattle.std.specs.List.{list_any};

use crate::wanting::Wanting;
use budb_changes::DumpRecord;
use tape_frames::Label;

/// When a dump expires that never does.
const NEVER: u32 = 4_294_967_295;

/// Whether a dump is unexpired at a time, in seconds since 1970.
fn is_unexpired(dump: &DumpRecord, time: u32) -> bool
    ensures { result ≡ is_unexpired time dump.now }
{
    let expires = dump.fields().expires;
    expires == NEVER || time < expires
}

/// Whether some listed dump of a dump set is unexpired at a time.
fn has_unexpired(listed: &[DumpRecord], time: u32, initial: u32) -> bool
    ensures { result ≡ has_unexpired listed.now time initial }
{
    for dump in listed {
        if dump.fields().initial == initial && is_unexpired(dump, time) {
            return true;
        }
    }
    false
}

/// Whether some listed dump is of a dump set.
fn is_any_listed(listed: &[DumpRecord], initial: u32) -> bool
    ensures { result ≡ list_any (is_initial initial) listed.now }
{
    for dump in listed {
        if dump.fields().initial == initial {
            return true;
        }
    }
    false
}

/// Whether a number is among these.
fn is_one_of(number: u32, numbers: &[u32]) -> bool
    ensures { result ≡ list_any (λ n. n == number) numbers.now }
{
    numbers.iter().any(|n| *n == number)
}

/// Whether a label's AFS name is none, the wanted one, or not checked.
fn fits_name(wanting: &Wanting, afs: &[u8]) -> bool
    ensures { result ≡ fits_name wanting.now afs.now }
{
    !wanting.checked || afs.is_empty() || afs == wanting.name.bytes()
}

/// Whether a dump set is the dump's own, or one of its parents'.
fn is_own(wanting: &Wanting, initial: u32) -> bool
    ensures { result ≡ is_own wanting.now initial }
{
    wanting.initial == initial || is_one_of(initial, wanting.parents.as_slice())
}

/// Whether a tape with this label may be taken.
pub(crate) fn label_passes(listed: &[DumpRecord], wanting: &Wanting, label: &Label) -> bool
    ensures { result ≡ label_passes listed.now wanting.now label.now }
{
    let fields = label.fields();
    fits_name(wanting, fields.afs.as_slice())
        && !has_unexpired(listed, wanting.time, fields.initial)
        && !is_own(wanting, fields.initial)
}

/// Whether this dump has taken a slot already.
pub(crate) fn is_used(wanting: &Wanting, slot: u32) -> bool
    ensures { result ≡ is_used wanting.now slot }
{
    is_one_of(slot, wanting.used.as_slice())
}

/// The dump set that is forgotten when a tape with this label is taken, by its initial id.
pub(crate) fn forgotten(listed: &[DumpRecord], label: &Option<Label>) -> Option<u32>
    ensures { result ≡ forgotten listed.now label.now }
{
    match label {
        None => None,
        Some(label) => {
            let initial = label.fields().initial;
            if is_any_listed(listed, initial) {
                Some(initial)
            } else {
                None
            }
        }
    }
}
