//! What is there among hosts and dumps, and whether a dump's record may be listed.

ghost use Rattle.std.specs.Prelude.{◌≡◌};
ghost use Rattle.std.specs.List.{list_all};
ghost use Rattle.budb_fold.specs.Database.{is_port, has_port, is_dump, has_dump, is_whole, fits_record};

use crate::database::HostPort;
use budb_changes::{DumpRecord, DumpRecordFields, VolRecord};

/// Whether a tape host stands at this port offset.
pub fn is_at_port(host: &HostPort, port: u16) -> bool
    ensures { result ≡ is_port port host.now }
{
    host.port == port
}

/// Whether some tape host stands at this port offset.
pub fn any_at_port(hosts: &[HostPort], port: u16) -> bool
    ensures { result ≡ has_port hosts.now port }
{
    for host in hosts {
        if is_at_port(host, port) {
            return true;
        }
    }
    false
}

/// Whether a dump has this id.
pub fn is_of_id(dump: &DumpRecord, id: u32) -> bool
    ensures { result ≡ is_dump id dump.now }
{
    dump.fields().id == id
}

/// Whether some dump has this id.
fn any_of_id(listed: &[DumpRecord], id: u32) -> bool
    ensures { result ≡ has_dump listed.now id }
{
    for dump in listed {
        if is_of_id(dump, id) {
            return true;
        }
    }
    false
}

/// Whether a volume was dumped whole.
fn is_full(volume: &VolRecord) -> bool
    ensures { result ≡ is_whole volume.now }
{
    volume.fields().from == 0
}

/// Whether all volumes were dumped whole.
fn are_full(volumes: &[VolRecord]) -> bool
    ensures { result ≡ list_all is_whole volumes.now }
{
    for volume in volumes {
        if !is_full(volume) {
            return false;
        }
    }
    true
}

/// Whether a record may be listed behind these: its id isn't 0 and isn't listed, its parent is below it, and without a
/// parent it has whole volumes alone.
pub fn may_be_listed(dump: &DumpRecordFields, listed: &[DumpRecord]) -> bool
    ensures { result ≡ fits_record dump.now listed.now }
{
    dump.id != 0
        && !any_of_id(listed, dump.id)
        && dump.parent < dump.id
        && (dump.parent != 0 || are_full(dump.volumes.as_slice()))
}
