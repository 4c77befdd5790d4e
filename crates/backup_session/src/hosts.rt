//! What commands on the tape hosts decide.

ghost use Rattle.std.specs.Prelude.{◌≡◌, [], ◌∷◌, IfOk, if◌then◌else◌};
ghost use Rattle.budb_fold.specs.Database.{has_port};
ghost use Rattle.budb_changes.specs.declared.change.Change.TheVariants as changes;
ghost use Rattle.backup_replies.specs.declared.refusals.Refusal.TheVariants as refusals;
ghost use Rattle.backup_replies.specs.Texts.{refused_number, ok_line};
ghost use Rattle.backup_session.specs.Verdicts.{is_host_port, has_host_port};
ghost use Rattle.backup_replies.specs.Hosts.{hosts_lines};

use crate::verdict::{Verdict, makes, refuses_number};
use backup_replies::{Refusal, hosts_lines};
use bk_text::Host;
use budb_journal::{Change, HostPort};
use std::alloc::{AllocError, Global};

/// Whether some tape host stands at a port.
pub(crate) fn any_at_port(hosts: &[HostPort], port: u16) -> bool
    ensures { result ≡ has_port hosts.now port }
{
    for host in hosts {
        if host.port == port {
            return true;
        }
    }
    false
}

/// Whether this is the tape host at a port.
fn is_host_port(there: &HostPort, host: &Host, port: u16) -> bool
    ensures { result ≡ is_host_port host.now port there.now }
{
    there.port == port && there.host.bytes() == host.bytes()
}

/// Whether this tape host stands at a port.
fn any_host_port(hosts: &[HostPort], host: &Host, port: u16) -> bool
    ensures { result ≡ has_host_port hosts.now host.now port }
{
    for there in hosts {
        if is_host_port(there, host, port) {
            return true;
        }
    }
    false
}

/// `addhost`.
pub(crate) fn add_host(
    alloc: Global,
    hosts: &[HostPort],
    host: &Host,
    port: u16,
) -> Result<Verdict, AllocError>
    ensures { IfOk result (λ v. v ≡ (if has_port hosts.now port then Verdict.Refuses (refused_number refusals.PortTaken port) else Verdict.Makes (changes.AddHost host.now port ∷ []) ok_line)) }
{
    if any_at_port(hosts, port) {
        return refuses_number(alloc, Refusal::PortTaken, port as u64);
    }
    let host = host.clone()?;
    makes(alloc, Change::AddHost { host, port })
}

/// `delhost`.
pub(crate) fn drop_host(
    alloc: Global,
    hosts: &[HostPort],
    host: &Host,
    port: u16,
) -> Result<Verdict, AllocError>
    ensures { IfOk result (λ v. v ≡ (if has_host_port hosts.now host.now port then Verdict.Makes (changes.DelHost port ∷ []) ok_line else Verdict.Refuses (refused_number refusals.NoSuchPort port))) }
{
    if !any_host_port(hosts, host, port) {
        return refuses_number(alloc, Refusal::NoSuchPort, port as u64);
    }
    makes(alloc, Change::DelHost { port })
}

/// `listhosts`.
pub(crate) fn show_hosts(alloc: Global, hosts: &[HostPort]) -> Result<Verdict, AllocError>
    ensures { IfOk result (λ v. v ≡ Verdict.Shows (hosts_lines hosts.now)) }
{
    Ok(Verdict::Shows(hosts_lines(alloc, hosts)?))
}
