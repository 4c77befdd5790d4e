//! The lines of the tape hosts.

ghost use Rattle.std.specs.Prelude.{◌≡◌, ◌++◌, OnOk, IfOk};
ghost use Rattle.backup_replies.specs.Hosts.{host_line, hosts_lines};

use crate::putting::{put_number, put_ok, put_word};
use bk_text::{Bytes, Out};
use budb_fold::HostPort;
use std::alloc::{AllocError, Global};

fn put_host(line: &mut Out, host: &HostPort) -> Result<(), AllocError>
    ensures { OnOk result (line.new ≡ line.old ++ host_line host.now) }
{
    line.piece(b"host")?;
    put_word(line, host.host.bytes())?;
    line.piece(b" port")?;
    put_number(line, host.port as u64)?;
    line.byte(b'\n')?;
    Ok(())
}

/// The lines of all tape hosts.
pub fn hosts_lines(alloc: Global, hosts: &[HostPort]) -> Result<Bytes, AllocError>
    ensures { IfOk result (λ lines. lines ≡ hosts_lines hosts.now) }
{
    let mut lines = Out::new(alloc);
    for host in hosts {
        put_host(&mut lines, host)?;
    }
    put_ok(&mut lines)?;
    Ok(lines.into_bytes())
}
