//! A file that may be absent.

ghost use Rattle.std.specs.Prelude.{◌≢◌, Err};
ghost use Rattle.host_edge.specs.declared.fault.EdgeFault.TheVariants.{TooMany};

use crate::fault::{EdgeFault, fault_at};
use std::fs;
use std::io::ErrorKind;
use std::rt::Files;

/// The bytes of a file; none where it is absent.
pub fn read_config<R: Files + AllocGlobal>(rt: &R, path: &str) -> Result<Vec<u8>, EdgeFault>
    ensures { result ≢ Err TooMany }
{
    match fs::read(rt, path) {
        Ok(bytes) => Ok(bytes),
        Err(error) if error.kind() == ErrorKind::NotFound => Ok(Vec::new(rt.alloc())),
        Err(cause) => Err(fault_at(rt.alloc(), path, cause)),
    }
}
