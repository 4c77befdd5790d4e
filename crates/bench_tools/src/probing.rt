//! The folders of the service, opened as it opens them.

use crate::copying::copy_lines;
use crate::working::act;
use dir_cell::FolderDoors;
use host_edge::{Opened, StdSource, open_all};
use std::io::Eprint;

/// Opens the folders, and copies lines into the journal, or works on the cell where there are words. The answer is the exit status.
pub fn probe(rt: &HostRuntime, words: &[String]) -> u8 {
    let doors = FolderDoors::new(rt);
    let opened = match open_all(&doors) {
        Ok(opened) => opened,
        Err(unopened) => {
            let _ = eprintln!(rt; "{unopened}");
            return unopened.number();
        }
    };
    let Opened {
        media,
        mut cell,
        config: _,
        lock: _lock,
    } = opened;
    if words.is_empty() {
        copy_lines(rt.alloc(), media, &mut StdSource::new(rt.stdin()))
    } else {
        act(rt, rt.alloc(), &mut cell, words)
    }
}
