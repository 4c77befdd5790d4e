//! What a program opens in the current folder.

use crate::adapter::DirCell;
use host_edge::{DirMedia, Doors, EdgeFault, FolderLock, lock_folder, read_config};
use std::fs::File;
use std::io::Stdout;

/// The folders `media`, which is locked, and `cell`, and the file `tapeconfig`, which may be absent, in the current folder. The
/// media tell to standard output.
#[derive(Drop)]
pub struct FolderDoors<'a> {
    rt: &'a HostRuntime,
}

impl<'a> FolderDoors<'a> {
    pub fn new(rt: &'a HostRuntime) -> Self {
        FolderDoors { rt }
    }
}

impl Doors for FolderDoors<'_> {
    type Lock = FolderLock<File>;

    type Media = DirMedia<HostRuntime, File, Stdout>;

    type Cell = DirCell<HostRuntime>;

    ghost lock_answers = { λ doors answer. Unit {0} };

    ghost media_answers = { λ doors answer. Unit {0} };

    ghost cell_answers = { λ doors answer. Unit {0} };

    ghost config_answers = { λ doors answer. Unit {0} };

    fn lock(&self) -> Result<FolderLock<File>, EdgeFault> {
        lock_folder(self.rt, "media")
    }

    fn media(&self) -> Result<DirMedia<HostRuntime, File, Stdout>, EdgeFault> {
        DirMedia::open(self.rt, "media", self.rt.stdout())
    }

    fn cell(&self) -> Result<DirCell<HostRuntime>, EdgeFault> {
        DirCell::open(self.rt, "cell")
    }

    fn config(&self) -> Result<Vec<u8>, EdgeFault> {
        read_config(self.rt, "tapeconfig")
    }
}
