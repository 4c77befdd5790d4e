//! A cell in memory that explains why a call was refused.

use bk_text::{Host, Name, Part};
use cell_core::{Cell, CellFault, CellMem, Taken};
use host_edge::Explains;
use std::io::{self, Write};
use vnode_model::{VolEntry, Volume};

/// A cell in memory. Asked why a call was refused it names a path, also where none was.
#[derive(Drop)]
pub struct NamedCell {
    pub cell: CellMem,
}

impl Cell for NamedCell {
    ghost use Rattle.std.specs.Prelude.{refl};
    ghost use Rattle.cell_core.specs.Mem.{cell_list, cell_size, cell_faults};

    ghost tells = { Unit {0} };

    ghost list = { λ s. cell_list s.cell };

    ghost size = { λ s. cell_size s.cell };

    ghost faults = { λ s. cell_faults s.cell };

    ghost is_cell = { λ s told. s.cell.is_cell };

    ghost sized = { λ s told. refl };

    ghost few = { λ s. s.cell.is_cell.few };

    fn count(&self) -> u32 {
        self.cell.count()
    }

    fn entry(&mut self, i: u32) -> Result<VolEntry, CellFault> {
        self.cell.entry(i)
    }

    fn take(&mut self, i: u32, now: u32) -> Result<Taken, CellFault> {
        self.cell.take(i, now)
    }

    fn put(&mut self, server: &Host, partition: &Part, volume: Volume) -> Result<(), CellFault> {
        self.cell.put(server, partition, volume)
    }

    fn create(
        &mut self,
        server: &Host,
        partition: &Part,
        name: &Name,
        now: u32,
    ) -> Result<u32, CellFault> {
        self.cell.create(server, partition, name, now)
    }

    fn write(&mut self, name: &Name, number: u32, body: &[u8], now: u32) -> Result<(), CellFault> {
        self.cell.write(name, number, body, now)
    }

    fn remove_vnode(&mut self, name: &Name, number: u32, now: u32) -> Result<(), CellFault> {
        self.cell.remove_vnode(name, number, now)
    }

    fn backup(&mut self, name: &Name, now: u32) -> Result<(), CellFault> {
        self.cell.backup(name, now)
    }

    fn remove(&mut self, name: &Name) -> Result<(), CellFault> {
        self.cell.remove(name)
    }

    fn listed_is_allowed(&self) {
        self.cell.listed_is_allowed();
    }
}

impl Explains for NamedCell {
    fn explain_fault<E: Write>(&self, errors: &mut E) -> io::Result<()> {
        writeln!(errors, "cell/fs1: permission denied")
    }
}
