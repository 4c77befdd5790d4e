//! The configuration as a whole.

ghost use Rattle.std.specs.Prelude.{◌≡◌, ◌≢◌, ◌∷◌, ◌<◌, ◌⊎◌, ℕ, [], length, IfSome};
ghost use Rattle.std.specs.Str.Lines.{lines, strip_carriage_return};
ghost use Rattle.bk_text.specs.Alphabets.{IsHost};
ghost use Rattle.bk_text.specs.Tests.{host_test};
ghost use Rattle.tape_config.specs.Configs.{port_in, next_cell, next_line, name_or_nothing, no_settings, with_cell, ParsesConfig};
ghost use Rattle.tape_config.specs.Lines.{cell_of, line_says};
ghost use Rattle.tape_config.specs.Adds.{Adds};
ghost use Rattle.tape_config.specs.Ports.{AreApart};
ghost use Rattle.tape_config.specs.declared.port.PortFields.{PortFields as AnyPort};

use crate::entries::{add_entry, checks_at, find_device};
use crate::fault::ConfigFault;
use crate::line::{Entry, cell_in, read_line};
use crate::port::{Port, PortFields};
use bk_text::{Host, List, place_of};
use std::alloc::Global;
use std::marker::Model;

fn without_return(line: &[u8]) -> &[u8]
    ensures { result.now ≡ strip_carriage_return line.now }
{
    if !line.is_empty() && line[line.len() - 1] == b'\r' {
        &line[..line.len() - 1]
    } else {
        line
    }
}

/// The first line, without its end, and what stands behind it.
fn split_line(bytes: &[u8]) -> (&[u8], &[u8])
    requires { 0 < length bytes.now }
    ensures is { lines bytes.now ≡ result.0.now ∷ lines result.1.now }
    ensures shorter { length result.1.now < length bytes.now }
{
    let end = place_of(b'\n', bytes);
    if end == bytes.len() {
        return (bytes, &[]);
    }
    (without_return(&bytes[..end]), &bytes[end + 1..])
}

/// A configuration: its device lines and its lines on name checking, in order, and the name of the cell.
#[derive(Debug, Drop)]
pub struct Config {
    entries: List<Entry>,
    cell: Option<Host>,
}

impl Model for Config {
    ghost use Rattle.tape_config.specs.Configs.{Settings, IsConfig};

    ghost Value = { Settings };

    ghost view = { λ a. record { entries = a.entries; cell = a.cell } };

    ghost invariant = { λ a. IsConfig (record { entries = a.entries; cell = a.cell }) };
}

/// What the lines so far said.
#[derive(Debug, Drop)]
struct Draft {
    entries: List<Entry>,
    cell: Option<Host>,
}

impl Model for Draft {
    ghost use Rattle.tape_config.specs.Configs.{Settings};

    ghost Value = { Settings };

    ghost view = { λ a. record { entries = a.entries; cell = a.cell } };
}

impl Draft {
    fn new(alloc: Global) -> Self
        ensures { result ≡ no_settings }
    {
        Draft {
            entries: List::new(alloc),
            cell: None,
        }
    }

    /// Keeps the name of the cell where no line before said it.
    fn add_cell(&mut self, alloc: Global, number: u32, name: &[u8]) -> Result<(), ConfigFault>
        requires { IsHost name.now }
        ensures { Adds (with_cell self.old (next_cell number self.old.cell name.now)) result self.new }
    {
        if self.cell.is_some() {
            return Err(ConfigFault::BadLine { line: number });
        }
        self.cell = Some(Host::from_bytes(alloc, name)?);
        Ok(())
    }

    /// Puts a line behind those before it.
    fn add(&mut self, alloc: Global, number: u32, line: &[u8]) -> Result<(), ConfigFault>
        ensures { Adds (next_line number self.old (cell_of line.now) (line_says line.now)) result self.new }
    {
        match cell_in(line) {
            Some(name) => self.add_cell(alloc, number, name),
            None => add_entry(&mut self.entries, number, read_line(line)),
        }
    }
}

impl Config {
    /// Reads a configuration.
    pub fn parse(alloc: Global, bytes: &[u8]) -> Result<Config, ConfigFault>
        ensures { ParsesConfig bytes.now result }
    {
        let mut draft = Draft::new(alloc);
        let mut rest = bytes;
        let mut number: u32 = 1;
        while !rest.is_empty() {
            let (line, behind) = split_line(rest);
            draft.add(alloc, number, line)?;
            number = number.saturating_add(1);
            rest = behind;
        }
        let Draft { entries, cell } = draft;
        Ok(Config { entries, cell })
    }

    /// The name of the cell; nothing where no line says it. It takes no memory.
    pub fn cell(&self) -> &[u8]
        ensures is { result.now ≡ name_or_nothing self.now.cell }
        ensures form { IsHost result.now ⊎ (result.now ≡ []) }
    {
        match &self.cell {
            Some(name) => name.bytes(),
            None => &[],
        }
    }

    /// The port of this offset; `None` where no device line has it. Ports of two offsets have no slot in common. It
    /// takes no memory.
    pub fn port(&self, offset: u16) -> Option<Port>
        ensures is { result ≡ port_in offset self.now.entries }
        ensures apart { (other : ℕ) (port : AnyPort) → offset ≢ other → port_in other self.now.entries ≡ Some port → IfSome result (λ found. AreApart found port) }
    {
        let entries = self.entries.as_slice();
        let device = find_device(entries, offset)?;
        Some(Port::new(PortFields {
            offset,
            capacity: device.capacity,
            filemark: device.filemark,
            first: device.first,
            last: device.last,
            name_check: checks_at(entries, offset),
        }))
    }
}
