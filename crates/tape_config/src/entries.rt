//! The entries of a configuration: its device lines and its lines on name checking, in order.

ghost use Rattle.std.specs.Prelude.{◌≡◌};
ghost use Rattle.std.specs.List.{list_any};
ghost use Rattle.tape_config.specs.Configs.{has_port, has_slot, device_if, device_at, check_after, checks_names, next_device, next_entry};
ghost use Rattle.tape_config.specs.Adds.{Adds};

use crate::fault::ConfigFault;
use crate::line::{DeviceLine, Entry, Line};
use bk_text::List;

fn is_of_port(entry: Entry, offset: u16) -> bool
    ensures { result ≡ has_port offset entry }
{
    match entry {
        Entry::Device(device) => device.offset == offset,
        Entry::NameCheck { .. } => false,
    }
}

fn is_of_slots(entry: Entry, first: u32, last: u32) -> bool
    ensures { result ≡ has_slot first last entry }
{
    match entry {
        Entry::Device(device) => device.first <= last && first <= device.last,
        Entry::NameCheck { .. } => false,
    }
}

fn any_of_port(entries: &[Entry], offset: u16) -> bool
    ensures { result ≡ list_any (has_port offset) entries.now }
{
    for entry in entries {
        if is_of_port(*entry, offset) {
            return true;
        }
    }
    false
}

fn any_of_slots(entries: &[Entry], first: u32, last: u32) -> bool
    ensures { result ≡ list_any (has_slot first last) entries.now }
{
    for entry in entries {
        if is_of_slots(*entry, first, last) {
            return true;
        }
    }
    false
}

fn add_device(entries: &mut List<Entry>, number: u32, device: DeviceLine) -> Result<(), ConfigFault>
    ensures { Adds (next_device number entries.old device) result entries.new }
{
    if any_of_port(entries.as_slice(), device.offset) {
        return Err(ConfigFault::PortTwice { line: number });
    }
    if any_of_slots(entries.as_slice(), device.first, device.last) {
        return Err(ConfigFault::SlotTwice { line: number });
    }
    entries.push(Entry::Device(device))?;
    Ok(())
}

/// Puts what a line says behind the entries before it.
pub fn add_entry(
    entries: &mut List<Entry>,
    number: u32,
    line: Option<Line>,
) -> Result<(), ConfigFault>
    ensures { Adds (next_entry number entries.old line) result entries.new }
{
    match line {
        None => Err(ConfigFault::BadLine { line: number }),
        Some(Line::Nothing) => Ok(()),
        Some(Line::Says(Entry::Device(device))) => add_device(entries, number, device),
        Some(Line::Says(Entry::NameCheck { offset, on })) => {
            entries.push(Entry::NameCheck { offset, on })?;
            Ok(())
        }
    }
}

fn device_of(entry: Entry, offset: u16) -> Option<DeviceLine>
    ensures { result ≡ device_if offset entry }
{
    match entry {
        Entry::Device(device) if device.offset == offset => Some(device),
        _ => None,
    }
}

/// The device line of a port.
pub fn find_device(entries: &[Entry], offset: u16) -> Option<DeviceLine>
    ensures { result ≡ device_at offset entries.now }
{
    for entry in entries {
        if let Some(device) = device_of(*entry, offset) {
            return Some(device);
        }
    }
    None
}

fn check_behind(entry: Entry, offset: u16, on: bool) -> bool
    ensures { result ≡ check_after offset on entry }
{
    match entry {
        Entry::NameCheck {
            offset: port,
            on: said,
        } if port == offset => said,
        _ => on,
    }
}

/// Whether tape names are checked at a port.
pub fn checks_at(entries: &[Entry], offset: u16) -> bool
    ensures { result ≡ checks_names offset entries.now }
{
    let mut on = true;
    for entry in entries {
        on = check_behind(*entry, offset, on);
    }
    on
}
