//! A port: a tape drive as a line of the configuration gives it.

ghost use Rattle.std.specs.Prelude.{◌≡◌};
ghost use Rattle.tape_config.specs.Ports.{IsWithinLimits};

use std::marker::Model;

/// A port's slots, and what its tapes hold.
#[derive(Clone, Copy, Debug, PartialEq, Eq)]
pub struct PortFields {
    /// The port offset, 0 to 58510.
    pub offset: u16,
    /// The capacity of a tape in bytes, above 0 and at most 4,000,000,000.
    pub capacity: u64,
    /// The size of a filemark in bytes, at most 4,000,000,000.
    pub filemark: u64,
    /// The first slot.
    pub first: u32,
    /// The last slot, at most 65,535 and not below the first.
    pub last: u32,
    /// Whether the names of its tapes are checked.
    pub name_check: bool,
}

/// A port within its limits.
#[derive(Debug, Drop)]
pub struct Port {
    fields: PortFields,
}

impl Model for Port {
    ghost use Rattle.tape_config.specs.declared.port.PortFields.{PortFields};
    ghost use Rattle.tape_config.specs.Ports.{IsWithinLimits};

    ghost Value = { PortFields };

    ghost view = { λ a. a.fields };

    ghost invariant = { λ a. IsWithinLimits a.fields };
}

impl Port {
    /// The port of these fields. It takes no memory.
    pub fn new(fields: PortFields) -> Self
        requires { IsWithinLimits fields }
        ensures { result ≡ fields }
    {
        Port { fields }
    }

    /// Its fields.
    pub fn fields(&self) -> PortFields
        ensures value { result ≡ self.now }
        ensures within { IsWithinLimits self.now }
    {
        self.fields
    }
}
