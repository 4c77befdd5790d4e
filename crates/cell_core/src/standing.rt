//! What stands under a name, as far as a list's rules ask.

ghost use Rattle.std.specs.Prelude.{◌≡◌};
ghost use Rattle.cell_core.specs.Listings.{has_kind, is_not_read_write, id_of};

/// What stands under a name, as far as a list's rules ask.
#[derive(Clone, Copy, Debug, PartialEq, Eq)]
pub enum Standing {
    /// A volume.
    Volume {
        id: u32,
        /// 0 read/write, 1 read-only, 2 backup.
        kind: u8,
    },
    /// Something that isn't one; `at` is the place of the first wrong byte.
    Bad {
        at: u64,
    },
}

impl Standing {
    /// The id of a volume; 0 for a bad image.
    pub fn id(self) -> u32
        ensures { result ≡ id_of self }
    {
        match self {
            Standing::Volume { id, .. } => id,
            Standing::Bad { .. } => 0,
        }
    }

    /// Whether it is a volume of this type.
    pub fn has_kind(self, wanted: u8) -> bool
        ensures { result ≡ has_kind wanted self }
    {
        match self {
            Standing::Volume { kind, .. } => kind == wanted,
            Standing::Bad { .. } => false,
        }
    }

    /// Whether it is a volume that isn't read/write.
    pub fn is_not_read_write(self) -> bool
        ensures { result ≡ is_not_read_write self }
    {
        match self {
            Standing::Volume { kind, .. } => kind != 0,
            Standing::Bad { .. } => false,
        }
    }
}
