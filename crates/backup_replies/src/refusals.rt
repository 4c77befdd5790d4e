//! The refusals that the program tells. Numbers and names are this project's own.

ghost use Rattle.std.specs.Prelude.{◌≡◌};
ghost use Rattle.backup_replies.specs.Refusals.{refusal_text};

/// A refusal.
#[derive(Clone, Copy, Debug, PartialEq, Eq)]
pub enum Refusal {
    /// The first words of a line name no command.
    NoSuchCommand,
    /// A word is an unknown or repeated option, or a value where none is taken.
    BadOption,
    /// A required option isn't there.
    MissingOption,
    /// An option has too few values, or one that isn't of its form.
    BadValue,
    /// A line has more than 4,096 bytes.
    LineTooLong,
    /// A byte of a line is neither a tab nor 32 to 126.
    NotAscii,
    /// There is a volume set of this name.
    SetExists,
    /// There is no volume set of this name.
    NoSuchSet,
    /// The volume set has no entry of this number.
    NoSuchEntry,
    /// The pattern is none.
    BadPattern,
    /// There is a dump level of this path, or the line names it twice.
    LevelExists,
    /// There is no dump level of this path.
    NoSuchLevel,
    /// The level above is neither there nor earlier in the line.
    NoParentLevel,
    /// A word of a date or an expiration doesn't fit.
    BadDate,
    /// A date is before 1970.
    DateOutOfRange,
    /// The port has a tape host.
    PortTaken,
    /// The port has no tape host, or the configuration has no line of it.
    NoSuchPort,
    /// The group holds a dump to this port already.
    PortBusy,
    /// The command can't stand in a group.
    InGroup,
    /// No group is open.
    NoGroup,
    /// The group holds as many dumps as it may.
    GroupFull,
    /// No tape may be taken under the wanted name.
    NoTape,
    /// The volume set has no dump behind which another one might be put.
    NothingToAppend,
    /// No tape is in the slot.
    SlotEmpty,
    /// The tape's first record is no label.
    NoLabel,
    /// The tapes of the port are too small for any dump.
    CapacityTooSmall,
    /// The saved database has no room on a tape of the port.
    SaveTooBig,
    /// The database has a volume set, a dump level or a listed dump.
    DatabaseInUse,
    /// No tape of the port has the label of a saved database.
    NoSave,
    /// A record of the tape doesn't go on as a saved database.
    BadSave,
    /// The volume set has no volumes.
    NoVolumes,
    /// No id is left for a dump.
    IdsSpent,
    /// The volume was not dumped.
    NoDump,
    /// A dump that a restore needs isn't listed.
    MissingDump,
    /// A tape that a restore needs isn't here.
    MissingTape,
    /// The dump isn't listed.
    NoSuchDump,
    /// The dump was appended to another one, and goes only with it.
    AppendedDump,
    /// A dump keeps what the dump below it lacks.
    BaseLacks,
    /// A tape doesn't have what the database says.
    BadOnTape,
    /// A tape is no text of frames from a record on.
    BadTape,
    /// A tape has a part of a dump that isn't whole.
    PartOfDump,
    /// The dump is listed already.
    DumpKnown,
    /// The dump's parent can't be one.
    WrongParent,
    /// There is no volume of this name that the command is for.
    NoVolume,
    /// There is a volume of this name.
    VolumeExists,
    /// The volume has no vnode of this number.
    NoVnode,
    /// A limit of volumes would be passed.
    TooLarge,
    /// The journal would have more bytes than it may.
    LogFull,
    /// Bytes are no dump stream that this project reads.
    BadImage,
    /// Bytes end before the dump stream that they begin.
    CutStream,
}

impl Refusal {
    /// Its number and its name.
    pub fn text(self) -> &'static [u8]
        ensures { result.now ≡ refusal_text self }
    {
        match self {
            Refusal::NoSuchCommand => b"01 NoSuchCommand",
            Refusal::BadOption => b"02 BadOption",
            Refusal::MissingOption => b"03 MissingOption",
            Refusal::BadValue => b"04 BadValue",
            Refusal::LineTooLong => b"05 LineTooLong",
            Refusal::NotAscii => b"06 NotAscii",
            Refusal::SetExists => b"10 SetExists",
            Refusal::NoSuchSet => b"11 NoSuchSet",
            Refusal::NoSuchEntry => b"12 NoSuchEntry",
            Refusal::BadPattern => b"13 BadPattern",
            Refusal::LevelExists => b"20 LevelExists",
            Refusal::NoSuchLevel => b"21 NoSuchLevel",
            Refusal::NoParentLevel => b"22 NoParentLevel",
            Refusal::BadDate => b"23 BadDate",
            Refusal::DateOutOfRange => b"24 DateOutOfRange",
            Refusal::PortTaken => b"30 PortTaken",
            Refusal::NoSuchPort => b"31 NoSuchPort",
            Refusal::PortBusy => b"32 PortBusy",
            Refusal::InGroup => b"33 InGroup",
            Refusal::NoGroup => b"34 NoGroup",
            Refusal::GroupFull => b"35 GroupFull",
            Refusal::NoTape => b"40 NoTape",
            Refusal::NothingToAppend => b"41 NothingToAppend",
            Refusal::SlotEmpty => b"42 SlotEmpty",
            Refusal::NoLabel => b"43 NoLabel",
            Refusal::CapacityTooSmall => b"44 CapacityTooSmall",
            Refusal::SaveTooBig => b"45 SaveTooBig",
            Refusal::DatabaseInUse => b"46 DatabaseInUse",
            Refusal::NoSave => b"47 NoSave",
            Refusal::BadSave => b"48 BadSave",
            Refusal::NoVolumes => b"50 NoVolumes",
            Refusal::IdsSpent => b"52 IdsSpent",
            Refusal::NoDump => b"60 NoDump",
            Refusal::MissingDump => b"61 MissingDump",
            Refusal::MissingTape => b"62 MissingTape",
            Refusal::NoSuchDump => b"63 NoSuchDump",
            Refusal::AppendedDump => b"64 AppendedDump",
            Refusal::BaseLacks => b"65 BaseLacks",
            Refusal::BadOnTape => b"66 BadOnTape",
            Refusal::BadTape => b"70 BadTape",
            Refusal::PartOfDump => b"71 PartOfDump",
            Refusal::DumpKnown => b"72 DumpKnown",
            Refusal::WrongParent => b"73 WrongParent",
            Refusal::NoVolume => b"80 NoVolume",
            Refusal::VolumeExists => b"81 VolumeExists",
            Refusal::NoVnode => b"82 NoVnode",
            Refusal::TooLarge => b"83 TooLarge",
            Refusal::LogFull => b"84 LogFull",
            Refusal::BadImage => b"85 BadImage",
            Refusal::CutStream => b"86 CutStream",
        }
    }
}
