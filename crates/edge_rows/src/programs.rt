//! Runs of the whole program over fakes: how each ends, what it tells, and what it says of what was refused.

use crate::disk::Disk;
use crate::fakes::Output;
use crate::world::{Behind, DiskDoors, Input, Shared, Words};
use backup_program::program;
use bk_text::Bytes;
use media_core::ClockMem;
use std::alloc::Global;
use std::cell::{Cell, RefCell};
use std::io::ErrorKind;

/// A run of the program.
#[derive(Clone, Copy)]
struct Case {
    /// The words after the program's name.
    words: &'static [&'static [u8]],
    /// What the input gives, and what comes behind it.
    input: &'static [u8],
    behind: Behind,
    /// Whether the input is a terminal.
    is_terminal: bool,
    /// What `tapeconfig` and `media/journal` have.
    config: &'static [u8],
    journal: &'static [u8],
    /// The path whose opening is refused so, and the one whose reads and writes are.
    shut: &'static str,
    kind: ErrorKind,
    broken: &'static str,
    /// Whether the cell's first call is refused.
    cell_fails: bool,
    /// How many bytes the output takes, and whether it refuses the next one or takes nothing.
    room: usize,
    refuses: bool,
    /// How many bytes the errors take.
    errors_room: usize,
}

const USAGE: &[u8] = b"usage: afsbackup run | examine | rehearse N\n";

/// A volume with one directory, of which the server modify time alone is told.
const STREAM: [u8; 60] = [
    0x01, 0xb3, 0xa1, 0x13, 0x22, 0x00, 0x00, 0x00, 0x01, 0x76, 0x20, 0x00, 0x00, 0x03, 0x6e, 0x76,
    0x31, 0x00, 0x74, 0x00, 0x02, 0x00, 0x00, 0x00, 0x00, 0x65, 0x00, 0x00, 0x00, 0x02, 0x69, 0x20,
    0x00, 0x00, 0x03, 0x6e, 0x76, 0x31, 0x00, 0x03, 0x00, 0x00, 0x00, 0x01, 0x00, 0x00, 0x00, 0x01,
    0x74, 0x02, 0x73, 0x64, 0x00, 0x00, 0x00, 0x04, 0x3a, 0x21, 0x4b, 0x6e,
];

const STREAM_TOLD: &[u8] = b"volume v1 536870915 from 0 to 1694498816\ndir 1 1 0 1677721600\n";

/// A script of one host, and what is told of it.
const HOST: &[u8] = b"addhost -tapehost th -portoffset 0\nlisthosts\n";

const HOST_TOLD: &[u8] = b"ok\nhost th port 0\nok\n";

/// A script run in folders of which nothing is refused.
const RUN: Case = Case {
    words: &[b"run"],
    input: HOST,
    behind: Behind::End,
    is_terminal: false,
    config: b"slots:0-3 0\n",
    journal: b"",
    shut: "",
    kind: ErrorKind::PermissionDenied,
    broken: "",
    cell_fails: false,
    room: 1000,
    refuses: false,
    errors_room: 1000,
};

/// The same, where the folder of the media can't be opened.
const SHUT: Case = Case {
    shut: "media",
    ..RUN
};

/// Whether a run ends with this exit status, and leaves this on the output and this on the errors.
fn ends(alloc: Global, case: Case, number: u8, told: &[u8], explained: &[u8]) -> bool {
    let output = RefCell::new(Output {
        taken: Bytes::new(alloc),
        room: case.room,
        refuses: case.refuses,
    });
    let given_back = Cell::new(false);
    let mut errors = Output {
        taken: Bytes::new(alloc),
        room: case.errors_room,
        refuses: true,
    };
    let doors = DiskDoors {
        disk: Disk {
            config: case.config,
            journal: case.journal,
            shut: case.shut,
            kind: case.kind,
            broken: case.broken,
            alloc,
        },
        cell_fails: case.cell_fails,
        output: &output,
        given_back: &given_back,
    };
    let input = Input {
        bytes: case.input,
        at: 0,
        behind: case.behind,
        interrupted: false,
        is_terminal: case.is_terminal,
    };
    let Ok(mut clock) = ClockMem::new(alloc, &[1_000_000]) else {
        return false;
    };
    let ended = program(
        &(Words { words: case.words }, alloc),
        &doors,
        &mut clock,
        input,
        &mut Shared {
            output: &output,
            given_back: &given_back,
        },
        &mut errors,
    );
    let Ok(left) = output.try_borrow() else {
        return false;
    };
    ended == number && left.taken.as_slice() == told && errors.taken.as_slice() == explained
}

#[test]
fn a_script_is_run_in_what_is_opened(rt: HostRuntime) {
    let alloc = rt.alloc();
    let none = Case { input: b"", ..RUN };
    let refused = Case {
        input: b"bogus\nlisthosts\n",
        ..RUN
    };
    let refused_told = b"refused 01 NoSuchCommand bogus\nok\n";
    assert!(&rt; ends(alloc, RUN, 0, HOST_TOLD, b""));
    assert!(&rt; ends(alloc, none, 0, b"", b""));
    assert!(&rt; ends(alloc, refused, 1, refused_told, b""));
}

/// Whether these words are told the usage, and nothing is opened.
fn asks_for_nothing(alloc: Global, words: &'static [&'static [u8]]) -> bool {
    ends(alloc, Case { words, ..SHUT }, 2, USAGE, b"")
}

#[test]
fn other_words_are_told_the_usage(rt: HostRuntime) {
    let alloc = rt.alloc();
    assert!(&rt; asks_for_nothing(alloc, &[]));
    assert!(&rt; asks_for_nothing(alloc, &[b"bogus"]));
    assert!(&rt; asks_for_nothing(alloc, &[b"Run"]));
    assert!(&rt; asks_for_nothing(alloc, &[b"run", b"media"]));
    assert!(&rt; asks_for_nothing(alloc, &[b"rehearse"]));
    assert!(&rt; asks_for_nothing(alloc, &[b"rehearse", b"201"]));
    assert!(&rt; asks_for_nothing(alloc, &[b"run\xff"]));
}

#[test]
fn one_first_word_may_end_the_options(rt: HostRuntime) {
    let alloc = rt.alloc();
    let one = Case {
        words: &[b"--", b"run"],
        ..RUN
    };
    assert!(&rt; ends(alloc, one, 0, HOST_TOLD, b""));
    assert!(&rt; asks_for_nothing(alloc, &[b"--"]));
    assert!(&rt; asks_for_nothing(alloc, &[b"--", b"--", b"run"]));
    assert!(&rt; asks_for_nothing(alloc, &[b"run", b"--"]));
    assert!(&rt; asks_for_nothing(alloc, &[b"--run"]));
}

#[test]
fn a_stream_is_told_with_nothing_opened(rt: HostRuntime) {
    let alloc = rt.alloc();
    let examine = Case {
        words: &[b"examine"],
        input: &STREAM,
        ..SHUT
    };
    let cut = Case {
        input: &[0x01, 0xb3],
        ..examine
    };
    let refused = Case {
        behind: Behind::Refusal,
        ..examine
    };
    let line = b"the input could not be read\n";
    assert!(&rt; ends(alloc, examine, 0, STREAM_TOLD, b""));
    assert!(&rt; ends(alloc, cut, 1, b"refused 86 CutStream 2\n", b""));
    assert!(&rt; ends(alloc, refused, 3, b"", line));
}

#[test]
fn an_input_that_is_refused(rt: HostRuntime) {
    let alloc = rt.alloc();
    let refused = Case {
        behind: Behind::Refusal,
        ..RUN
    };
    let unended = Case {
        input: b"listhosts",
        ..refused
    };
    let cause = b"the input could not be read\nstandard input: timed out\n";
    assert!(&rt; ends(alloc, refused, 3, HOST_TOLD, cause));
    assert!(&rt; ends(alloc, unended, 3, b"", cause));
}

#[test]
fn an_input_without_end(rt: HostRuntime) {
    let endless = Case {
        behind: Behind::Blanks,
        ..RUN
    };
    let line = b"the input is longer than it may be\n";
    assert!(&rt; ends(rt.alloc(), endless, 10, HOST_TOLD, line));
}

#[test]
fn media_that_are_not_opened(rt: HostRuntime) {
    let alloc = rt.alloc();
    let journal = Case {
        shut: "media/journal",
        ..RUN
    };
    let slot = Case {
        shut: "media/slot0",
        kind: ErrorKind::IsADirectory,
        ..RUN
    };
    let taken = Case {
        broken: "media",
        kind: ErrorKind::WouldBlock,
        ..RUN
    };
    assert!(&rt;
        ends(
            alloc,
            SHUT,
            4,
            b"",
            b"cannot open\nmedia: permission denied\n"
        )
    );
    assert!(&rt;
        ends(
            alloc,
            journal,
            4,
            b"",
            b"cannot open\nmedia/journal: permission denied\n"
        )
    );
    assert!(&rt;
        ends(
            alloc,
            slot,
            4,
            b"",
            b"cannot open\nmedia/slot0: is a directory\n"
        )
    );
    assert!(&rt;
        ends(
            alloc,
            taken,
            4,
            b"",
            b"cannot open\nmedia: another afsbackup runs in this folder\n"
        )
    );
}

#[test]
fn a_call_on_a_file_that_is_refused(rt: HostRuntime) {
    let alloc = rt.alloc();
    let journal = Case {
        broken: "media/journal",
        kind: ErrorKind::StorageFull,
        ..RUN
    };
    let tape = Case {
        input: b"addhost -tapehost th -portoffset 0\nlabeltape -name users.full.1\n",
        broken: "media/slot0",
        ..RUN
    };
    let of_journal = b"a call on the journal or a tape failed\nmedia/journal: no storage space\n";
    let of_tape = b"a call on the journal or a tape failed\nmedia/slot0: permission denied\n";
    assert!(&rt; ends(alloc, journal, 4, b"", of_journal));
    assert!(&rt; ends(alloc, tape, 4, b"ok\n", of_tape));
}

#[test]
fn a_cell_that_is_refused(rt: HostRuntime) {
    let alloc = rt.alloc();
    let shut = Case {
        shut: "cell",
        ..RUN
    };
    let call = Case {
        input: b"listhosts\nvos create -server fs1 -partition vicepa -name user.a\n",
        cell_fails: true,
        ..RUN
    };
    let cause = b"a call on the cell failed\ncell/fs1: permission denied\n";
    assert!(&rt;
        ends(
            alloc,
            shut,
            5,
            b"",
            b"cannot open\ncell: permission denied\n"
        )
    );
    assert!(&rt; ends(alloc, call, 5, b"ok\n", cause));
}

#[test]
fn memory_that_is_refused_at_the_opening(rt: HostRuntime) {
    let slot = Case {
        shut: "media/slot0",
        kind: ErrorKind::OutOfMemory,
        ..RUN
    };
    let config = Case {
        shut: "tapeconfig",
        ..slot
    };
    let cause = b"cannot open\nmemory was refused\n";
    assert!(&rt; ends(rt.alloc(), slot, 6, b"", cause));
    assert!(&rt; ends(rt.alloc(), config, 6, b"", cause));
}

#[test]
fn a_configuration_that_is_refused_or_absent(rt: HostRuntime) {
    let alloc = rt.alloc();
    let line = Case {
        config: b"slots:0-3 0\ntape 0\n",
        ..RUN
    };
    let shut = Case {
        shut: "tapeconfig",
        ..RUN
    };
    let absent = Case {
        kind: ErrorKind::NotFound,
        ..shut
    };
    let cause = b"the configuration has no known form\ntapeconfig: refused at line 2: tape\n";
    assert!(&rt; ends(alloc, line, 7, b"", cause));
    assert!(&rt;
        ends(
            alloc,
            shut,
            11,
            b"",
            b"cannot open\ntapeconfig: permission denied\n"
        )
    );
    assert!(&rt; ends(alloc, absent, 0, HOST_TOLD, b""));
}

/// Whether a configuration is refused at its second line so.
fn is_refused(alloc: Global, config: &'static [u8], explained: &[u8]) -> bool {
    ends(alloc, Case { config, ..RUN }, 7, b"", explained)
}

#[test]
fn the_word_that_is_not_understood(rt: HostRuntime) {
    let alloc = rt.alloc();
    let port = b"the configuration has no known form\ntapeconfig: refused at line 2: 58511\n";
    let switch = b"the configuration has no known form\ntapeconfig: refused at line 2: maybe\n";
    let size = b"the configuration has no known form\ntapeconfig: refused at line 2: 2?\n";
    let cell = b"the configuration has no known form\ntapeconfig: refused at line 2: -a\n";
    let more = b"the configuration has no known form\ntapeconfig: refused at line 2: five\n";
    let same =
        b"the configuration has no known form\ntapeconfig: refused at line 2: an earlier line has its port, its slots or the cell\n";
    assert!(&rt; is_refused(alloc, b"\nslots:0-3 58511", port));
    assert!(&rt; is_refused(alloc, b"# one\nname_check maybe 0\n", switch));
    assert!(&rt; is_refused(alloc, b"slots:0-3 0\n2\xff 0 slots:4-5 x\n", size));
    assert!(&rt; is_refused(alloc, b"slots:0-3 0\r\ncell -a\r\n", cell));
    assert!(&rt; is_refused(alloc, b"slots:0-3 0\n1 2 slots:4-5 0 five six\n", more));
    assert!(&rt; is_refused(alloc, b"slots:0-3 0\nslots:3-4 1\n", same));
}

#[test]
fn a_journal_that_is_made_is_told_last(rt: HostRuntime) {
    let alloc = rt.alloc();
    let made = Case {
        shut: "media/journal",
        kind: ErrorKind::NotFound,
        ..RUN
    };
    let refused = Case {
        config: b"bogus\n",
        ..made
    };
    let line = b"media: made a new, empty database\n";
    let behind =
        b"the configuration has no known form\ntapeconfig: refused at line 1: bogus\nmedia: made a new, empty database\n";
    assert!(&rt; ends(alloc, made, 0, HOST_TOLD, line));
    assert!(&rt; ends(alloc, refused, 7, b"", behind));
}

#[test]
fn a_terminal_is_told_what_is_waited_for(rt: HostRuntime) {
    let alloc = rt.alloc();
    let run = Case {
        is_terminal: true,
        ..RUN
    };
    let examine = Case {
        words: &[b"examine"],
        input: &STREAM,
        is_terminal: true,
        ..SHUT
    };
    let shut = Case {
        is_terminal: true,
        ..SHUT
    };
    let commands =
        b"reading commands from the terminal, one a line; the line quit or Ctrl-D ends\n";
    let stream = b"reading a volume dump stream from the terminal; Ctrl-D ends\n";
    let cause = b"cannot open\nmedia: permission denied\n";
    assert!(&rt; ends(alloc, run, 0, HOST_TOLD, commands));
    assert!(&rt; ends(alloc, examine, 0, STREAM_TOLD, stream));
    assert!(&rt; ends(alloc, shut, 4, b"", cause));
}

#[test]
fn a_journal_that_is_damaged(rt: HostRuntime) {
    let zeros = Case {
        journal: &[0; 8192],
        ..RUN
    };
    let cause =
        b"the journal is no list of changes\nmedia/journal: no list of changes from byte 0 on\n";
    assert!(&rt; ends(rt.alloc(), zeros, 8, b"", cause));
}

#[test]
fn an_output_that_takes_no_more(rt: HostRuntime) {
    let alloc = rt.alloc();
    let none = Case { room: 0, ..RUN };
    let some = Case {
        room: 5,
        refuses: true,
        ..RUN
    };
    let usage = Case { words: &[], ..some };
    let takes_none = b"the output took no more\nstandard output: write zero\n";
    let refuses = b"the output took no more\nstandard output: other error\n";
    assert!(&rt; ends(alloc, none, 9, b"", takes_none));
    assert!(&rt; ends(alloc, some, 9, b"ok\nho", refuses));
    assert!(&rt; ends(alloc, usage, 9, b"usage", b"the output took no more\n"));
}

/// Whether a run ends so where the errors take this front of what it says.
fn ends_in_silence(alloc: Global, case: Case, number: u8, front: &[u8]) -> bool {
    let quiet = Case {
        errors_room: front.len(),
        ..case
    };
    ends(alloc, quiet, number, b"", front)
}

#[test]
fn errors_that_take_nothing_leave_the_status(rt: HostRuntime) {
    let alloc = rt.alloc();
    let journal = Case {
        broken: "media/journal",
        ..RUN
    };
    let config = Case {
        config: b"bogus\n",
        ..RUN
    };
    let output = Case { room: 0, ..RUN };
    assert!(&rt; ends_in_silence(alloc, SHUT, 4, b""));
    assert!(&rt; ends_in_silence(alloc, SHUT, 4, b"cannot"));
    assert!(&rt; ends_in_silence(alloc, journal, 4, b""));
    assert!(&rt; ends_in_silence(alloc, config, 7, b"the configuration"));
    assert!(&rt; ends_in_silence(alloc, output, 9, b""));
}
