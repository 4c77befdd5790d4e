//! Files of a folder as media: what is opened, what is refused, and which count rises.

use crate::fakes::{File, Folder, Output, WHOLE};
use bk_text::Bytes;
use host_edge::{DirMedia, lock_folder};
use media_core::Media;
use std::alloc::Global;
use std::io::ErrorKind;
use std::test::Fail;

/// What a folder's fault says, or `opened`.
fn opened(alloc: Global, folder: Folder, line: &str) -> Result<bool, Fail> {
    let output = Output {
        taken: Bytes::new(alloc),
        room: 0,
        refuses: false,
    };
    let rt = (folder, alloc);
    match DirMedia::open(&rt, "media", output) {
        Ok(_) => Ok(line == "opened"),
        Err(fault) => Ok(format!(in alloc; "{fault}")?.as_str().starts_with(line)),
    }
}

#[test]
fn a_fault_names_its_path(rt: HostRuntime) -> Result<(), Fail> {
    let alloc = rt.alloc();
    let journal = Folder {
        refused: "media/journal",
        ..WHOLE
    };
    let slot = Folder {
        refused: "media/slot7",
        ..WHOLE
    };
    let absent = Folder {
        refused: "media/slot7",
        kind: ErrorKind::NotFound,
        ..WHOLE
    };
    let memory = Folder {
        refused: "media/slot255",
        kind: ErrorKind::OutOfMemory,
        ..WHOLE
    };
    let closed = Folder { number: 2, ..WHOLE };
    let linked = Folder {
        inode: Some(1),
        ..WHOLE
    };
    let device = Folder {
        inode: None,
        ..WHOLE
    };
    assert!(&rt; opened(alloc, linked, "media/journal and media/slot7: one file ")?);
    assert!(&rt; opened(alloc, device, "media/slot7: not a regular file")?);
    assert!(&rt; opened(alloc, WHOLE, "opened")?);
    assert!(&rt; opened(alloc, absent, "opened")?);
    assert!(&rt; opened(alloc, journal, "media/journal: ")?);
    assert!(&rt; opened(alloc, slot, "media/slot7: ")?);
    assert!(&rt; opened(alloc, memory, "memory was refused")?);
    assert!(&rt; opened(alloc, closed, "media/journal: ")?);
    Ok(())
}

#[test]
fn a_folder_is_locked_above_the_streams(rt: HostRuntime) {
    let alloc = rt.alloc();
    let held = Folder {
        broken: true,
        ..WHOLE
    };
    let closed = Folder { number: 2, ..WHOLE };
    assert!(&rt; lock_folder(&(WHOLE, alloc), "media").is_ok());
    assert!(&rt; lock_folder(&(held, alloc), "media").is_err());
    assert!(&rt; lock_folder(&(closed, alloc), "media").is_err());
}

/// Media of which slot 7 alone has a file.
fn media(
    alloc: Global,
    broken: bool,
    room: usize,
    refuses: bool,
) -> Result<DirMedia<(Folder, Global), File, Output>, Fail> {
    let output = Output {
        taken: Bytes::new(alloc),
        room,
        refuses,
    };
    Ok(DirMedia::open(&(Folder { broken, ..WHOLE }, alloc), "media", output)?)
}

#[test]
fn files_are_here_by_number(rt: HostRuntime) -> Result<(), Fail> {
    let media = media(rt.alloc(), false, 0, false)?;
    assert_eq!(&rt; media.count(), 257);
    assert!(&rt; media.here(0));
    assert!(&rt; media.here(8));
    assert!(&rt; !media.here(7));
    assert!(&rt; !media.here(257));
    Ok(())
}

#[test]
fn calls_answer_what_the_file_answers(rt: HostRuntime) -> Result<(), Fail> {
    let mut media = media(rt.alloc(), false, 0, false)?;
    assert!(&rt; media.len(0).is_ok());
    assert!(&rt; media.read(0, 0, &mut []).is_ok());
    assert!(&rt; media.sync(0).is_ok());
    assert!(&rt; media.write(0, 0, b"ab").is_ok());
    assert!(&rt; media.len(0).is_err(), "another length than was left");
    assert!(&rt; media.sync(0).is_err(), "another length than was left");
    Ok(())
}

#[test]
fn a_path_that_leads_elsewhere_is_no_sync(rt: HostRuntime) -> Result<(), Fail> {
    let alloc = rt.alloc();
    let output = Output {
        taken: Bytes::new(alloc),
        room: 0,
        refuses: false,
    };
    let moved = Folder {
        moved: true,
        ..WHOLE
    };
    let mut media = DirMedia::open(&(moved, alloc), "media", output)?;
    assert!(&rt; media.len(0).is_ok());
    assert!(&rt; media.sync(0).is_err());
    Ok(())
}

#[test]
fn refused_calls_fail(rt: HostRuntime) -> Result<(), Fail> {
    let alloc = rt.alloc();
    let mut media = media(alloc, true, 0, false)?;
    assert!(&rt; media.read(0, 0, &mut []).is_err());
    let long = vec![in alloc; 0u8; 262_161]?;
    assert!(&rt;
        media.write(0, 0, long.as_slice()).is_err(),
        "too long to wait"
    );
    assert!(&rt; media.write(0, 0, b"ab").is_ok(), "it waits");
    assert!(&rt; media.write(0, 2, b"c").is_ok(), "it waits behind");
    assert!(&rt;
        media.here(8) && media.write(8, 0, b"d").is_err(),
        "another file's wait"
    );
    assert!(&rt; media.write(0, 4, b"e").is_err(), "not behind what waits");
    assert!(&rt; media.sync(0).is_err());
    Ok(())
}

#[test]
fn outputs_take_little_or_refuse(rt: HostRuntime) -> Result<(), Fail> {
    let mut little = media(rt.alloc(), false, 9, false)?;
    assert_eq!(&rt; little.tell(b"0123456789"), Ok(7));
    assert_eq!(&rt; little.tell(b"789"), Ok(2));
    assert!(&rt; little.tell(b"9").is_err());
    assert_eq!(&rt; little.tell(b""), Ok(0));
    let mut refusing = media(rt.alloc(), false, 1, true)?;
    assert_eq!(&rt; refusing.tell(b"01"), Ok(1));
    assert!(&rt; refusing.tell(b"1").is_err());
    Ok(())
}
