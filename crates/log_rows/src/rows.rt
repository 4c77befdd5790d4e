// Logs in files of a media in memory, stopped at each call.
ghost use Rattle.std.specs.Prelude.{◌≡◌, ◌+◌, ◌^◌, ◌<◌, ◌≤◌, ℕ, List, length, OnOk, IsTrue};
ghost use Rattle.crash_log.specs.CrashLog.{file_of, FitsIts};

use crash_log::{CrashLog, PutFault};
use media_core::{Failed, Media, MemMedia, Pick};
use std::alloc::{AllocError, Global};
use std::test::Fail;

/// A file that isn't here isn't read.
pub fn check(is_here: bool) -> Result<(), Failed>
    ensures { OnOk result (IsTrue is_here) }
{
    if is_here { Ok(()) } else { Err(Failed) }
}

/// Puts bytes into the log of a file, and commits them where that is asked.
pub fn add<M: Media>(media: &mut M, f: u32, bytes: &[u8], commits: bool) -> Result<(), PutFault> {
    if !media.here(f) {
        return Err(PutFault::Failed);
    }
    let mut log = match CrashLog::open(media, f, 100) {
        Ok(log) => log,
        Err(Failed) => return Err(PutFault::Failed),
    };
    log.put(media, bytes)?;
    if commits {
        match log.commit(media) {
            Ok(()) => {}
            Err(Failed) => return Err(PutFault::Failed),
        }
    }
    Ok(())
}

/// The bytes of the log of a file, and whether the file is damaged.
fn log_in<M: Media>(alloc: Global, media: &mut M, f: u32) -> Result<(Vec<u8>, bool), Fail> {
    check(media.here(f))?;
    let log = CrashLog::open(media, f, 100)?;
    let mut bytes = vec![in alloc; 0; log.len() as usize]?;
    log.read(media, 0, &mut bytes)?;
    Ok((bytes, log.damaged()))
}

/// Writes the bytes of a file, on the disk.
fn fill<M: Media>(media: &mut M, f: u32, bytes: &[u8]) -> Result<(), Failed>
    requires { length bytes.now < 2 ^ 32 }
{
    if !media.here(f) {
        return Err(Failed);
    }
    media.write(f, 0, bytes)?;
    media.sync(f)?;
    Ok(())
}

/// A media of two files, of which the second one has these bytes.
pub fn media_with(alloc: Global, bytes: &[u8]) -> Result<MemMedia, Fail>
    requires { length bytes.now < 2 ^ 32 }
{
    let mut media = MemMedia::new(alloc, 2)?;
    fill(&mut media, 1, bytes)?;
    let media = media.reopen(Pick::New)?;
    Ok(media)
}

/// Puts bytes into the log of the second file, stopped at a call, and reads the log again as the pick leaves it.
fn stopped(
    mut media: MemMedia,
    alloc: Global,
    bytes: &[u8],
    commits: bool,
    call: u64,
    pick: Pick,
) -> Result<(bool, Vec<u8>, bool), Fail> {
    media.stop_at(call);
    let done = add(&mut media, 1, bytes, commits).is_ok();
    let mut again = media.reopen(pick)?;
    let (log, damaged) = log_in(alloc, &mut again, 1)?;
    Ok((done, log, damaged))
}

/// The first bytes of a slot: its gate, its turn, a start that has two bytes, and a size that has one.
fn put_slot(file: &mut [u8], base: usize, turn: u8, start: u16, size: u8)
    requires { base + 24 ≤ length file.old }
{
    file[base] = 1;
    file[base + 1] = turn;
    file[base + 14] = (start >> 8) as u8;
    file[base + 15] = (start & 255) as u8;
    file[base + 23] = size;
}

#[test]
fn sixty_bytes_are_there_or_not(rt: HostRuntime) -> Result<(), Fail> {
    let bytes = [7; 60];
    let mut ends = 0;
    for call in 0..12 {
        for pick in [
            Pick::Old,
            Pick::New,
            Pick::Torn(0),
            Pick::Torn(1),
            Pick::Torn(255),
        ] {
            let media = media_with(rt.alloc(), &[])?;
            let (done, log, _) = stopped(media, rt.alloc(), &bytes, true, call, pick)?;
            assert!(rt;
                log.len() == 0 || log.as_slice() == bytes.as_slice(),
                "at {call}"
            );
            assert!(rt; !done || log.len() == 60, "at {call}");
            if done {
                ends = call;
            }
        }
    }
    assert_eq!(rt; ends, 11);
    Ok(())
}

#[test]
fn a_stale_slot_stays_closed(rt: HostRuntime) -> Result<(), Fail> {
    let mut file = [0; 8192];
    put_slot(&mut file, 0, 0, 8192, 0);
    put_slot(&mut file, 4096, 1, 8192, 50);
    let bytes = [7; 60];
    for call in 0..8 {
        for pick in [
            Pick::Old,
            Pick::New,
            Pick::Torn(0),
            Pick::Torn(1),
            Pick::Torn(255),
        ] {
            let media = media_with(rt.alloc(), &file)?;
            let (_, log, _) = stopped(media, rt.alloc(), &bytes, false, call, pick)?;
            assert_eq!(rt; log.len(), 0, "at {call}");
        }
    }
    Ok(())
}

#[test]
fn a_damaged_file_is_formatted_gate_by_gate(rt: HostRuntime) -> Result<(), Fail> {
    let bytes = [7; 60];
    let mut file = [255; 8192];
    file[4096] = 1;
    for (length, was_damaged) in [(8191, false), (8192, true)] {
        for call in 0..16 {
            for pick in [
                Pick::Old,
                Pick::New,
                Pick::Torn(0),
                Pick::Torn(1),
                Pick::Torn(255),
            ] {
                let mut media = media_with(rt.alloc(), &file[..length])?;
                let (log, damaged) = log_in(rt.alloc(), &mut media, 1)?;
                assert_eq!(rt; log.len(), 0);
                assert_eq!(rt; damaged, was_damaged);
                let media = media_with(rt.alloc(), &file[..length])?;
                let (done, log, damaged) = stopped(media, rt.alloc(), &bytes, true, call, pick)?;
                assert!(rt;
                    log.len() == 0 || log.as_slice() == bytes.as_slice(),
                    "at {call}"
                );
                assert!(rt; !done || (log.len() == 60 && !damaged), "at {call}");
            }
        }
    }
    Ok(())
}

#[test]
fn of_two_slots_the_turns_tell(rt: HostRuntime) -> Result<(), Fail> {
    for (first, second, want) in [
        (0, 1, 2),
        (1, 2, 2),
        (2, 0, 2),
        (1, 0, 3),
        (2, 1, 3),
        (0, 2, 3),
        (1, 1, 3),
    ] {
        let mut file = [0; 8200];
        put_slot(&mut file, 0, first, 8192, 3);
        put_slot(&mut file, 4096, second, 8195, 2);
        let mut media = media_with(rt.alloc(), &file)?;
        let (log, damaged) = log_in(rt.alloc(), &mut media, 1)?;
        assert_eq!(rt; log.len(), want, "at {first}");
        assert!(rt; !damaged);
    }
    Ok(())
}

/// The bytes of a log.
fn bytes_of<M: Media>(alloc: Global, log: &CrashLog, media: &mut M) -> Result<Vec<u8>, Fail>
    requires here { IsTrue (M.present media.old (file_of log.now)) }
    requires fits { M.tells → FitsIts M.seen log.now media.old }
    ensures fits { M.tells → FitsIts M.seen log.now media.new }
    ensures present { M.present media.new ≡ M.present media.old }
{
    let mut bytes = vec![in alloc; 0; log.len() as usize]?;
    log.read(media, 0, &mut bytes)?;
    Ok(bytes)
}

/// Cuts what was only put, and replaces the log behind the current range and below it.
fn changes<M: Media>(alloc: Global, media: &mut M, f: u32) -> Result<Vec<Vec<u8>>, Fail> {
    let mut seen = Vec::new(alloc);
    if !media.here(f) {
        return Ok(seen);
    }
    let mut log = CrashLog::open(media, f, 100)?;
    log.put(media, &[1; 60])?;
    if log.len() < 10 {
        return Ok(seen);
    }
    log.cut(media, 10)?;
    seen.push(bytes_of(alloc, &log, media)?)?;
    log.replace(media, &[2; 5])?;
    seen.push(bytes_of(alloc, &log, media)?)?;
    log.replace(media, &[3; 4])?;
    log.put(media, &[4; 3])?;
    seen.push(bytes_of(alloc, &log, media)?)?;
    log.replace(media, &[5; 2])?;
    seen.push(bytes_of(alloc, &log, media)?)?;
    Ok(seen)
}

#[test]
fn cuts_and_replaces(rt: HostRuntime) -> Result<(), Fail> {
    let mut media = media_with(rt.alloc(), &[])?;
    let seen = changes(rt.alloc(), &mut media, 1)?;
    assert_eq!(rt; seen.len(), 4);
    assert_eq!(rt; seen[0].as_slice(), [1; 10].as_slice());
    assert_eq!(rt; seen[1].as_slice(), [2; 5].as_slice());
    assert_eq!(rt; seen[2].as_slice(), [3, 3, 3, 3, 4, 4, 4].as_slice());
    assert_eq!(rt; seen[3].as_slice(), [5; 2].as_slice());
    let mut media = media.reopen(Pick::Old)?;
    let (log, _) = log_in(rt.alloc(), &mut media, 1)?;
    assert_eq!(rt; log.as_slice(), [5; 2].as_slice());
    Ok(())
}

#[test]
fn a_limit_of_100_is_exact(rt: HostRuntime) -> Result<(), Fail> {
    for (length, want) in [(41, false), (40, true)] {
        let mut media = media_with(rt.alloc(), &[])?;
        add(&mut media, 1, &[7; 60], true)?;
        let mut media = media.reopen(Pick::Old)?;
        let more = [8; 41];
        assert_eq!(rt; add(&mut media, 1, &more[..length], true).is_ok(), want);
    }
    Ok(())
}
