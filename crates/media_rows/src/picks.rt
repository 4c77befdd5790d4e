// What each pick leaves after each kind of call: the bytes and the lengths are by hand from the rule of unsynced writes.

use crate::files::{Left, after_crash, media_with_three, put, settle};
use media_core::{Media, MemMedia, Pick};
use std::alloc::Global;
use std::test::Fail;

/// A write within, after which that file is synced, or only the other one.
fn written(alloc: Global, synced: Option<u32>, pick: Pick) -> Result<Left, Fail> {
    let mut media = media_with_three(alloc)?;
    put(&mut media, 1, 1, &[7])?;
    if let Some(f) = synced {
        settle(&mut media, f)?;
    }
    after_crash(alloc, media, pick)
}

#[test]
fn a_write_is_picked(rt: HostRuntime) -> Result<(), Fail> {
    for synced in [None, Some(0)] {
        for (pick, want) in [
            (Pick::Old, [1, 2, 3]),
            (Pick::New, [1, 7, 3]),
            (Pick::Torn(0), [1, 0, 3]),
            (Pick::Torn(255), [1, 255, 3]),
        ] {
            let seen = written(rt.alloc(), synced, pick)?;
            assert_eq!(rt; seen.tape.as_slice(), want.as_slice(), "{pick:?}");
        }
    }
    Ok(())
}

#[test]
fn a_synced_write_stays(rt: HostRuntime) -> Result<(), Fail> {
    for pick in [Pick::Old, Pick::New, Pick::Torn(0), Pick::Torn(255)] {
        let seen = written(rt.alloc(), Some(1), pick)?;
        assert_eq!(rt; seen.tape.as_slice(), [1, 7, 3].as_slice(), "{pick:?}");
    }
    Ok(())
}

/// A write past the end. First there may be one that was synced.
fn grown(alloc: Global, again: bool, pick: Pick) -> Result<Left, Fail> {
    let mut media = media_with_three(alloc)?;
    if again {
        put(&mut media, 1, 3, &[4])?;
        settle(&mut media, 1)?;
    }
    put(&mut media, 1, 2, &[7, 8, 9])?;
    after_crash(alloc, media, pick)
}

#[test]
fn a_write_past_the_end_is_picked(rt: HostRuntime) -> Result<(), Fail> {
    for (pick, want) in [
        (Pick::Old, [1, 2, 3].as_slice()),
        (Pick::New, [1, 2, 7, 8, 9].as_slice()),
        (Pick::Torn(0), [1, 2, 0, 0, 0].as_slice()),
        (Pick::Torn(255), [1, 2, 255, 255, 255].as_slice()),
    ] {
        let seen = grown(rt.alloc(), false, pick)?;
        assert_eq!(rt; seen.tape.as_slice(), want, "{pick:?}");
    }
    Ok(())
}

#[test]
fn a_write_after_a_sync_is_picked(rt: HostRuntime) -> Result<(), Fail> {
    for (pick, want) in [
        (Pick::Old, [1, 2, 3, 4].as_slice()),
        (Pick::New, [1, 2, 7, 8, 9].as_slice()),
        (Pick::Torn(0), [1, 2, 0, 0, 0].as_slice()),
        (Pick::Torn(255), [1, 2, 255, 255, 255].as_slice()),
    ] {
        let seen = grown(rt.alloc(), true, pick)?;
        assert_eq!(rt; seen.tape.as_slice(), want, "{pick:?}");
    }
    Ok(())
}

/// Pieces for the output, behind a write that isn't synced.
fn told(alloc: Global, pick: Pick) -> Result<Left, Fail> {
    let mut media = media_with_three(alloc)?;
    put(&mut media, 1, 0, &[7])?;
    media.tell(&[5, 6])?;
    media.tell(&[])?;
    media.tell(&[4])?;
    after_crash(alloc, media, pick)
}

#[test]
fn told_bytes_are_kept(rt: HostRuntime) -> Result<(), Fail> {
    for (pick, first) in [
        (Pick::Old, 1),
        (Pick::New, 7),
        (Pick::Torn(0), 0),
        (Pick::Torn(255), 255),
    ] {
        let seen = told(rt.alloc(), pick)?;
        assert_eq!(rt; seen.told.as_slice(), [9, 5, 6, 4].as_slice(), "{pick:?}");
        assert_eq!(rt; seen.tape.as_slice(), [first, 2, 3].as_slice(), "{pick:?}");
    }
    Ok(())
}

/// A journal with synced bytes and some that aren't, which is emptied, and may then have a byte again.
fn emptied(alloc: Global, again: bool, pick: Pick) -> Result<Left, Fail> {
    let mut media = media_with_three(alloc)?;
    put(&mut media, 0, 0, &[4, 5])?;
    settle(&mut media, 0)?;
    put(&mut media, 0, 1, &[6, 6])?;
    put(&mut media, 1, 2, &[7])?;
    media.tell(&[5])?;
    media.empty_journal();
    if again {
        put(&mut media, 0, 0, &[8])?;
    }
    after_crash(alloc, media, pick)
}

#[test]
fn an_empty_journal_stays_empty(rt: HostRuntime) -> Result<(), Fail> {
    for (pick, last) in [
        (Pick::Old, 3),
        (Pick::New, 7),
        (Pick::Torn(0), 0),
        (Pick::Torn(255), 255),
    ] {
        let seen = emptied(rt.alloc(), false, pick)?;
        assert_eq!(rt; seen.journal.len(), 0, "{pick:?}");
        assert_eq!(rt; seen.tape.as_slice(), [1, 2, last].as_slice(), "{pick:?}");
        assert_eq!(rt; seen.told.as_slice(), [9, 5].as_slice(), "{pick:?}");
    }
    Ok(())
}

#[test]
fn an_emptied_journal_is_written_again(rt: HostRuntime) -> Result<(), Fail> {
    for (pick, want) in [
        (Pick::Old, [].as_slice()),
        (Pick::New, [8].as_slice()),
        (Pick::Torn(0), [0].as_slice()),
        (Pick::Torn(255), [255].as_slice()),
    ] {
        let seen = emptied(rt.alloc(), true, pick)?;
        assert_eq!(rt; seen.journal.as_slice(), want, "{pick:?}");
    }
    Ok(())
}
