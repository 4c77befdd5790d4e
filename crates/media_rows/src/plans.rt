// Which calls on files in memory fail where a plan names them, what they leave, and which calls have no number.

use crate::files::{Left, after_crash, bytes_of, media_with_three};
use media_core::{Failed, Media, MemMedia, Pick};
use std::alloc::Global;
use std::test::Fail;

/// Which calls fail: that one, or that one and all later ones.
#[derive(Clone, Copy)]
enum Fault {
    At(u64),
    From(u64),
}

/// Which of five calls went, what the second one read, how many growths were refused, and what a crash left then.
#[derive(Drop)]
struct Seen {
    went: [bool; 5],
    read: [u8; 2],
    wants: u64,
    left: Left,
}

/// A `len`, a `read`, a `write`, a `sync` and a `tell`, behind a `len` that is to go. Which of the five went, and what the
/// second one read.
fn five_calls<M: Media>(media: &mut M) -> Result<([bool; 5], [u8; 2]), Failed> {
    if !media.here(1) {
        return Err(Failed);
    }
    let length = media.len(1)?;
    if length < 3 {
        return Err(Failed);
    }
    let mut read = [0; 2];
    let first = media.len(1).is_ok();
    let second = media.read(1, 1, &mut read).is_ok();
    let third = media.write(1, 1, &[7, 8, 9]).is_ok();
    let fourth = media.sync(1).is_ok();
    let fifth = media.tell(&[5]).is_ok();
    Ok(([first, second, third, fourth, fifth], read))
}

/// Makes some of the five calls fail, which are counted from 0 here.
fn plan(media: &mut MemMedia, fault: Fault) -> Result<(), Fail> {
    match fault {
        Fault::At(call) if call < 5 => media.fail_at(1 + call)?,
        Fault::From(call) if call < 5 => media.stop_at(1 + call),
        _ => {}
    }
    Ok(())
}

/// The five calls, of which some fail, and then a crash.
fn crashed(alloc: Global, fault: Fault, pick: Pick) -> Result<Seen, Fail> {
    let mut media = media_with_three(alloc)?;
    plan(&mut media, fault)?;
    let (went, read) = five_calls(&mut media)?;
    Ok(Seen {
        went,
        read,
        wants: media.wants(),
        left: after_crash(alloc, media, pick)?,
    })
}

#[test]
fn one_call_fails(rt: HostRuntime) -> Result<(), Fail> {
    for (call, want) in [
        (0, [false, true, true, true, true]),
        (1, [true, false, true, true, true]),
        (2, [true, true, false, true, true]),
        (3, [true, true, true, false, true]),
        (4, [true, true, true, true, false]),
        (5, [true; 5]),
    ] {
        let seen = crashed(rt.alloc(), Fault::At(call), Pick::Old)?;
        assert_eq!(rt; seen.went, want, "at {call}");
        assert_eq!(rt; seen.wants, 0, "at {call}");
    }
    Ok(())
}

#[test]
fn a_failed_call_changes_nothing(rt: HostRuntime) -> Result<(), Fail> {
    for (call, read, told) in [
        (0, [2, 3], [9, 5].as_slice()),
        (1, [0, 0], [9, 5].as_slice()),
        (2, [2, 3], [9, 5].as_slice()),
        (3, [2, 3], [9, 5].as_slice()),
        (4, [2, 3], [9].as_slice()),
        (5, [2, 3], [9, 5].as_slice()),
    ] {
        let seen = crashed(rt.alloc(), Fault::At(call), Pick::Old)?;
        assert_eq!(rt; seen.read, read, "at {call}");
        assert_eq!(rt; seen.left.told.as_slice(), told, "at {call}");
        assert_eq!(rt; seen.left.journal.len(), 0, "at {call}");
    }
    Ok(())
}

#[test]
fn a_failed_write_or_sync_leaves_the_file(rt: HostRuntime) -> Result<(), Fail> {
    for (call, old, new) in [
        (1, [1, 7, 8, 9].as_slice(), [1, 7, 8, 9].as_slice()),
        (2, [1, 2, 3].as_slice(), [1, 2, 3].as_slice()),
        (3, [1, 2, 3].as_slice(), [1, 7, 8, 9].as_slice()),
        (4, [1, 7, 8, 9].as_slice(), [1, 7, 8, 9].as_slice()),
    ] {
        let seen = crashed(rt.alloc(), Fault::At(call), Pick::Old)?;
        assert_eq!(rt; seen.left.tape.as_slice(), old, "at {call}");
        let seen = crashed(rt.alloc(), Fault::At(call), Pick::New)?;
        assert_eq!(rt; seen.left.tape.as_slice(), new, "at {call}");
    }
    Ok(())
}

#[test]
fn all_calls_fail_from_a_stop_on(rt: HostRuntime) -> Result<(), Fail> {
    for (call, want) in [
        (0, [false; 5]),
        (1, [true, false, false, false, false]),
        (2, [true, true, false, false, false]),
        (3, [true, true, true, false, false]),
        (4, [true, true, true, true, false]),
        (5, [true; 5]),
    ] {
        let seen = crashed(rt.alloc(), Fault::From(call), Pick::Old)?;
        assert_eq!(rt; seen.went, want, "at {call}");
        assert_eq!(rt; seen.wants, 0, "at {call}");
        assert_eq!(rt; seen.left.told.as_slice(), [9, 5].as_slice(), "at {call}");
    }
    Ok(())
}

#[test]
fn a_stopped_write_is_in_progress(rt: HostRuntime) -> Result<(), Fail> {
    for (call, old) in [
        (0, [1, 2, 3].as_slice()),
        (2, [1, 2, 3].as_slice()),
        (3, [1, 2, 3].as_slice()),
        (4, [1, 7, 8, 9].as_slice()),
    ] {
        let seen = crashed(rt.alloc(), Fault::From(call), Pick::Old)?;
        assert_eq!(rt; seen.left.tape.as_slice(), old, "at {call}");
        let seen = crashed(rt.alloc(), Fault::From(call), Pick::New)?;
        assert_eq!(rt;
            seen.left.tape.as_slice(),
            [1, 7, 8, 9].as_slice(),
            "at {call}"
        );
    }
    Ok(())
}

/// Whether the first `len` goes and the second one fails, where call 1 is to fail and other questions stand between.
fn unnumbered(alloc: Global) -> Result<(bool, bool), Fail> {
    let mut media = MemMedia::new(alloc, 3)?;
    media.fail_at(1)?;
    let mut here = media.here(0) && media.here(2) && media.count() == 3;
    if !here {
        return Err(Fail::from(Failed));
    }
    let first = media.len(0).is_ok();
    here = media.here(1) && !media.here(3) && media.count() == 3;
    media.take_out(1);
    media.put_back(1);
    let second = media.len(0).is_ok();
    Ok((first && here, second))
}

#[test]
fn questions_have_no_number(rt: HostRuntime) -> Result<(), Fail> {
    assert_eq!(rt; unnumbered(rt.alloc())?, (true, false));
    Ok(())
}

/// Which of three files and one past them are here.
fn here(media: &MemMedia) -> [bool; 4] {
    [media.here(0), media.here(1), media.here(2), media.here(3)]
}

/// What is here at first, with the first tape out, and with it back.
fn out_and_back(alloc: Global) -> Result<[[bool; 4]; 3], Fail> {
    let mut media = MemMedia::new(alloc, 3)?;
    let first = here(&media);
    media.take_out(1);
    let out = here(&media);
    media.put_back(1);
    Ok([first, out, here(&media)])
}

/// The bytes of a tape that was taken out and put back.
fn bytes_back(alloc: Global) -> Result<Vec<u8>, Fail> {
    let mut media = media_with_three(alloc)?;
    if media.count() < 2 {
        return Err(Fail::from(Failed));
    }
    media.take_out(1);
    media.put_back(1);
    bytes_of(alloc, &mut media, 1)
}

#[test]
fn a_tape_is_taken_out_and_put_back(rt: HostRuntime) -> Result<(), Fail> {
    let [first, out, back] = out_and_back(rt.alloc())?;
    assert_eq!(rt; first, [true, true, true, false]);
    assert_eq!(rt; out, [true, false, true, false]);
    assert_eq!(rt; back, [true, true, true, false]);
    assert_eq!(rt; bytes_back(rt.alloc())?.as_slice(), [1, 2, 3].as_slice());
    Ok(())
}
