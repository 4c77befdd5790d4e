// The journal's log over plants.
ghost use Rattle.std.specs.Prelude.{◌≡◌, IfOk, OnOk};

use bk_text::{Bytes, Out};
use budb_journal::{AppendFault, ReplayFault, append, decode, encode, replay};
use media_core::{MemMedia, Pick};
use plant_core::{MemPlant, Plant, PutFault};
use plant_media::{MediaPlant, OpenFault};
use std::alloc::Global;
use std::test::Fail;

/// A tape host, a volume set and an entry: 32 bytes.
const SETS: &[u8] = b"\x08\x02th\0\0\x01\x05users\x03\x05users\0\0\0\x08user\\..*";

/// Three levels, 71 bytes with those before.
const LEVELS: &[u8] = b"\x05\0\x05/full\0\x05\0\x09/full/mon\0\x05\0\x0d/full/mon/tue\0";

/// A dump begun: 5 bytes.
const BEGIN: &[u8] = b"\x0a\0\0\x07\xd0";

/// The same dump done, of one volume in one fragment on one tape without a permanent name: 109 bytes.
const DONE: &[u8] =
    b"\x0f\0\0\x07\xd0\0\0\x07\xd0\0\0\0\0\0\0\0\0\x05users\0\x05/full\x0ausers.full\0\x01\0\0\0\x01\0\0\0\x02\0\0\0\x09\0\0\0\x03\0\0\0\x01\0\0\0\0\x01\x06user.a\x20\0\0\0\x03fs1\x06vicepa\0\0\x07\xd0\0\0\0\0\0\x01\0\0\0\x01\0\0\0\x03\0";

/// The same in the form of version 1: 103 bytes.
const DONE_1: &[u8] =
    b"\x0c\0\0\x07\xd0\0\0\x07\xd0\0\0\0\0\0\0\0\0\x05users\0\x05/full\x0ausers.full\0\x01\0\0\0\x01\0\0\0\x02\0\0\0\x09\0\0\0\x03\0\0\0\x01\x06user.a\x20\0\0\0\x03fs1\x06vicepa\0\0\x07\xd0\0\0\0\0\0\x01\0\0\0\x01\0\0\0\x03";

/// A later dump begun, and a tape taken: one commit of 10 bytes.
const TAKEN: &[u8] = b"\x0a\0\0\x0b\xb8\x0b\0\0\x07\xd0";

/// Appends the changes of these bytes by one commit.
fn commit<P: Plant>(alloc: Global, plant: &mut P, bytes: &[u8]) -> Result<(), AppendFault>
    requires { P.sound plant.old }
    ensures { OnOk result (P.sound plant.new) }
{
    match decode(alloc, bytes) {
        Ok(changes) => append(alloc, plant, changes.as_slice()),
        Err(_) => Err(AppendFault::Memory),
    }
}

/// The bytes of the changes that a log has.
fn replayed<P: Plant>(alloc: Global, plant: &mut P) -> Result<Bytes, ReplayFault>
    requires { P.sound plant.old }
    ensures { OnOk result (P.sound plant.new) }
{
    let changes = replay(alloc, plant)?;
    let mut out = Out::new(alloc);
    match encode(alloc, changes.as_slice(), &mut out) {
        Ok(()) => Ok(out.into_bytes()),
        Err(_) => Err(ReplayFault::Memory),
    }
}

/// Whether a log has these two commits' changes, and is as long.
fn has<P: Plant>(alloc: Global, plant: &mut P, first: &[u8], second: &[u8]) -> bool
    requires { P.sound plant.old }
{
    let length = plant.log_len();
    match replayed(alloc, plant) {
        Ok(bytes) => {
            length == bytes.len() as u64 && bytes.as_slice().strip_prefix(first) == Some(second)
        }
        Err(_) => false,
    }
}

/// The lengths of a log after four commits.
fn lengths<P: Plant>(alloc: Global, plant: &mut P, done: &[u8]) -> Result<[u64; 4], AppendFault>
    requires { P.sound plant.old }
    ensures { OnOk result (P.sound plant.new) }
{
    commit(alloc, plant, SETS)?;
    let sets = plant.log_len();
    commit(alloc, plant, LEVELS)?;
    let levels = plant.log_len();
    commit(alloc, plant, BEGIN)?;
    let begun = plant.log_len();
    commit(alloc, plant, done)?;
    Ok([sets, levels, begun, plant.log_len()])
}

/// The log after these commits, the last of which has the dump done, is of the worked lengths and replays to their bytes.
fn is_worked<P: Plant>(alloc: Global, plant: &mut P, done: &[u8], length: u64) -> Result<bool, Fail>
    requires { P.sound plant.old }
{
    let lengths = match lengths(alloc, plant, done) {
        Ok(lengths) => lengths,
        Err(_) => return Ok(false),
    };
    let mut whole = Bytes::from_slice(alloc, SETS)?;
    whole.extend_from_slice(LEVELS)?;
    whole.extend_from_slice(BEGIN)?;
    Ok(lengths == [32, 71, 76, length] && has(alloc, plant, whole.as_slice(), done))
}

/// The plant of a media.
fn opened(media: MemMedia) -> Result<MediaPlant<MemMedia>, OpenFault>
    ensures { IfOk result (λ plant. ⟦<MediaPlant<MemMedia> as Plant>⟧.sound plant) }
{
    match MediaPlant::open(media) {
        Ok(plant) => Ok(plant),
        Err(unopened) => Err(unopened.fault),
    }
}

#[test]
fn worked_logs(rt: HostRuntime) -> Result<(), Fail> {
    let alloc = rt.alloc();
    let mut in_memory = MemPlant::new(alloc, 0)?;
    assert!(rt; is_worked(alloc, &mut in_memory, DONE, 185)?);
    let mut with_version_1 = MemPlant::new(alloc, 0)?;
    assert!(rt; is_worked(alloc, &mut with_version_1, DONE_1, 179)?);
    let media = MemMedia::new(alloc, 2)?;
    let mut over_files = opened(media)?;
    assert!(rt; is_worked(alloc, &mut over_files, DONE, 185)?);
    Ok(())
}

/// A media whose log was committed once.
fn begun(alloc: Global) -> Result<MemMedia, Fail> {
    let media = MemMedia::new(alloc, 2)?;
    let mut plant = opened(media)?;
    match commit(alloc, &mut plant, SETS) {
        Ok(()) => {}
        Err(_) => return Err("it fits".into()),
    }
    let media = plant.into_media().reopen(Pick::New)?;
    Ok(media)
}

/// A commit stopped at a call of the media, which is opened again as the pick leaves it: whether the commit was done, and
/// whether the log has it or is as before.
fn stopped(alloc: Global, call: u64, pick: Pick) -> Result<(bool, bool, bool), Fail> {
    let mut media = begun(alloc)?;
    media.stop_at(call);
    let (done, media) = match MediaPlant::open(media) {
        Ok(mut plant) => {
            let done = commit(alloc, &mut plant, TAKEN).is_ok();
            (done, plant.into_media())
        }
        Err(unopened) => (false, unopened.media),
    };
    let mut again = opened(media.reopen(pick)?)?;
    let is_new = has(alloc, &mut again, SETS, TAKEN);
    let mut again = opened(again.into_media())?;
    Ok((done, is_new, has(alloc, &mut again, SETS, b"")))
}

#[test]
fn a_commit_stopped_at_each_call(rt: HostRuntime) -> Result<(), Fail> {
    let mut ended = false;
    for call in 0..30 {
        for pick in [
            Pick::Old,
            Pick::New,
            Pick::Torn(0),
            Pick::Torn(1),
            Pick::Torn(255),
        ] {
            let (done, is_new, is_old) = stopped(rt.alloc(), call, pick)?;
            assert!(rt; is_new || is_old && !done, "at {call}");
            ended = done;
        }
    }
    assert!(rt; ended);
    Ok(())
}

/// What replaying a log of these bytes answers.
fn refusal(alloc: Global, bytes: &[u8]) -> Result<Option<u64>, Fail> {
    let mut plant = MemPlant::new(alloc, 0)?;
    match plant.log_put(bytes) {
        Ok(()) => {}
        Err(_) => return Err("it fits".into()),
    }
    match replay(alloc, &mut plant) {
        Err(ReplayFault::BadChange { at }) => Ok(Some(at)),
        _ => Ok(None),
    }
}

#[test]
fn a_log_of_other_bytes_is_refused(rt: HostRuntime) -> Result<(), Fail> {
    for (bytes, at) in [
        (SETS, None),
        (b"\x08\x02th\0\0\x00".as_slice(), Some(6)),
        (b"\x08\x02th\0\0\x01\x05user".as_slice(), Some(12)),
        (b"\x0c\0\0\x07\xd0".as_slice(), Some(5)),
    ] {
        assert_eq!(rt; refusal(rt.alloc(), bytes)?, at);
    }
    Ok(())
}

/// A plant whose log has so many bytes.
fn filled(alloc: Global, size: usize) -> Result<MemPlant, Fail> {
    let mut plant = MemPlant::new(alloc, 0)?;
    let bytes = vec![in alloc; 0; size]?;
    match plant.log_put(&bytes) {
        Ok(()) => Ok(plant),
        Err(PutFault::LogFull) => Err("it fits".into()),
        Err(PutFault::Failed) => Err("memory".into()),
    }
}

#[test]
fn a_full_log(rt: HostRuntime) -> Result<(), Fail> {
    let port = b"\x09\0\x01".as_slice();
    for (size, wanted, length) in [
        (268_435_453, Ok(()), 268_435_456),
        (268_435_455, Err(AppendFault::LogFull), 268_435_455),
    ] {
        let mut plant = filled(rt.alloc(), size)?;
        assert!(rt; commit(rt.alloc(), &mut plant, port) == wanted);
        assert!(rt; plant.log_len() == length);
    }
    Ok(())
}
