// Plants over files in memory.
ghost use Rattle.std.specs.Prelude.{◌≡◌, ◌+◌, ◌^◌, ◌<◌, ◌≤◌, ℕ, length, IfOk, OnOk, IsSome};
ghost use Rattle.media_core.specs.Files.{IsFresh};
ghost use Rattle.plant_effects.specs.Runs.{loaded_of};

use media_core::{Media, MemMedia, Pick};
use plant_core::{Failed, Kind, MemPlant, Plant, PutFault};
use plant_effects::{
    append_whole, cut_to, get_record, is_whole, load_tape, peek_record, put_block, put_mark,
    replace_whole, takes_record, tell_whole,
};
use plant_media::{MediaPlant, OpenFault};
use std::alloc::Global;
use std::test::Fail;

/// Writes the bytes of a file. They wait for a sync.
fn fill<M: Media>(media: &mut M, f: u32, bytes: &[u8]) -> Result<(), media_core::Failed>
    requires { length bytes.now < 2 ^ 32 }
{
    if !media.here(f) {
        return Err(media_core::Failed);
    }
    media.write(f, 0, bytes)?;
    Ok(())
}

/// All bytes of a file; none where it isn't here.
fn bytes_of<M: Media>(alloc: Global, media: &mut M, f: u32) -> Result<Vec<u8>, Fail> {
    if !media.here(f) {
        return Ok(Vec::new(alloc));
    }
    let length = media.len(f)?;
    let mut bytes = vec![in alloc; 0; length as usize]?;
    media.read(f, 0, bytes.as_mut_slice())?;
    Ok(bytes)
}

/// A media of three files, of which one was written with these bytes.
fn written(alloc: Global, f: u32, bytes: &[u8]) -> Result<MemMedia, Fail>
    requires { length bytes.now < 2 ^ 32 }
{
    let mut media = MemMedia::new(alloc, 3)?;
    fill(&mut media, f, bytes)?;
    Ok(media)
}

/// The same once the bytes are on the disk.
fn media_with(alloc: Global, f: u32, bytes: &[u8]) -> Result<MemMedia, Fail>
    requires { length bytes.now < 2 ^ 32 }
{
    let media = written(alloc, f, bytes)?.reopen(Pick::New)?;
    Ok(media)
}

/// The plant of a media. It survives a crash where nothing was asked of the media yet.
fn opened(media: MemMedia) -> Result<MediaPlant<MemMedia>, OpenFault>
    ensures sound { IfOk result (λ plant. ⟦<MediaPlant<MemMedia> as Plant>⟧.sound plant) }
    ensures survives { IsFresh media → IfOk result (λ plant. ⟦<MediaPlant<MemMedia> as Plant>⟧.survives plant) }
{
    match MediaPlant::open(media) {
        Ok(plant) => Ok(plant),
        Err(unopened) => Err(unopened.fault),
    }
}

/// Loads the tape of a slot, where it is here.
fn load<P: Plant>(plant: &mut P, slot: u32) -> Result<(), Failed>
    requires { P.sound plant.old }
    ensures sound { OnOk result (P.sound plant.new) }
    ensures loaded { OnOk result (IsSome (loaded_of P.Plant plant.new)) }
{
    if !plant.here(slot) {
        return Err(Failed);
    }
    load_tape(plant, slot)?;
    Ok(())
}

/// Puts a block or a mark on the loaded tape.
fn put<P: Plant>(plant: &mut P, byte: u8, marks: bool) -> Result<(), Failed>
    requires sound { P.sound plant.old }
    requires loaded { IsSome (loaded_of P.Plant plant.old) }
    ensures sound { OnOk result (P.sound plant.new) }
    ensures loaded { OnOk result (IsSome (loaded_of P.Plant plant.new)) }
{
    if !takes_record(plant)? {
        return Err(Failed);
    }
    if marks {
        put_mark(plant)?;
    } else {
        put_block(plant, &[byte; 16384])?;
    }
    Ok(())
}

/// Keeps the first records of the loaded tape.
fn cut<P: Plant>(plant: &mut P, n: u32) -> Result<(), Failed>
    requires sound { P.sound plant.old }
    requires loaded { IsSome (loaded_of P.Plant plant.old) }
    ensures sound { OnOk result (P.sound plant.new) }
    ensures loaded { OnOk result (IsSome (loaded_of P.Plant plant.new)) }
{
    if !is_whole(plant)? {
        return Err(Failed);
    }
    if plant.tape_len() < n {
        return Err(Failed);
    }
    cut_to(plant, n)?;
    Ok(())
}

/// Appends bytes to the log.
fn append<P: Plant>(plant: &mut P, bytes: &[u8]) -> Result<(), Failed>
    requires { P.sound plant.old }
    ensures { OnOk result (P.sound plant.new) }
{
    match append_whole(plant, bytes) {
        Ok(()) => Ok(()),
        Err(_) => Err(Failed),
    }
}

/// A block and a mark on the first tape, one block more, two bytes on the log, and then the second tape.
fn script<P: Plant>(plant: &mut P) -> Result<(), Failed>
    requires { P.sound plant.old }
    ensures { OnOk result (P.sound plant.new) }
{
    load(plant, 0)?;
    put(plant, 5, false)?;
    put(plant, 0, true)?;
    put(plant, 7, false)?;
    append(plant, b"ab")?;
    load(plant, 1)?;
    Ok(())
}

/// A record of the loaded tape: the last byte of a block, 1 for a mark, 0 for a bad one, 255 where there is none.
fn record_at<P: Plant>(plant: &mut P, i: u32) -> Result<u8, Failed>
    requires sound { P.sound plant.old }
    requires loaded { IsSome (loaded_of P.Plant plant.old) }
    ensures sound { OnOk result (P.sound plant.new) }
    ensures loaded { OnOk result (IsSome (loaded_of P.Plant plant.new)) }
{
    if i >= plant.tape_len() {
        return Ok(255);
    }
    let mut block = [0; 16384];
    match get_record(plant, i, &mut block)? {
        Kind::Block => Ok(block[16383]),
        Kind::Mark => Ok(1),
        Kind::Bad => Ok(0),
    }
}

/// The first four records of a tape.
fn four<P: Plant>(plant: &mut P, slot: u32) -> Result<[u8; 4], Failed>
    requires { P.sound plant.old }
    ensures { OnOk result (P.sound plant.new) }
{
    load(plant, slot)?;
    let first = record_at(plant, 0)?;
    let second = record_at(plant, 1)?;
    let third = record_at(plant, 2)?;
    let fourth = record_at(plant, 3)?;
    Ok([first, second, third, fourth])
}

/// Whether a crash may leave so much of the script: the tape is settled no later than the log, and all of it once the other tape
/// is loaded.
fn may_be_left(records: [u8; 4], log: u64, done: bool) -> bool {
    match log {
        0 => !done && (records == [255; 4] || records == [5, 1, 255, 255]),
        2 => records == [5, 1, 7, 255] || !done && records == [5, 1, 255, 255],
        _ => false,
    }
}

/// Runs the script stopped at a call, and opens the plant again as the pick leaves it: whether the script was done, the first
/// records of its tape, and the length of its log.
fn stopped(mut media: MemMedia, call: u64, pick: Pick) -> Result<(bool, [u8; 4], u64), Fail> {
    media.stop_at(call);
    let (done, media) = match MediaPlant::open(media) {
        Ok(mut plant) => {
            let done = script(&mut plant).is_ok();
            (done, plant.into_media())
        }
        Err(unopened) => (false, unopened.media),
    };
    let again = media.reopen(pick)?;
    let mut plant = opened(again)?;
    let records = four(&mut plant, 0)?;
    Ok((done, records, plant.log_len()))
}

#[test]
fn a_script_stopped_at_each_call(rt: HostRuntime) -> Result<(), Fail> {
    assert!(rt; !may_be_left([255; 4], 2, false));
    let mut ended = false;
    for call in 0..60 {
        for pick in [
            Pick::Old,
            Pick::New,
            Pick::Torn(0),
            Pick::Torn(1),
            Pick::Torn(255),
        ] {
            let media = media_with(rt.alloc(), 1, &[])?;
            let (done, records, log) = stopped(media, call, pick)?;
            assert!(rt; may_be_left(records, log, done), "at {call}");
            ended = done;
        }
    }
    assert!(rt; ended);
    Ok(())
}

/// The last byte of the first record in a slot that is here, 0 where it is no block, 255 where there is none.
fn first<P: Plant>(plant: &mut P, slot: u32) -> Result<u8, Failed>
    requires { P.sound plant.old }
    ensures { OnOk result (P.sound plant.new) }
{
    if !plant.here(slot) {
        return Err(Failed);
    }
    let mut block = [0; 16384];
    match peek_record(plant, slot, &mut block)? {
        Some(Kind::Block) => Ok(block[16383]),
        Some(_) => Ok(0),
        None => Ok(255),
    }
}

/// The script, then a cut to two records and a block behind them, a replaced log, a look at the tape that is loaded and at one that
/// isn't, and a text told. It answers what the looks show.
fn changes<P: Plant>(plant: &mut P) -> Result<[u8; 2], Failed>
    requires { P.sound plant.old }
    ensures { OnOk result (P.sound plant.new) }
{
    script(plant)?;
    load(plant, 0)?;
    cut(plant, 2)?;
    put(plant, 9, false)?;
    match replace_whole(plant, b"xyz") {
        Ok(()) => {}
        Err(_) => return Err(Failed),
    }
    let loaded = first(plant, 0)?;
    let other = first(plant, 1)?;
    tell_whole(plant, b"told")?;
    Ok([loaded, other])
}

/// What a plant shows after all this: the looks, the first records of both tapes, and the length of its log.
fn answers<P: Plant>(plant: &mut P) -> Result<([u8; 2], [u8; 4], [u8; 4], u64), Failed>
    requires { P.sound plant.old }
{
    let looks = changes(plant)?;
    let first = four(plant, 0)?;
    let second = four(plant, 1)?;
    Ok((looks, first, second, plant.log_len()))
}

#[test]
fn both_plants_answer_alike(rt: HostRuntime) -> Result<(), Fail> {
    let mut mem = MemPlant::new(rt.alloc(), 2)?;
    let in_memory = answers(&mut mem)?;
    let mut plant = opened(media_with(rt.alloc(), 1, &[])?)?;
    assert!(rt; answers(&mut plant)? == in_memory);
    assert!(rt; in_memory == ([5, 255], [5, 1, 9, 255], [255; 4], 3));
    let media = plant.into_media();
    assert_eq!(rt; media.told(), b"told".as_slice());
    Ok(())
}

/// The bytes of a file whose log has this many bytes, all of them 9.
fn file_of(alloc: Global, size: u16) -> Result<Vec<u8>, Fail>
    ensures { IfOk result (λ file. length file.items ≡ 8192 + size) }
{
    let mut file = vec![in alloc; 9; 8192 + usize::from(size)]?;
    file[0] = 1;
    file[1] = 0;
    file[8..14].copy_from_slice(&[0; 6]);
    file[14] = 32;
    file[15] = 0;
    file[16..22].copy_from_slice(&[0; 6]);
    file[22] = (size >> 8) as u8;
    file[23] = (size & 255) as u8;
    Ok(file)
}

/// The file of a tape with two whole records that begin with these bytes, and a rest.
fn foreign(alloc: Global, first: u8, second: u8) -> Result<Vec<u8>, Fail>
    ensures { IfOk result (λ file. length file.items < 2 ^ 32) }
{
    let mut file = file_of(alloc, 32_870)?;
    file[8192] = first;
    file[24577] = second;
    Ok(file)
}

#[test]
fn foreign_bytes_are_bad_records(rt: HostRuntime) -> Result<(), Fail> {
    for (first, second, want) in [
        (9, 1, [0, 1, 0, 255]),
        (0, 2, [9, 0, 0, 255]),
        (1, 0, [1, 9, 0, 255]),
    ] {
        let file = foreign(rt.alloc(), first, second)?;
        let mut plant = opened(media_with(rt.alloc(), 2, &file)?)?;
        assert_eq!(rt; four(&mut plant, 1)?, want);
    }
    Ok(())
}

#[test]
fn a_plant_is_opened_while_a_write_waits(rt: HostRuntime) -> Result<(), Fail> {
    for (pick, want) in [(Pick::Old, [255; 4]), (Pick::New, [1, 9, 0, 255])] {
        let file = foreign(rt.alloc(), 1, 0)?;
        let mut plant = opened(written(rt.alloc(), 2, &file)?)?;
        assert_eq!(rt; four(&mut plant, 1)?, [1, 9, 0, 255]);
        let again = plant.into_media().reopen(pick)?;
        assert_eq!(rt; four(&mut opened(again)?, 1)?, want);
    }
    Ok(())
}

#[test]
fn a_damaged_tape_is_one_bad_record(rt: HostRuntime) -> Result<(), Fail> {
    let media = media_with(rt.alloc(), 1, &[0; 8192])?;
    let mut plant = opened(media)?;
    assert_eq!(rt; four(&mut plant, 0)?, [0, 255, 255, 255]);
    assert_eq!(rt; four(&mut plant, 1)?, [255; 4]);
    Ok(())
}

#[test]
fn a_damaged_journal_is_refused(rt: HostRuntime) -> Result<(), Fail> {
    let file = [255; 8192];
    for (length, refused) in [(8191, false), (8192, true)] {
        let media = media_with(rt.alloc(), 0, &file[..length])?;
        let fault = opened(media).err();
        assert_eq!(rt; fault == Some(OpenFault::BadLog { at: 0 }), refused);
    }
    Ok(())
}

/// The files of a media, with a block and a mark put on the second tape.
fn with_records(media: MemMedia) -> Result<MemMedia, Fail> {
    let mut plant = opened(media)?;
    load(&mut plant, 1)?;
    put(&mut plant, 5, false)?;
    put(&mut plant, 0, true)?;
    Ok(plant.into_media())
}

#[test]
fn a_tape_is_taken_out_and_put_back(rt: HostRuntime) -> Result<(), Fail> {
    let mut media = with_records(media_with(rt.alloc(), 2, &[])?)?;
    assert!(rt; media.count() == 3);
    media.take_out(2);
    let plant = opened(media)?;
    assert!(rt; plant.here(0) && !plant.here(1));
    assert!(rt; !plant.here(2) && !plant.here(4_294_967_295));
    let mut media = plant.into_media();
    assert!(rt; media.count() == 3);
    media.put_back(2);
    assert_eq!(rt; four(&mut opened(media)?, 1)?, [5, 1, 255, 255]);
    Ok(())
}

/// Loads both tapes, one after the other.
fn loads<P: Plant>(plant: &mut P) -> Result<(), Failed>
    requires { P.sound plant.old }
{
    load(plant, 1)?;
    load(plant, 0)?;
    Ok(())
}

#[test]
fn a_tape_on_which_nothing_was_put_stays(rt: HostRuntime) -> Result<(), Fail> {
    let mut media = with_records(media_with(rt.alloc(), 2, &[])?)?;
    let before = bytes_of(rt.alloc(), &mut media, 2)?;
    let mut plant = opened(media)?;
    loads(&mut plant)?;
    let mut media = plant.into_media();
    let after = bytes_of(rt.alloc(), &mut media, 2)?;
    assert!(rt; before.as_slice() == after.as_slice());
    Ok(())
}

#[test]
fn loads_of_blank_tapes_ask_for_three_lengths(rt: HostRuntime) -> Result<(), Fail> {
    for (call, done) in [(2, false), (3, true)] {
        let mut media = media_with(rt.alloc(), 1, &[])?;
        media.stop_at(call);
        let loaded = match opened(media) {
            Ok(mut plant) => loads(&mut plant).is_ok(),
            Err(_) => false,
        };
        assert_eq!(rt; loaded, done);
    }
    Ok(())
}

#[test]
fn a_mark_is_one_byte_and_zeros(rt: HostRuntime) -> Result<(), Fail> {
    let mut media = with_records(media_with(rt.alloc(), 2, &[])?)?;
    let file = bytes_of(rt.alloc(), &mut media, 2)?;
    assert_eq!(rt; file.len(), 8192 + 2 * 16385);
    let mark = &file[8192 + 16385..];
    assert_eq!(rt; mark[0], 1);
    assert!(rt; mark[1..].iter().all(|byte| *byte == 0));
    Ok(())
}

#[test]
fn a_load_counts_where_another_tape_was_loaded(rt: HostRuntime) -> Result<(), Fail> {
    let mut plant = MemPlant::new(rt.alloc(), 2)?;
    for slot in [1, 1, 0, 0, 1] {
        load(&mut plant, slot)?;
    }
    assert_eq!(rt; plant.loads(), 3);
    assert_eq!(rt; plant.loaded(), Some(1));
    assert_eq!(rt; plant.wants(), 0);
    Ok(())
}
