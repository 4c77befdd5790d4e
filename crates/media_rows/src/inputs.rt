// What reads of a source in memory give, also where one fails, and the moments of a clock in memory.

use media_core::{Clock, ClockMem, Failed, Source, SourceMem};
use std::alloc::Global;
use std::test::Fail;

/// How many bytes each read took, with so much room, and all the bytes in order. One read may fail, and takes nothing.
fn reads(
    alloc: Global,
    rooms: &[usize],
    fails: Option<u64>,
) -> Result<(Vec<Option<usize>>, Vec<u8>), Fail> {
    let mut source = SourceMem::new(alloc, &[1, 2, 3, 4, 5])?;
    if let Some(read) = fails {
        source.fail_at(read)?;
    }
    let mut counts = Vec::new(alloc);
    let mut taken = Vec::new(alloc);
    for room in rooms {
        let mut bytes = vec![in alloc; 0; *room]?;
        match source.read(&mut bytes) {
            Ok(count) => {
                counts.push(Some(count))?;
                taken.extend_from_slice(&bytes[..count])?;
            }
            Err(Failed) => counts.push(None)?,
        }
    }
    Ok((counts, taken))
}

#[test]
fn reads_end_where_the_bytes_do(rt: HostRuntime) -> Result<(), Fail> {
    let (counts, taken) = reads(rt.alloc(), &[1, 1, 0, 9, 1, 9], None)?;
    assert_eq!(rt;
        counts.as_slice(),
        [Some(1), Some(1), Some(0), Some(3), Some(0), Some(0)].as_slice()
    );
    assert_eq!(rt; taken.as_slice(), [1, 2, 3, 4, 5].as_slice());
    Ok(())
}

#[test]
fn a_failed_read_takes_nothing(rt: HostRuntime) -> Result<(), Fail> {
    let (counts, taken) = reads(rt.alloc(), &[2, 2, 2, 2], Some(1))?;
    assert_eq!(rt;
        counts.as_slice(),
        [Some(2), None, Some(2), Some(1)].as_slice()
    );
    assert_eq!(rt; taken.as_slice(), [1, 2, 3, 4, 5].as_slice());
    Ok(())
}

/// What a clock with these moments tells, so many times.
fn times(alloc: Global, moments: &[u64], count: usize) -> Result<Vec<u64>, Fail> {
    if moments.is_empty() {
        return Err(Fail::from(Failed));
    }
    let mut clock = ClockMem::new(alloc, moments)?;
    let mut times = Vec::new(alloc);
    for _ in 0..count {
        times.push(clock.now())?;
    }
    Ok(times)
}

#[test]
fn the_last_moment_stays(rt: HostRuntime) -> Result<(), Fail> {
    let seen = times(rt.alloc(), &[3, 8, 5], 5)?;
    assert_eq!(rt; seen.as_slice(), [3, 8, 5, 5, 5].as_slice());
    let seen = times(rt.alloc(), &[7], 3)?;
    assert_eq!(rt; seen.as_slice(), [7, 7, 7].as_slice());
    Ok(())
}
