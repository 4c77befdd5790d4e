//! The rehearsal.

ghost use Rattle.std.specs.Prelude.{◌≡◌, ◌≤◌, [], IfOk};
ghost use Rattle.media_core.specs.Files.{seen_of, count_of, present_of};
ghost use Rattle.cell_core.specs.Mem.{cell_list};
ghost use Rattle.rehearsal.specs.Sessions.{dumped, scanned, restored, Stands, HasFiles};
ghost use Rattle.rehearsal.specs.Counts.{lines_with};
ghost use Rattle.rehearsal.specs.Rehearsed.{tally, rehearsed};

use crate::copies::compare;
use crate::finding::rehearsals_find_their_archive;
use crate::lines::{Tally, lines_of, lines_with};
use crate::playing::run_session;
use crate::sessions::{first_session, second_session, third_session};
use crate::tapes::count_records;
use bk_text::Bytes;
use cell_core::CellMem;
use media_core::MemMedia;
use std::alloc::{AllocError, Global};

/// The first session, over blank media of five files and an empty cell: what is told, and the media.
fn dump_all(
    alloc: Global,
    cell: &mut CellMem,
    volumes: u32,
) -> Result<(Bytes, MemMedia), AllocError>
    requires few { volumes ≤ 200 }
    requires empty { cell_list cell.old ≡ [] }
    ensures told { IfOk result (λ left. left.0 ≡ (dumped volumes).told) }
    ensures stands { IfOk result (λ left. Stands (dumped volumes).world (seen_of left.1) (cell_list cell.new)) }
    ensures files { IfOk result (λ left. HasFiles (dumped volumes).world (count_of left.1) (present_of left.1)) }
{
    rehearsals_find_their_archive();
    let media = MemMedia::new(alloc, 5)?;
    let batches = first_session(alloc, volumes)?;
    run_session(alloc, media, cell, batches.as_slice())
}

/// The second session: the tape of slot 2 is taken out, and the journal is lost.
fn scan_all(
    alloc: Global,
    mut media: MemMedia,
    cell: &mut CellMem,
    volumes: u32,
) -> Result<(Bytes, MemMedia), AllocError>
    requires few { volumes ≤ 200 }
    requires stands { Stands (dumped volumes).world (seen_of media) (cell_list cell.old) }
    requires files { HasFiles (dumped volumes).world (count_of media) (present_of media) }
    ensures told { IfOk result (λ left. left.0 ≡ (scanned volumes).told) }
    ensures stands { IfOk result (λ left. Stands (scanned volumes).world (seen_of left.1) (cell_list cell.new)) }
    ensures files { IfOk result (λ left. HasFiles (scanned volumes).world (count_of left.1) (present_of left.1)) }
{
    rehearsals_find_their_archive();
    media.take_out(3);
    media.empty_journal();
    let batches = second_session(alloc, volumes)?;
    run_session(alloc, media, cell, batches.as_slice())
}

/// The third session: the tape of slot 2 is put back.
fn restore_all(
    alloc: Global,
    mut media: MemMedia,
    cell: &mut CellMem,
    volumes: u32,
) -> Result<Bytes, AllocError>
    requires few { volumes ≤ 200 }
    requires stands { Stands (scanned volumes).world (seen_of media) (cell_list cell.old) }
    requires files { HasFiles (scanned volumes).world (count_of media) (present_of media) }
    ensures told { IfOk result (λ told. told ≡ (restored volumes).told) }
    ensures cell { IfOk result (λ told. cell_list cell.new ≡ (restored volumes).world.cell) }
{
    rehearsals_find_their_archive();
    media.put_back(3);
    let batches = third_session(alloc, volumes)?;
    let (told, _) = run_session(alloc, media, cell, batches.as_slice())?;
    Ok(told)
}

/// How many lines of what was told begin so.
fn count_lines(front: &[u8], told: &Bytes) -> u64
    ensures { result ≡ lines_with front.now told.now }
{
    lines_with(front, told.as_slice())
}

/// Counts what comes of the three sessions, over an empty cell.
fn count_over(alloc: Global, cell: &mut CellMem, volumes: u32) -> Result<Tally, AllocError>
    requires few { volumes ≤ 200 }
    requires empty { cell_list cell.old ≡ [] }
    ensures { IfOk result (λ counts. counts ≡ tally volumes) }
{
    let (dumped, media) = dump_all(alloc, cell, volumes)?;
    let dumps = count_lines(b"dump ", &dumped);
    drop(dumped);
    let (records, media) = count_records(media)?;
    let (lost, media) = scan_all(alloc, media, cell, volumes)?;
    let found = count_lines(b"added ", &lost);
    let missing = count_lines(b"refused 61 ", &lost);
    drop(lost);
    let told = restore_all(alloc, media, cell, volumes)?;
    let added = count_lines(b"added ", &told);
    let restored = count_lines(b"restored ", &told);
    drop(told);
    let copies = compare(alloc, cell, volumes)?;
    Ok(Tally {
        volumes: u64::from(volumes),
        dumps,
        blocks: records.blocks,
        marks: records.marks,
        found,
        missing,
        added,
        restored,
        equal: copies.equal,
        bytes: copies.bytes,
    })
}

/// Counts what comes of the three sessions.
fn count_sessions(alloc: Global, volumes: u32) -> Result<Tally, AllocError>
    requires { volumes ≤ 200 }
    ensures { IfOk result (λ counts. counts ≡ tally volumes) }
{
    let mut cell = CellMem::new(alloc);
    let counts = count_over(alloc, &mut cell, volumes);
    drop(cell);
    counts
}

/// Rehearses with so many volumes, 1 to 200, over media and a cell of its own in memory, and hands back the five lines that tell of it. It
/// ends otherwise only for want of memory.
///
/// Volumes are made and dumped in full, changed and dumped three times more, each dump onto a tape of its own. Then the third tape is taken
/// out and the journal is lost: the tapes are scanned, and each volume is restored beside itself as far as the dumps that are found let it
/// be. Then the tape is put back, and all is scanned and restored again.
pub fn rehearse(alloc: Global, volumes: u32) -> Result<Bytes, AllocError>
    requires { volumes ≤ 200 }
    ensures { IfOk result (λ lines. lines ≡ rehearsed volumes) }
{
    let counts = count_sessions(alloc, volumes)?;
    lines_of(alloc, &counts)
}
