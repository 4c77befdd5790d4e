//! The top call.

ghost use Rattle.std.specs.Prelude.{◌≡◌, ◌≢◌, ◌⊎◌, ◌-◌, ◌^◌, ◌≤◌, ℕ, min, length, Ok, Err};
ghost use Rattle.crash_moments.specs.Moments.{Leads, LeavesSince, Rose};
ghost use Rattle.media_core.specs.Still.{AreStill};
ghost use Rattle.plant_media.specs.Stock.{stock_of};
ghost use Rattle.tape_config.specs.Configs.{Settings, config_of};
ghost use Rattle.tape_config.specs.declared.fault.ConfigFault.{ConfigFault as AnyFault};
ghost use Rattle.backup_top.specs.Tells.{TellsOn, OnlyTells};
ghost use Rattle.backup_top.specs.Replies.{usage_line};
ghost use Rattle.backup_top.specs.Runs.{passage, Examines, TellsUsage, TellsRehearsal, IsRehearseStatus, told_status};
ghost use Rattle.rehearsal.specs.Rehearsed.{rehearsed};
ghost use Rattle.backup_top.specs.Words.{asked};
ghost use Rattle.backup_top.specs.Answers.{config_status};
ghost use Rattle.backup_session.specs.Held.{HoldsArchive};
ghost use Rattle.backup_session.specs.Worlds.{Contents};
ghost use Rattle.std.specs.Str.Lines.{lines};
ghost use Rattle.session_archives.specs.Held.{HoldsWorld};
ghost use Rattle.session_archives.specs.OnLines.{RestoresLookUp, ScansListWhole};
ghost use Rattle.backup_top.specs.Courses.{course_of, Entry, Journal, IsBadLog, SameStock, IsRefusedAt, RefusesJournal, IsExamineStatus, Runs, TellsLines, SameFiles, TakesBy, CellAtStage, EndsAt, LeavesImages, FindsHeld, FindsFit, FindsVolumes, outcome, HasCauseAs, IsWithin, IsComplete};
ghost use Rattle.backup_top.specs.declared.words.Asked.TheVariants.{Run, Examine, Rehearse, Nothing};
ghost use Rattle.backup_top.specs.declared.status.Status.TheVariants.{Done, SomeRefused, Usage, ReadFault, MediaFault, CellFault, Memory, BadConfig, BadLog, OutputFault};

use crate::input::{ReadStop, read_input};
use crate::run_mode::run_mode;
use crate::status::Status;
use crate::telling::{TellStop, tell_all, tell_input};
use crate::words::{Asked, asked_by};
use cell_core::Cell;
use dump_stream::Input;
use media_core::{Clock, Media, Source};
use rehearsal::rehearse;
use script_journals::journals_of_scripts;
use session_archives::{
    images_hold_the_archive, opened_worlds_have_their_forms, restores_look_up,
    scans_list_what_is_whole, scripts_keep_the_archive, scripts_leave_a_ready_world_ready,
};
use std::alloc::Global;

/// What is told where the words are not those of a mode.
const USAGE: &[u8] = b"usage: afsbackup run | examine | rehearse N\n";

/// The status of an input that was told.
fn status_of(input: &Input) -> Status
    ensures { result ≡ told_status input.now }
{
    match input {
        Input::Stream(_) => Status::Done,
        Input::Cut { .. } | Input::Bad { .. } | Input::Followed { .. } => Status::SomeRefused,
    }
}

/// Reads an input and tells what it is.
fn examine<M: Media, S: Source>(alloc: Global, media: &mut M, source: &mut S) -> Status
    ensures told { S.tells → M.tells → Examines (passage S.left M.seen M.time source.old source.new media.old media.new) result }
    ensures only { OnlyTells M.tells M.seen M.time M.count M.present M.faults M.tell_faults media.old media.new }
    ensures read_fault { result ≡ ReadFault → Rose (S.faults source.old) (S.faults source.new) }
    ensures no_read_fault { result ≢ ReadFault → S.faults source.new ≡ S.faults source.old }
    ensures output_fault { result ≡ OutputFault → Rose (M.tell_faults media.old) (M.tell_faults media.new) }
    ensures no_output_fault { result ≢ OutputFault → M.tell_faults media.new ≡ M.tell_faults media.old }
    ensures later { S.faults source.old ≤ S.faults source.new }
    ensures statuses { IsExamineStatus result }
{
    match read_input(alloc, source) {
        Err(ReadStop::Failed) => Status::ReadFault,
        Err(ReadStop::TooLong) => Status::ScriptTooLong,
        Err(ReadStop::Memory) => Status::Memory,
        Ok(input) => {
            let status = status_of(&input);
            let told = tell_input(alloc, media, &input);
            drop(input);
            match told {
                Ok(()) => status,
                Err(TellStop::Refused) => Status::OutputFault,
                Err(TellStop::Memory) => Status::Memory,
            }
        }
    }
}

/// Tells the usage line.
fn tell_usage<M: Media>(media: &mut M) -> Status
    ensures told { M.tells → TellsUsage (M.seen media.old).told (M.seen media.new).told result }
    ensures images { M.tells → Leads M.time media.old media.new (TellsOn usage_line (M.seen media.old).told) }
    ensures only { OnlyTells M.tells M.seen M.time M.count M.present M.faults M.tell_faults media.old media.new }
    ensures output_fault { result ≡ OutputFault → Rose (M.tell_faults media.old) (M.tell_faults media.new) }
    ensures no_output_fault { result ≢ OutputFault → M.tell_faults media.new ≡ M.tell_faults media.old }
    ensures usage { (result ≡ Usage) ⊎ (result ≡ OutputFault) }
{
    match tell_all(media, USAGE) {
        Ok(()) => Status::Usage,
        Err(_) => Status::OutputFault,
    }
}

/// The examination of media that are handed back.
fn run_examine<M: Media, S: Source>(alloc: Global, media: M, source: &mut S) -> (Status, M)
    ensures told { S.tells → M.tells → Examines (passage S.left M.seen M.time source.old source.new media result.1) result.0 }
    ensures only { OnlyTells M.tells M.seen M.time M.count M.present M.faults M.tell_faults media result.1 }
    ensures read_fault { result.0 ≡ ReadFault → Rose (S.faults source.old) (S.faults source.new) }
    ensures no_read_fault { result.0 ≢ ReadFault → S.faults source.new ≡ S.faults source.old }
    ensures output_fault { result.0 ≡ OutputFault → Rose (M.tell_faults media) (M.tell_faults result.1) }
    ensures no_output_fault { result.0 ≢ OutputFault → M.tell_faults result.1 ≡ M.tell_faults media }
    ensures later { S.faults source.old ≤ S.faults source.new }
    ensures statuses { IsExamineStatus result.0 }
{
    let mut media = media;
    let status = examine(alloc, &mut media, source);
    (status, media)
}

/// The usage line on media that are handed back.
fn run_usage<M: Media>(media: M) -> (Status, M)
    ensures told { M.tells → TellsUsage (M.seen media).told (M.seen result.1).told result.0 }
    ensures images { M.tells → Leads M.time media result.1 (TellsOn usage_line (M.seen media).told) }
    ensures only { OnlyTells M.tells M.seen M.time M.count M.present M.faults M.tell_faults media result.1 }
    ensures output_fault { result.0 ≡ OutputFault → Rose (M.tell_faults media) (M.tell_faults result.1) }
    ensures no_output_fault { result.0 ≢ OutputFault → M.tell_faults result.1 ≡ M.tell_faults media }
    ensures usage { (result.0 ≡ Usage) ⊎ (result.0 ≡ OutputFault) }
{
    let mut media = media;
    let status = tell_usage(&mut media);
    (status, media)
}

/// Rehearses, and tells the lines.
fn tell_rehearsal<M: Media>(alloc: Global, media: &mut M, volumes: u32) -> Status
    requires { volumes ≤ 200 }
    ensures told { M.tells → TellsRehearsal (rehearsed volumes) (M.seen media.old).told (M.seen media.new).told result }
    ensures images { M.tells → Leads M.time media.old media.new (TellsOn (rehearsed volumes) (M.seen media.old).told) }
    ensures only { OnlyTells M.tells M.seen M.time M.count M.present M.faults M.tell_faults media.old media.new }
    ensures output_fault { result ≡ OutputFault → Rose (M.tell_faults media.old) (M.tell_faults media.new) }
    ensures no_output_fault { result ≢ OutputFault → M.tell_faults media.new ≡ M.tell_faults media.old }
    ensures statuses { IsRehearseStatus result }
{
    match rehearse(alloc, volumes) {
        Err(_) => Status::Memory,
        Ok(lines) => match tell_all(media, lines.as_slice()) {
            Ok(()) => Status::Done,
            Err(_) => Status::OutputFault,
        },
    }
}

/// The rehearsal on media that are handed back.
fn run_rehearse<M: Media>(alloc: Global, media: M, volumes: u32) -> (Status, M)
    requires { volumes ≤ 200 }
    ensures told { M.tells → TellsRehearsal (rehearsed volumes) (M.seen media).told (M.seen result.1).told result.0 }
    ensures images { M.tells → Leads M.time media result.1 (TellsOn (rehearsed volumes) (M.seen media).told) }
    ensures only { OnlyTells M.tells M.seen M.time M.count M.present M.faults M.tell_faults media result.1 }
    ensures output_fault { result.0 ≡ OutputFault → Rose (M.tell_faults media) (M.tell_faults result.1) }
    ensures no_output_fault { result.0 ≢ OutputFault → M.tell_faults result.1 ≡ M.tell_faults media }
    ensures statuses { IsRehearseStatus result.0 }
{
    let mut media = media;
    let status = tell_rehearsal(alloc, &mut media, volumes);
    (status, media)
}

/// Runs the program on these words, which are those after its name: `run`, `examine`, or `rehearse` and a number from 1 to 200; one first
/// `--` is left out. The media are handed back as the run leaves them, whatever the status is. Want of memory may come at any point. These are
/// this project's own rules.
///
/// `run` opens the journal of the media by the configuration and runs the source as a script, line by line. `examine` reads the
/// source to its end as one dump stream and tells it line by line, or the one line by which it is refused; at `ReadFault` and
/// `ScriptTooLong` it has told nothing, at `OutputFault` and `Memory` a front of the lines.
///
/// `rehearse` dumps and restores volumes over media and a cell of its own in memory, and tells the five lines of what came of it, which are
/// a function of the number of volumes alone. It reads nothing.
pub fn run<M: Media, C: Cell, K: Clock, S: Source>(
    alloc: Global,
    words: &Vec<String>,
    config: &[u8],
    media: M,
    cell: &mut C,
    clock: &mut K,
    source: &mut S,
) -> (Status, M)
    // The words that aren't those of a mode are answered by the usage line, and nothing is read.
    ensures usage { result.0 ≡ Usage → asked words.now.items ≡ Nothing }
    ensures other_words { asked words.now.items ≡ Nothing → ((result.0 ≡ Usage) ⊎ ((result.0 ≡ OutputFault) ⊎ (result.0 ≡ Memory))) × (M.tells → TellsUsage (M.seen media).told (M.seen result.1).told result.0) × (source.new ≡ source.old) }
    ensures other_images { asked words.now.items ≡ Nothing → M.tells → Leads M.time media result.1 (TellsOn usage_line (M.seen media).told) }

    // An input is told by its lines.
    ensures examine { asked words.now.items ≡ Examine → S.tells → M.tells → Examines (passage S.left M.seen M.time source.old source.new media result.1) result.0 }
    // A rehearsal is told by its five lines, and reads nothing. Where the output takes them it comes to its end, unless memory runs out.
    ensures rehearse { (n : ℕ) → asked words.now.items ≡ Rehearse n → (M.tells → TellsRehearsal (rehearsed n) (M.seen media).told (M.seen result.1).told result.0) × (source.new ≡ source.old) }
    ensures rehearse_images { (n : ℕ) → asked words.now.items ≡ Rehearse n → M.tells → Leads M.time media result.1 (TellsOn (rehearsed n) (M.seen media).told) }
    ensures rehearse_complete { (n : ℕ) → asked words.now.items ≡ Rehearse n → (Rose (M.tell_faults media) (M.tell_faults result.1) → ⊥) → (result.0 ≡ Done) ⊎ (result.0 ≡ Memory) }
    // But for a script, the files stay, the cell and the clock too, whatever the configuration and the journal are.
    ensures only { (asked words.now.items ≡ Run → ⊥) → OnlyTells M.tells M.seen M.time M.count M.present M.faults M.tell_faults media result.1 }
    ensures same { (asked words.now.items ≡ Run → ⊥) → (cell.new ≡ cell.old) × (clock.new ≡ clock.old) }

    // Media that hold the archive of these contents at the entry hold it as each restore of the script finds it. A script that dumps finds a
    // world that is fit for dumps at its first command, in which what dumps have of volumes are volumes, and restores no volume under a name
    // that ends in `.backup`; of other scripts nothing is asked.
    ensures finds { asked words.now.items ≡ Run → C.tells → (entry : Entry config.now (stock_of (M.seen media))) → (contents : Contents)
        → let c = course_of M.seen M.count M.present contents media entry result.1 (C.list cell.old) (C.list cell.new) (K.moments clock.old) (K.moments clock.new) (S.left source.old) (S.left source.new) in
        HoldsArchive c.world → FindsFit c → HoldsWorld c.world × FindsHeld c × FindsVolumes c }
    // A script, over media whose journal is a list of changes, and by a configuration of the form: what was done, by the status. It
    // is said of scripts whose restores find media that hold the archive of these contents, and so of every script without a restore.
    ensures runs { asked words.now.items ≡ Run → M.tells → C.tells → K.tells → S.tells → (entry : Entry config.now (stock_of (M.seen media))) → (contents : Contents)
        → let c = course_of M.seen M.count M.present contents media entry result.1 (C.list cell.old) (C.list cell.new) (K.moments clock.old) (K.moments clock.new) (S.left source.old) (S.left source.new) in
        FindsHeld c → Runs c result.0 }
    // Whatever stands on the media, a script that was run to its end is `SomeRefused` where a line that was told begins with `refused`, and
    // else `Done`.
    ensures told_lines { asked words.now.items ≡ Run → M.tells → C.tells → TellsLines (stock_of (M.seen media)).told (stock_of (M.seen result.1)).told result.0 }
    // Each restore on a line that is run outside of a group answers each volume by one look-up in the archive that it finds there, and each
    // scan there that adds dumps lists just those that are whole on the coordinator's tapes that are here, aren't listed and have no wrong
    // parent, so far as the log has room; recorded dumps are among the whole ones. In a group both are refused. So are the turns of which `runs`
    // speaks.
    ensures restores { asked words.now.items ≡ Run → (entry : Entry config.now (stock_of (M.seen media))) → (contents : Contents)
        → let c = course_of M.seen M.count M.present contents media entry result.1 (C.list cell.old) (C.list cell.new) (K.moments clock.old) (K.moments clock.new) (S.left source.old) (S.left source.new) in
        RestoresLookUp c.world c.moments (lines c.input) }
    ensures scans { asked words.now.items ≡ Run → (entry : Entry config.now (stock_of (M.seen media))) → (contents : Contents)
        → let c = course_of M.seen M.count M.present contents media entry result.1 (C.list cell.old) (C.list cell.new) (K.moments clock.old) (K.moments clock.new) (S.left source.old) (S.left source.new) in
        ScansListWhole c.world c.moments (lines c.input) }
    // Each image since the entry, where no write of before waits for a sync. Its journal opens again (of a script that dumps, where what dumps
    // have of volumes are volumes): it is the list of changes that the first of the script's effects make, and each reply that was told whole is
    // among them. Where the media held the archive at the entry, and a script that dumps finds a world fit for it, it holds the archive with what
    // the dumps have then.
    ensures images { asked words.now.items ≡ Run → M.tells → C.tells → K.tells → S.tells → AreStill M.time M.seen media → (entry : Entry config.now (stock_of (M.seen media))) → (contents : Contents)
        → let c = course_of M.seen M.count M.present contents media entry result.1 (C.list cell.old) (C.list cell.new) (K.moments clock.old) (K.moments clock.new) (S.left source.old) (S.left source.new) in
        FindsHeld c → LeavesImages M.time media result.1 c (outcome c).effects }
    // However it ended, what reads give is such an image, and cell and clock are those of its stage. All effects of the lines before the one in
    // progress are done in it: a line is run as soon as it is complete, so these are all lines that were ended among the bytes taken, but for
    // the last of them at most.
    ensures ends { asked words.now.items ≡ Run → M.tells → C.tells → K.tells → S.tells → AreStill M.time M.seen media → (entry : Entry config.now (stock_of (M.seen media))) → (contents : Contents)
        → let c = course_of M.seen M.count M.present contents media entry result.1 (C.list cell.old) (C.list cell.new) (K.moments clock.old) (K.moments clock.new) (S.left source.old) (S.left source.new) in
        FindsHeld c → EndsAt M.time M.seen media result.1 c }
    // Behind a script that was run to its end no write waits for a sync on the media that are handed back, where none waited at the entry: so a
    // next run on them finds what `images` and `ends` ask of writes that wait.
    ensures still { asked words.now.items ≡ Run → M.tells → C.tells → K.tells → S.tells → AreStill M.time M.seen media → (entry : Entry config.now (stock_of (M.seen media))) → (contents : Contents)
        → let c = course_of M.seen M.count M.present contents media entry result.1 (C.list cell.old) (C.list cell.new) (K.moments clock.old) (K.moments clock.new) (S.left source.old) (S.left source.new) in
        FindsHeld c → (result.0 ≡ Done) ⊎ (result.0 ≡ SomeRefused) → AreStill M.time M.seen result.1 }
    // Also where a write waited for a sync at the entry, the cell has the list of a stage of the script, the clock has its moments left, and no
    // more was told than the effects of this stage tell: so the cell has the changes of each command whose reply was told.
    ensures cell_at_end { asked words.now.items ≡ Run → M.tells → C.tells → K.tells → S.tells → (entry : Entry config.now (stock_of (M.seen media))) → (contents : Contents)
        → let c = course_of M.seen M.count M.present contents media entry result.1 (C.list cell.old) (C.list cell.new) (K.moments clock.old) (K.moments clock.new) (S.left source.old) (S.left source.new) in
        FindsHeld c → CellAtStage c }
    // What is taken of the source. A script is too long exactly where more came than it may have, with no end and no `quit`.
    ensures takes { asked words.now.items ≡ Run → S.tells → TakesBy (S.left source.old) (S.left source.new) result.0 }
    // Where no call is refused, all of a script within its bound is run, unless memory runs out.
    ensures complete { asked words.now.items ≡ Run → M.tells → C.tells → K.tells → S.tells → Entry config.now (stock_of (M.seen media)) → IsWithin (S.left source.old)
        → (Rose (M.faults media) (M.faults result.1) → ⊥) → (Rose (C.faults cell.old) (C.faults cell.new) → ⊥) → (Rose (M.tell_faults media) (M.tell_faults result.1) → ⊥) → (Rose (S.faults source.old) (S.faults source.new) → ⊥) → IsComplete result.0 }

    // A configuration is refused exactly at the line where it stops being of the form, before anything is touched.
    ensures bad_config { (line : ℕ) → result.0 ≡ BadConfig line → (asked words.now.items ≡ Run) × IsRefusedAt config.now line }
    ensures only_bad_config { asked words.now.items ≡ Run → (fault : AnyFault) → config_of config.now ≡ Err fault → (result.0 ≡ config_status fault) ⊎ (result.0 ≡ Memory) }
    ensures bad_config_same { (line : ℕ) → result.0 ≡ BadConfig line → (result.1 ≡ media) × (cell.new ≡ cell.old) × (clock.new ≡ clock.old) × (source.new ≡ source.old) }
    ensures refused_config_same { asked words.now.items ≡ Run → (fault : AnyFault) → config_of config.now ≡ Err fault → (result.1 ≡ media) × (cell.new ≡ cell.old) × (clock.new ≡ clock.old) × (source.new ≡ source.old) }
    // A journal is refused exactly where its log stops being a list of changes, before a line is read; nothing is told, and nothing changes.
    ensures bad_log { M.tells → (at : ℕ) → result.0 ≡ BadLog at → IsBadLog (stock_of (M.seen media)).log at }
    ensures bad_log_config { (at : ℕ) → result.0 ≡ BadLog at → (asked words.now.items ≡ Run) × ((settings : Settings) × (config_of config.now ≡ Ok settings)) }
    ensures only_bad_log { asked words.now.items ≡ Run → M.tells → (settings : Settings) → config_of config.now ≡ Ok settings → (Journal (stock_of (M.seen media)) → ⊥) → RefusesJournal result.0 }
    ensures bad_log_media { M.tells → (at : ℕ) → result.0 ≡ BadLog at → M.seen result.1 ≡ M.seen media }
    ensures bad_log_same { (at : ℕ) → result.0 ≡ BadLog at → (cell.new ≡ cell.old) × (clock.new ≡ clock.old) × (source.new ≡ source.old) }
    // However a run over a journal that is no list of changes ends, or one whose file is damaged, all files stay to the byte, and what was told,
    // cell, clock and source; each image since the entry stands for the same as one of the entry.
    ensures refused_log_media { asked words.now.items ≡ Run → M.tells → (Journal (stock_of (M.seen media)) → ⊥) → M.seen result.1 ≡ M.seen media }
    ensures refused_log_images { asked words.now.items ≡ Run → M.tells → (Journal (stock_of (M.seen media)) → ⊥) → LeavesSince M.time media result.1 SameStock }
    ensures refused_log_same { asked words.now.items ≡ Run → M.tells → (Journal (stock_of (M.seen media)) → ⊥) → (cell.new ≡ cell.old) × (clock.new ≡ clock.old) × (source.new ≡ source.old) }

    // Where a run ends by a fault of the cell or of the media and no moment of the clock was used, nothing was taken of the source: so it is
    // where the journal can't be read or the cell's entries can't be listed at the opening, since in front of any other fault of the two a
    // moment is used, unless the clock had only one.
    ensures order { result.0 ≡ CellFault → K.tells → S.tells → 2 ≤ length (K.moments clock.old) → K.moments clock.new ≡ K.moments clock.old → S.left source.new ≡ S.left source.old }
    ensures media_order { result.0 ≡ MediaFault → K.tells → S.tells → 2 ≤ length (K.moments clock.old) → K.moments clock.new ≡ K.moments clock.old → S.left source.new ≡ S.left source.old }

    // As many files come back, and the same of them are here. Each fault has its cause, and no count rises at another status, nor falls; that of
    // the media ends at 2^64 - 1.
    ensures same_files { SameFiles M.count M.present media result.1 }
    ensures media_cause { HasCauseAs MediaFault (M.faults media) (M.faults result.1) result.0 }
    ensures cell_cause { HasCauseAs CellFault (C.faults cell.old) (C.faults cell.new) result.0 }
    ensures output_fault { result.0 ≡ OutputFault → Rose (M.tell_faults media) (M.tell_faults result.1) }
    ensures no_output_fault { result.0 ≢ OutputFault → M.tell_faults result.1 ≡ M.tell_faults media }
    ensures read_fault { result.0 ≡ ReadFault → Rose (S.faults source.old) (S.faults source.new) }
    ensures no_read_fault { result.0 ≢ ReadFault → S.faults source.new ≡ S.faults source.old }
    ensures media_later { min (M.faults media) (2 ^ 64 - 1) ≤ M.faults result.1 }
    ensures cell_later { C.faults cell.old ≤ C.faults cell.new }
    ensures output_later { M.tell_faults media ≤ M.tell_faults result.1 }
    ensures read_later { S.faults source.old ≤ S.faults source.new }
{
    journals_of_scripts();
    scripts_keep_the_archive();
    scripts_leave_a_ready_world_ready();
    images_hold_the_archive();
    opened_worlds_have_their_forms();
    restores_look_up();
    scans_list_what_is_whole();
    cell.listed_is_allowed();
    match asked_by(alloc, words) {
        Err(_) => (Status::Memory, media),
        Ok(Asked::Run) => run_mode(alloc, config, media, cell, clock, source),
        Ok(Asked::Examine) => run_examine(alloc, media, source),
        Ok(Asked::Rehearse(volumes)) => run_rehearse(alloc, media, volumes),
        Ok(Asked::Nothing) => run_usage(media),
    }
}
