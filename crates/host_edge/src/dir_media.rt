//! Files of a folder as a media.

ghost use Rattle.std.specs.Prelude.{◌≡◌, ◌≢◌, ◌≤◌, ◌⊎◌, length, IfOk, OnOk, OnErr, IfSome, Some, Err};
ghost use Rattle.std.specs.String.{string_bytes};
ghost use Rattle.std.specs.Io.KnownBytes.{WriteAppends};
ghost use Rattle.host_edge.specs.Slots.{path_of};
ghost use Rattle.crash_moments.specs.Moments.{HasCause};
ghost use Rattle.host_edge.specs.declared.fault.EdgeFault.TheVariants.{TooMany};

use crate::apart::check_apart;
use crate::calls::write_again;
use crate::counting::counted;
use crate::disk_file::DiskFile;
use crate::fault::{EdgeFault, at_path};
use crate::files::{make_folder, sync_folder};
use crate::refusal::{Explains, ExplainsMedia, Refusal};
use crate::slots::{
    Journal, changed, file_among, lengths_of, open_journal, open_slots, path_of, same_length,
    slot_at,
};
use crate::waiting::Waiting;
use crash_moments::raised;
use media_core::{Failed, Media};
use std::alloc::AllocError;
use std::io::{self, ErrorKind, Write};
use std::rt::Files;

/// The files `journal` and `slot0` to `slot255` of a folder, and an output. File 0 is the journal; a slot is here
/// where its file is there at the opening. `lengths` are the lengths that the opening found and the writes of this
/// program left: a file of another length is a fault. Before each write to a file, and before each wait until it is
/// on the disk, its length is asked, and before the wait also whether its path leads to it still. Small writes behind
/// one another wait, and go to their file as one, at the latest when it is synced or read. The refusals are the last
/// ones.
#[derive(Drop)]
pub struct DirMedia<R: Drop, F: Drop, W: Drop> {
    rt: R,
    journal: F,
    slots: Vec<Option<F>>,
    lengths: Vec<u64>,
    waiting: Waiting,
    output: W,
    faults: u64,
    tell_faults: u64,
    folder: String,
    refused: Option<Refusal>,
    output_refused: Option<io::Error>,
    is_made: bool,
    ghost all_slots: { length slots.items ≡ 256 },
}

impl<R: Drop, F: DiskFile + Drop, W: Write + Drop> DirMedia<R, F, W> {
    ghost use Rattle.host_edge.specs.Shown.{folder_of};

    /// The path of the file of a number.
    fn path(&self, f: u32) -> Result<String, AllocError>
        ensures { IfOk result (λ path. string_bytes path ≡ path_of (folder_of self.now) f) }
    {
        path_of(*self.lengths.allocator(), self.folder.as_str(), f)
    }
}

impl<R: Files<File = F> + AllocGlobal + Clone + Drop, F: DiskFile + Drop, W: Write + Drop> DirMedia<
    R,
    F,
    W,
> {
    ghost use Rattle.host_edge.specs.Nodes.{AreToldApart};
    ghost use Rattle.host_edge.specs.Shown.{file_of, folder_of, output_of, present_of, waiting_of, faults_of, tell_faults_of, HasLength};
    ghost use Rattle.host_edge.specs.Waits.{NoneFor};

    /// Opens a folder, which is made where it is absent, as is an empty `journal`; the folder that it stands in is
    /// there. What the files have, and their names, is on the disk then. No file gets the number of a standard
    /// stream. Two names of one file are refused, and so is what is no regular file.
    pub fn open(rt: &R, folder: &str, output: W) -> Result<Self, EdgeFault>
        ensures output { IfOk result (λ media. output_of media ≡ output) }
        ensures faults { IfOk result (λ media. (faults_of media ≡ 0) × (tell_faults_of media ≡ 0)) }
        ensures apart { IfOk result (λ media. AreToldApart F.is_node (file_of media)) }
        ensures few { result ≢ Err TooMany }
    {
        let alloc = rt.alloc();
        at_path(alloc, folder, make_folder(rt, folder))?;
        let Journal {
            file: journal,
            is_made,
        } = open_journal(rt, alloc, folder)?;
        let slots = open_slots(rt, alloc, folder)?;
        check_apart(alloc, folder, &journal, slots.as_slice())?;
        let lengths = at_path(alloc, folder, lengths_of(alloc, &journal, slots.as_slice()))?;
        at_path(alloc, folder, sync_folder(rt, folder))?;
        Ok(DirMedia {
            rt: rt.clone()?,
            journal,
            slots,
            lengths,
            waiting: Waiting::new(alloc)?,
            output,
            faults: 0,
            tell_faults: 0,
            folder: String::from_str(alloc, folder)?,
            refused: None,
            output_refused: None,
            is_made,
        })
    }

    /// The file of a number.
    fn file(&self, f: u32) -> io::Result<&F>
        ensures { IfOk result (λ file. file_of self.now f ≡ Some file.now) }
    {
        match file_among(&self.journal, self.slots.as_slice(), f) {
            Some(file) => Ok(file),
            None => Err(changed()),
        }
    }

    fn len_of(&self, f: u32) -> io::Result<u64>
        requires { NoneFor f (waiting_of self.now) }
        ensures same { OnOk result (IfSome (file_of self.now f) (HasLength F.measured self.now f)) }
        ensures told { IfOk result (λ length. IfSome (file_of self.now f) (λ file. F.measured file length)) }
    {
        same_length(self.file(f)?, self.lengths.as_slice(), f)
    }

    fn read_from(&self, f: u32, at: u64, into: &mut [u8]) -> io::Result<()>
        requires { NoneFor f (waiting_of self.now) }
        ensures { OnOk result (IfSome (file_of self.now f) (λ file. F.gave file at into.new)) }
    {
        self.file(f)?.read_all_at(into, at)
    }

    /// Refuses a file to which its path doesn't lead any more.
    fn stay_under(&self, f: u32) -> io::Result<()>
        ensures { OnOk result (IfSome (file_of self.now f) (λ file. F.is_under file (path_of (folder_of self.now) f))) }
    {
        let path = self.path(f)?;
        if self.file(f)?.is_under(&self.rt, path.as_str())? {
            Ok(())
        } else {
            Err(changed())
        }
    }

    fn sync_of(&self, f: u32) -> io::Result<()>
        requires { NoneFor f (waiting_of self.now) }
        ensures measured { OnOk result (IfSome (file_of self.now f) (HasLength F.measured self.now f)) }
        ensures placed { OnOk result (IfSome (file_of self.now f) (λ file. F.is_under file (path_of (folder_of self.now) f))) }
        ensures settled { OnOk result (IfSome (file_of self.now f) (λ file. F.settled file)) }
    {
        self.len_of(f)?;
        self.stay_under(f)?;
        self.file(f)?.settle()
    }
}

impl<R: Files<File = F> + AllocGlobal + Clone + Drop, F: DiskFile + Drop, W: Write + Drop> Media
    for DirMedia<R, F, W> {
    ghost use Rattle.std.proofs.Common.{refl, lit≤};
    ghost use Rattle.crash_moments.specs.Moments.{silent};
    ghost use Rattle.media_core.specs.Media.{nothing};
    ghost use Rattle.host_edge.specs.Here.{here_below};
    ghost use Rattle.host_edge.specs.Shown.{file_of, folder_of, output_of, present_of, waiting_of, faults_of, tell_faults_of, refused_of, HasLength, IsRefusalAt};
    ghost use Rattle.host_edge.specs.Waits.{NoneFor, IsKept, HasJoined, HasPassed};

    ghost tells = { ⊥ };

    ghost seen = { λ m. nothing };

    ghost time = { silent };

    ghost count = { λ m. 257 };

    ghost present = { present_of };

    ghost faults = { faults_of };

    ghost tell_faults = { tell_faults_of };

    ghost some_files = { λ m. lit≤ tt };

    ghost few_files = { λ m. lit≤ tt };

    ghost journal_here = { λ m. refl };

    ghost here_below = { λ m f. here_below m.slots.items m.all_slots f };

    ghost seen_may_be_left = { λ m told. absurd told };

    ghost told_left = { λ m c told. absurd told };

    fn count(&self) -> u32 {
        257
    }

    fn here(&self, f: u32) -> bool {
        if f == 0 {
            true
        } else {
            slot_at(self.slots.as_slice(), f as usize - 1).is_some()
        }
    }

    fn len(&mut self, f: u32) -> Result<u64, Failed>
        ensures length { IfOk result (λ length. IfSome (file_of self.old f) (λ file. F.measured file length)) }
        ensures none { OnOk result (NoneFor f (waiting_of self.new)) }
        ensures kept { IsKept F.took (file_of self.old f) f (waiting_of self.old) (waiting_of self.new) }
        ensures files { file_of self.new ≡ file_of self.old }
        ensures present { present_of self.new ≡ present_of self.old }
        ensures cause { HasCause (faults_of self.old) (faults_of self.new) result }
        ensures tell_faults { tell_faults_of self.new ≡ tell_faults_of self.old }
        ensures refused { OnErr result (IsRefusalAt f (refused_of self.new)) }
    {
        let file = file_among(&self.journal, self.slots.as_slice(), f);
        let given = self.waiting.give(f, file, &mut self.lengths);
        counted(&mut self.faults, &mut self.refused, f, given)?;
        let answer = self.len_of(f);
        counted(&mut self.faults, &mut self.refused, f, answer)
    }

    fn read(&mut self, f: u32, at: u64, into: &mut [u8]) -> Result<(), Failed>
        ensures gave { OnOk result (IfSome (file_of self.old f) (λ file. F.gave file at into.new)) }
        ensures none { OnOk result (NoneFor f (waiting_of self.new)) }
        ensures kept { IsKept F.took (file_of self.old f) f (waiting_of self.old) (waiting_of self.new) }
        ensures files { file_of self.new ≡ file_of self.old }
        ensures present { present_of self.new ≡ present_of self.old }
        ensures cause { HasCause (faults_of self.old) (faults_of self.new) result }
        ensures tell_faults { tell_faults_of self.new ≡ tell_faults_of self.old }
        ensures refused { OnErr result (IsRefusalAt f (refused_of self.new)) }
    {
        let file = file_among(&self.journal, self.slots.as_slice(), f);
        let given = self.waiting.give(f, file, &mut self.lengths);
        counted(&mut self.faults, &mut self.refused, f, given)?;
        let answer = self.read_from(f, at, into);
        counted(&mut self.faults, &mut self.refused, f, answer)
    }

    fn write(&mut self, f: u32, at: u64, from: &[u8]) -> Result<(), Failed>
        ensures measured { OnOk result (HasJoined f at from.now (waiting_of self.old) (waiting_of self.new) ⊎ IfSome (file_of self.old f) (HasLength F.measured self.old f)) }
        ensures taken { OnOk result (HasJoined f at from.now (waiting_of self.old) (waiting_of self.new) ⊎ HasPassed F.took (file_of self.old f) f at from.now (waiting_of self.old) (waiting_of self.new)) }
        ensures kept { OnErr result (IsKept F.took (file_of self.old f) f (waiting_of self.old) (waiting_of self.new)) }
        ensures files { file_of self.new ≡ file_of self.old }
        ensures present { present_of self.new ≡ present_of self.old }
        ensures cause { HasCause (faults_of self.old) (faults_of self.new) result }
        ensures tell_faults { tell_faults_of self.new ≡ tell_faults_of self.old }
        ensures refused { OnErr result (IsRefusalAt f (refused_of self.new)) }
    {
        let file = file_among(&self.journal, self.slots.as_slice(), f);
        let answer = self.waiting.take(f, at, from, file, &mut self.lengths);
        counted(&mut self.faults, &mut self.refused, f, answer)?;
        Ok(())
    }

    fn sync(&mut self, f: u32) -> Result<(), Failed>
        ensures measured { OnOk result (IfSome (file_of self.old f) (HasLength F.measured self.old f)) }
        ensures left { OnOk result (IfSome (file_of self.old f) (HasLength F.measured self.new f)) }
        ensures placed { OnOk result (IfSome (file_of self.old f) (λ file. F.is_under file (path_of (folder_of self.old) f))) }
        ensures settled { OnOk result (IfSome (file_of self.old f) (λ file. F.settled file)) }
        ensures none { OnOk result (NoneFor f (waiting_of self.new)) }
        ensures kept { IsKept F.took (file_of self.old f) f (waiting_of self.old) (waiting_of self.new) }
        ensures files { file_of self.new ≡ file_of self.old }
        ensures present { present_of self.new ≡ present_of self.old }
        ensures cause { HasCause (faults_of self.old) (faults_of self.new) result }
        ensures tell_faults { tell_faults_of self.new ≡ tell_faults_of self.old }
        ensures refused { OnErr result (IsRefusalAt f (refused_of self.new)) }
    {
        let file = file_among(&self.journal, self.slots.as_slice(), f);
        let given = self.waiting.give(f, file, &mut self.lengths);
        counted(&mut self.faults, &mut self.refused, f, given)?;
        let answer = self.sync_of(f);
        counted(&mut self.faults, &mut self.refused, f, answer)
    }

    fn tell(&mut self, piece: &[u8]) -> Result<usize, Failed>
        ensures front { IfOk result (λ n. n ≤ length piece.now) }
        ensures some { IfOk result (λ n. n ≡ 0 → length piece.now ≡ 0) }
        ensures bytes { WriteAppends (W.contents (output_of self.old)) (W.contents (output_of self.new)) result piece.now }
        ensures files { file_of self.new ≡ file_of self.old }
        ensures present { present_of self.new ≡ present_of self.old }
        ensures cause { HasCause (tell_faults_of self.old) (tell_faults_of self.new) result }
        ensures faults { faults_of self.new ≡ faults_of self.old }
    {
        let cause = match write_again(&mut self.output, piece) {
            Ok(count) if count > 0 || piece.is_empty() => return Ok(count),
            Ok(_) => io::Error::from(ErrorKind::WriteZero),
            Err(cause) => cause,
        };
        self.output_refused = Some(cause);
        self.tell_faults = raised(self.tell_faults);
        Err(Failed)
    }
}

impl<R: Drop, F: DiskFile + Drop, W: Write + Drop> Explains for DirMedia<R, F, W> {
    fn explain_fault<E: Write>(&self, errors: &mut E) -> io::Result<()> {
        match &self.refused {
            None => Ok(()),
            Some(refusal) => {
                let path = self.path(refusal.file)?;
                writeln!(errors, "{path}: {}", refusal.cause)
            }
        }
    }
}

impl<R: Drop, F: DiskFile + Drop, W: Write + Drop> ExplainsMedia for DirMedia<R, F, W> {
    fn explain_made<E: Write>(&self, errors: &mut E) -> io::Result<()> {
        if self.is_made {
            writeln!(errors, "{}: made a new, empty database", self.folder)
        } else {
            Ok(())
        }
    }

    fn explain_output<E: Write>(&self, errors: &mut E) -> io::Result<()> {
        match &self.output_refused {
            None => Ok(()),
            Some(cause) => writeln!(errors, "standard output: {cause}"),
        }
    }

    fn explain_log<E: Write>(&self, errors: &mut E, at: u64) -> io::Result<()> {
        let path = self.path(0)?;
        writeln!(errors, "{path}: no list of changes from byte {at} on")
    }
}
