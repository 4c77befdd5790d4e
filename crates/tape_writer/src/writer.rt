//! The writer, which counts a tape.

ghost use Rattle.std.specs.Prelude.{◌≡◌, ◌≢◌, ◌↔◌, ◌+◌, ◌≤◌, ◌<◌, ℕ, [], ◌∷◌, Some, Err, OnOk, OnErr, IsTrue, All};
ghost use Rattle.std.specs.Option.{option_copied};
ghost use Rattle.crash_moments.specs.Moments.{HasCauseAt};
ghost use Rattle.plant_effects.specs.Runs.{loaded_of, Done, Leaves, StaysQuiet};
ghost use Rattle.tape_frames.specs.declared.frame.Frame.{Frame};
ghost use Rattle.tape_frames.specs.declared.frame.Frame.TheVariants as frames;
ghost use Rattle.tape_frames.specs.Frames.{spelling};
ghost use Rattle.tape_text.specs.Items.{Says, Filemark, IsFitItem};
ghost use Rattle.tape_writer.specs.Room.{more, with_label, HasRoom, LacksRoom};
ghost use Rattle.tape_writer.specs.Puts.{IsCounted, records_of, puts_on, begun};

use crate::fault::WriteFault;
use crate::puts::{put_closed, put_frame};
use plant_core::{Block, Plant};
use std::marker::Model;
use tape_config::{Port, PortFields};
use tape_frames::{Data, DumpEnd, DumpHead, Label, VolEnd, VolHead};

/// How many blocks and filemarks stand on a tape of a port, no more filemarks than blocks. A fresh tape that gets a part
/// needs room for 6 blocks and 3 filemarks.
#[derive(Debug, Drop)]
pub struct Writer {
    port: PortFields,
    blocks: u32,
    marks: u32,
}

impl Model for Writer {
    ghost use Rattle.std.specs.Prelude.{◌≤◌};
    ghost use Rattle.tape_config.specs.Ports.{IsWithinLimits};
    ghost use Rattle.tape_writer.specs.Room.{Counts};

    ghost Value = { Counts };

    ghost view = { λ w. record { port = w.port; blocks = w.blocks; marks = w.marks } };

    ghost invariant = { λ w. IsWithinLimits w.port × (w.marks ≤ w.blocks) };
}

impl Writer {
    /// Counts a tape that has so many blocks and filemarks.
    pub fn new(port: &Port, used_blocks: u32, used_marks: u32) -> Writer
        requires { used_marks ≤ used_blocks }
        ensures { result ≡ record { port = port.now; blocks = used_blocks; marks = used_marks } }
    {
        Writer {
            port: port.fields(),
            blocks: used_blocks,
            marks: used_marks,
        }
    }

    /// Whether so many blocks and filemarks more stay within the capacity: 6 and 3 on a tape that is taken, and 5 and 2 where a part
    /// is appended.
    pub fn has_room(&self, blocks: u64, marks: u64) -> bool
        requires blocks { blocks ≤ 6 }
        requires marks { marks ≤ 3 }
        ensures { IsTrue result ↔ HasRoom blocks marks self.now }
    {
        let taken = (self.blocks as u64 + blocks) * 16384;
        let marked = (self.marks as u64 + marks) * self.port.filemark;
        taken + marked <= self.port.capacity
    }

    /// Puts the block of a frame, where it and what must follow it, so many blocks and two filemarks, stay within the capacity.
    fn put_open<P: Plant>(
        &mut self,
        plant: &mut P,
        need: u64,
        block: &Block,
    ) -> Result<(), WriteFault>
        requires counted { IsCounted P.Plant (records_of self.old) plant.old }
        requires some { 1 ≤ need }
        requires few { need ≤ 6 }
        ensures full { result ≡ Err WriteFault.TapeFull ↔ LacksRoom need 2 self.old }
        ensures full_same { result ≡ Err WriteFault.TapeFull → plant.new ≡ plant.old }
        ensures err_same { OnErr result (self.new ≡ self.old) }
        ensures counts { OnOk result (self.new ≡ more 1 0 self.old) }
        ensures counted { OnOk result (IsCounted P.Plant (records_of self.new) plant.new) }
        ensures done { (k : ℕ) (f : Frame) → loaded_of P.Plant plant.old ≡ Some k → block.now ≡ spelling f → OnOk result (Done P.Plant (puts_on k (Says f ∷ [])) plant.old plant.new) }
        ensures leaves { (k : ℕ) (f : Frame) → loaded_of P.Plant plant.old ≡ Some k → block.now ≡ spelling f → Leaves P.Plant (puts_on k (Says f ∷ [])) plant.old plant.new }
        ensures loaded { OnOk result (loaded_of P.Plant plant.new ≡ loaded_of P.Plant plant.old) }
        ensures log_size { OnOk result ((P.view plant.new).log_size ≡ (P.view plant.old).log_size) }
        ensures stays { StaysQuiet P.Plant plant.old plant.new }
        ensures cause { HasCauseAt WriteFault.Failed (P.view plant.old).faults (P.view plant.new).faults result }
    {
        if !self.has_room(need, 2) {
            return Err(WriteFault::TapeFull);
        }
        put_frame(plant, block)?;
        self.blocks += 1;
        Ok(())
    }

    /// Puts the block of a frame and a filemark, for which there is room.
    fn put_end<P: Plant>(&mut self, plant: &mut P, block: &Block) -> Result<(), WriteFault>
        requires counted { IsCounted P.Plant (records_of self.old) plant.old }
        requires room { HasRoom 1 1 self.old }
        ensures never_full { result ≢ Err WriteFault.TapeFull }
        ensures err_same { OnErr result (self.new ≡ self.old) }
        ensures counts { OnOk result (self.new ≡ more 1 1 self.old) }
        ensures counted { OnOk result (IsCounted P.Plant (records_of self.new) plant.new) }
        ensures done { (k : ℕ) (f : Frame) → loaded_of P.Plant plant.old ≡ Some k → block.now ≡ spelling f → OnOk result (Done P.Plant (puts_on k (Says f ∷ Filemark ∷ [])) plant.old plant.new) }
        ensures leaves { (k : ℕ) (f : Frame) → loaded_of P.Plant plant.old ≡ Some k → block.now ≡ spelling f → Leaves P.Plant (puts_on k (Says f ∷ Filemark ∷ [])) plant.old plant.new }
        ensures loaded { OnOk result (loaded_of P.Plant plant.new ≡ loaded_of P.Plant plant.old) }
        ensures log_size { OnOk result ((P.view plant.new).log_size ≡ (P.view plant.old).log_size) }
        ensures stays { StaysQuiet P.Plant plant.old plant.new }
        ensures cause { HasCauseAt WriteFault.Failed (P.view plant.old).faults (P.view plant.new).faults result }
    {
        let (blocks, marks) = (self.blocks + 1, self.marks + 1);
        put_closed(plant, block)?;
        self.blocks = blocks;
        self.marks = marks;
        Ok(())
    }

    /// Puts a label, a filemark and a part's head.
    fn begin_labeled<P: Plant>(
        &mut self,
        plant: &mut P,
        label: &Label,
        head: &DumpHead,
    ) -> Result<(), WriteFault>
        requires { IsCounted P.Plant (records_of self.old) plant.old }
        ensures full { result ≡ Err WriteFault.TapeFull ↔ LacksRoom 5 2 (more 1 1 self.old) }
        ensures full_same { result ≡ Err WriteFault.TapeFull → plant.new ≡ plant.old }
        ensures err_same { OnErr result (self.new ≡ self.old) }
        ensures counts { OnOk result (self.new ≡ more 1 0 (more 1 1 self.old)) }
        ensures room { OnOk result (HasRoom 4 2 self.new) }
        ensures counted { OnOk result (IsCounted P.Plant (records_of self.new) plant.new) }
        ensures fit { All IsFitItem (Says (frames.Label label.now) ∷ Filemark ∷ Says (frames.DumpHead head.now) ∷ []) }
        ensures done { (k : ℕ) → loaded_of P.Plant plant.old ≡ Some k → OnOk result (Done P.Plant (puts_on k (Says (frames.Label label.now) ∷ Filemark ∷ Says (frames.DumpHead head.now) ∷ [])) plant.old plant.new) }
        ensures leaves { (k : ℕ) → loaded_of P.Plant plant.old ≡ Some k → Leaves P.Plant (puts_on k (Says (frames.Label label.now) ∷ Filemark ∷ Says (frames.DumpHead head.now) ∷ [])) plant.old plant.new }
        ensures loaded { OnOk result (loaded_of P.Plant plant.new ≡ loaded_of P.Plant plant.old) }
        ensures log_size { OnOk result ((P.view plant.new).log_size ≡ (P.view plant.old).log_size) }
        ensures stays { StaysQuiet P.Plant plant.old plant.new }
        ensures cause { HasCauseAt WriteFault.Failed (P.view plant.old).faults (P.view plant.new).faults result }
    {
        let mut first = [0; 16384];
        label.encode(&mut first);
        let mut second = [0; 16384];
        head.encode(&mut second);
        if !self.has_room(6, 3) {
            return Err(WriteFault::TapeFull);
        }
        put_closed(plant, &first)?;
        put_frame(plant, &second)?;
        self.blocks += 2;
        self.marks += 1;
        Ok(())
    }

    /// Puts a part's head.
    fn begin_part<P: Plant>(&mut self, plant: &mut P, head: &DumpHead) -> Result<(), WriteFault>
        requires { IsCounted P.Plant (records_of self.old) plant.old }
        ensures full { result ≡ Err WriteFault.TapeFull ↔ LacksRoom 5 2 self.old }
        ensures full_same { result ≡ Err WriteFault.TapeFull → plant.new ≡ plant.old }
        ensures err_same { OnErr result (self.new ≡ self.old) }
        ensures counts { OnOk result (self.new ≡ more 1 0 self.old) }
        ensures room { OnOk result (HasRoom 4 2 self.new) }
        ensures counted { OnOk result (IsCounted P.Plant (records_of self.new) plant.new) }
        ensures fit { All IsFitItem (Says (frames.DumpHead head.now) ∷ []) }
        ensures done { (k : ℕ) → loaded_of P.Plant plant.old ≡ Some k → OnOk result (Done P.Plant (puts_on k (Says (frames.DumpHead head.now) ∷ [])) plant.old plant.new) }
        ensures leaves { (k : ℕ) → loaded_of P.Plant plant.old ≡ Some k → Leaves P.Plant (puts_on k (Says (frames.DumpHead head.now) ∷ [])) plant.old plant.new }
        ensures loaded { OnOk result (loaded_of P.Plant plant.new ≡ loaded_of P.Plant plant.old) }
        ensures log_size { OnOk result ((P.view plant.new).log_size ≡ (P.view plant.old).log_size) }
        ensures stays { StaysQuiet P.Plant plant.old plant.new }
        ensures cause { HasCauseAt WriteFault.Failed (P.view plant.old).faults (P.view plant.new).faults result }
    {
        let mut block = [0; 16384];
        head.encode(&mut block);
        self.put_open(plant, 5, &block)
    }

    /// Begins a part: on a tape that is taken with its label and a filemark, else behind what stands there. It is `TapeFull`
    /// exactly where a fragment's head, a piece, and the ends of fragment and part with their filemarks wouldn't stay within
    /// the capacity behind that; then nothing is put. It takes no memory.
    pub fn begin_tape<P: Plant>(
        &mut self,
        plant: &mut P,
        label: Option<&Label>,
        head: &DumpHead,
    ) -> Result<(), WriteFault>
        requires { IsCounted P.Plant (records_of self.old) plant.old }
        ensures full { result ≡ Err WriteFault.TapeFull ↔ LacksRoom 5 2 (with_label (option_copied label.entry) self.old) }
        ensures full_same { result ≡ Err WriteFault.TapeFull → plant.new ≡ plant.old }
        ensures err_same { OnErr result (self.new ≡ self.old) }
        ensures counts { OnOk result (self.new ≡ more 1 0 (with_label (option_copied label.entry) self.old)) }
        ensures room { OnOk result (HasRoom 4 2 self.new) }
        ensures counted { OnOk result (IsCounted P.Plant (records_of self.new) plant.new) }
        ensures fit { All IsFitItem (begun (option_copied label.entry) head.now) }
        ensures done { (k : ℕ) → loaded_of P.Plant plant.old ≡ Some k → OnOk result (Done P.Plant (puts_on k (begun (option_copied label.entry) head.now)) plant.old plant.new) }
        ensures leaves { (k : ℕ) → loaded_of P.Plant plant.old ≡ Some k → Leaves P.Plant (puts_on k (begun (option_copied label.entry) head.now)) plant.old plant.new }
        ensures loaded { OnOk result (loaded_of P.Plant plant.new ≡ loaded_of P.Plant plant.old) }
        ensures log_size { OnOk result ((P.view plant.new).log_size ≡ (P.view plant.old).log_size) }
        ensures stays { StaysQuiet P.Plant plant.old plant.new }
        ensures cause { HasCauseAt WriteFault.Failed (P.view plant.old).faults (P.view plant.new).faults result }
    {
        match label {
            Some(label) => self.begin_labeled(plant, label, head),
            None => self.begin_part(plant, head),
        }
    }

    /// Puts the head of a volume's fragment. It is `TapeFull` exactly where a piece, and the ends of fragment and part with
    /// their filemarks, wouldn't stay within the capacity behind it; then nothing is put. It takes no memory.
    pub fn begin_volume<P: Plant>(
        &mut self,
        plant: &mut P,
        head: &VolHead,
    ) -> Result<(), WriteFault>
        requires { IsCounted P.Plant (records_of self.old) plant.old }
        ensures full { result ≡ Err WriteFault.TapeFull ↔ LacksRoom 4 2 self.old }
        ensures full_same { result ≡ Err WriteFault.TapeFull → plant.new ≡ plant.old }
        ensures err_same { OnErr result (self.new ≡ self.old) }
        ensures counts { OnOk result (self.new ≡ more 1 0 self.old) }
        ensures room { OnOk result (HasRoom 3 2 self.new) }
        ensures counted { OnOk result (IsCounted P.Plant (records_of self.new) plant.new) }
        ensures fit { All IsFitItem (Says (frames.VolHead head.now) ∷ []) }
        ensures done { (k : ℕ) → loaded_of P.Plant plant.old ≡ Some k → OnOk result (Done P.Plant (puts_on k (Says (frames.VolHead head.now) ∷ [])) plant.old plant.new) }
        ensures leaves { (k : ℕ) → loaded_of P.Plant plant.old ≡ Some k → Leaves P.Plant (puts_on k (Says (frames.VolHead head.now) ∷ [])) plant.old plant.new }
        ensures loaded { OnOk result (loaded_of P.Plant plant.new ≡ loaded_of P.Plant plant.old) }
        ensures log_size { OnOk result ((P.view plant.new).log_size ≡ (P.view plant.old).log_size) }
        ensures stays { StaysQuiet P.Plant plant.old plant.new }
        ensures cause { HasCauseAt WriteFault.Failed (P.view plant.old).faults (P.view plant.new).faults result }
    {
        let mut block = [0; 16384];
        head.encode(&mut block);
        self.put_open(plant, 4, &block)
    }

    /// Puts a piece of a volume's stream. It is `TapeFull` exactly where the ends of fragment and part with their filemarks
    /// wouldn't stay within the capacity behind it; then nothing is put. It takes no memory.
    pub fn data<P: Plant>(&mut self, plant: &mut P, piece: &Data) -> Result<(), WriteFault>
        requires { IsCounted P.Plant (records_of self.old) plant.old }
        ensures full { result ≡ Err WriteFault.TapeFull ↔ LacksRoom 3 2 self.old }
        ensures full_same { result ≡ Err WriteFault.TapeFull → plant.new ≡ plant.old }
        ensures err_same { OnErr result (self.new ≡ self.old) }
        ensures counts { OnOk result (self.new ≡ more 1 0 self.old) }
        ensures room { OnOk result (HasRoom 2 2 self.new) }
        ensures counted { OnOk result (IsCounted P.Plant (records_of self.new) plant.new) }
        ensures fit { All IsFitItem (Says (frames.Data piece.now) ∷ []) }
        ensures done { (k : ℕ) → loaded_of P.Plant plant.old ≡ Some k → OnOk result (Done P.Plant (puts_on k (Says (frames.Data piece.now) ∷ [])) plant.old plant.new) }
        ensures leaves { (k : ℕ) → loaded_of P.Plant plant.old ≡ Some k → Leaves P.Plant (puts_on k (Says (frames.Data piece.now) ∷ [])) plant.old plant.new }
        ensures loaded { OnOk result (loaded_of P.Plant plant.new ≡ loaded_of P.Plant plant.old) }
        ensures log_size { OnOk result ((P.view plant.new).log_size ≡ (P.view plant.old).log_size) }
        ensures stays { StaysQuiet P.Plant plant.old plant.new }
        ensures cause { HasCauseAt WriteFault.Failed (P.view plant.old).faults (P.view plant.new).faults result }
    {
        let mut block = [0; 16384];
        piece.encode(&mut block);
        self.put_open(plant, 3, &block)
    }

    /// Puts the end of a volume's fragment and a filemark. A head or a piece before it left room for that and for the end of
    /// the part. It takes no memory.
    pub fn end_volume<P: Plant>(&mut self, plant: &mut P, end: &VolEnd) -> Result<(), WriteFault>
        requires counted { IsCounted P.Plant (records_of self.old) plant.old }
        requires room { HasRoom 2 2 self.old }
        ensures never_full { result ≢ Err WriteFault.TapeFull }
        ensures err_same { OnErr result (self.new ≡ self.old) }
        ensures counts { OnOk result (self.new ≡ more 1 1 self.old) }
        ensures room { OnOk result (HasRoom 1 1 self.new) }
        ensures counted { OnOk result (IsCounted P.Plant (records_of self.new) plant.new) }
        ensures fit { All IsFitItem (Says (frames.VolEnd end.now) ∷ Filemark ∷ []) }
        ensures done { (k : ℕ) → loaded_of P.Plant plant.old ≡ Some k → OnOk result (Done P.Plant (puts_on k (Says (frames.VolEnd end.now) ∷ Filemark ∷ [])) plant.old plant.new) }
        ensures leaves { (k : ℕ) → loaded_of P.Plant plant.old ≡ Some k → Leaves P.Plant (puts_on k (Says (frames.VolEnd end.now) ∷ Filemark ∷ [])) plant.old plant.new }
        ensures loaded { OnOk result (loaded_of P.Plant plant.new ≡ loaded_of P.Plant plant.old) }
        ensures log_size { OnOk result ((P.view plant.new).log_size ≡ (P.view plant.old).log_size) }
        ensures stays { StaysQuiet P.Plant plant.old plant.new }
        ensures cause { HasCauseAt WriteFault.Failed (P.view plant.old).faults (P.view plant.new).faults result }
    {
        let mut block = [0; 16384];
        end.encode(&mut block);
        self.put_end(plant, &block)
    }

    /// Puts the end of a part and a filemark. The end of the fragment before it left room for that. It takes no memory.
    pub fn end_dump<P: Plant>(&mut self, plant: &mut P, end: &DumpEnd) -> Result<(), WriteFault>
        requires counted { IsCounted P.Plant (records_of self.old) plant.old }
        requires room { HasRoom 1 1 self.old }
        ensures never_full { result ≢ Err WriteFault.TapeFull }
        ensures err_same { OnErr result (self.new ≡ self.old) }
        ensures counts { OnOk result (self.new ≡ more 1 1 self.old) }
        ensures room { OnOk result (HasRoom 0 0 self.new) }
        ensures counted { OnOk result (IsCounted P.Plant (records_of self.new) plant.new) }
        ensures fit { All IsFitItem (Says (frames.DumpEnd end.now) ∷ Filemark ∷ []) }
        ensures done { (k : ℕ) → loaded_of P.Plant plant.old ≡ Some k → OnOk result (Done P.Plant (puts_on k (Says (frames.DumpEnd end.now) ∷ Filemark ∷ [])) plant.old plant.new) }
        ensures leaves { (k : ℕ) → loaded_of P.Plant plant.old ≡ Some k → Leaves P.Plant (puts_on k (Says (frames.DumpEnd end.now) ∷ Filemark ∷ [])) plant.old plant.new }
        ensures loaded { OnOk result (loaded_of P.Plant plant.new ≡ loaded_of P.Plant plant.old) }
        ensures log_size { OnOk result ((P.view plant.new).log_size ≡ (P.view plant.old).log_size) }
        ensures stays { StaysQuiet P.Plant plant.old plant.new }
        ensures cause { HasCauseAt WriteFault.Failed (P.view plant.old).faults (P.view plant.new).faults result }
    {
        let mut block = [0; 16384];
        end.encode(&mut block);
        self.put_end(plant, &block)
    }
}
