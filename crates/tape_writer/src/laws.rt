//! Laws on what is put, each the contract of a function without a body.

ghost use Rattle.std.specs.Prelude.{◌≡◌, ◌↔◌, ◌+◌, ◌*◌, ◌≤◌, ℕ, List as AnyList, [], ◌∷◌, ◌++◌, length, slice_get, Some, All};
ghost use Rattle.plant_core.specs.Crashes.{State, Alike};
ghost use Rattle.plant_core.specs.Effects.{come};
ghost use Rattle.tape_config.specs.declared.port.PortFields.{PortFields as AnyPort};
ghost use Rattle.tape_frames.specs.declared.data.DataFields.{DataFields as AnyData};
ghost use Rattle.tape_frames.specs.declared.dump_head.DumpHeadFields.{DumpHeadFields as AnyHead};
ghost use Rattle.tape_frames.specs.declared.label.LabelFields.{LabelFields as AnyLabel};
ghost use Rattle.tape_text.specs.Items.{Item, Read, IsFitItem};
ghost use Rattle.tape_text.specs.Texts.{Fragment, Part, Tape, tape_items};
ghost use Rattle.tape_text.specs.Parts.{parts_of};
ghost use Rattle.tape_writer.specs.Room.{Counts, more, HasRoom, LacksRoom};
ghost use Rattle.tape_writer.specs.Puts.{puts_on, with_items};
ghost use Rattle.tape_writer.specs.Filling.{Start, Dumping, taken, appended, placed, counted_with, Stays, HasNoRoomBehind, IsDumped, IsPut, TapeText};

/// Items put one behind another are put as one list.
pub fn puts_joined()
    ensures { (k : ℕ) (items more : AnyList Item) → puts_on k (items ++ more) ≡ puts_on k items ++ puts_on k more }
{}

/// What is put stands behind what stood on the tape, settled up to its last filemark. Nothing else changes.
pub fn what_is_put_stands()
    ensures { (k : ℕ) (items : AnyList Item) (s : State) → Alike (with_items k items s) (come (puts_on k items) s) }
{}

/// What is put is read behind what was read of the tape.
pub fn what_is_put_is_read()
    ensures { (k : ℕ) (items before : AnyList Item) (s : State) → All IsFitItem items → Read (s.tape k) before → Read ((come (puts_on k items) s).tape k) (before ++ items) }
{}

/// The smallest part, of one fragment with one piece, stays on a tape that is taken where its capacity has room for 6 blocks and
/// 3 filemarks.
pub fn smallest_part()
    ensures { (port : AnyPort) (label : AnyLabel) (old : AnyList Item) (p : Part) (f : Fragment) (d : AnyData) → p.fragments ≡ f ∷ [] → f.pieces ≡ d ∷ [] → Stays port (taken label old) p ↔ (6 * 16384 + 3 * port.filemark ≤ port.capacity) }
{}

/// What a writer ends where it has room stays within the capacity. Where it refuses a piece, or the head of a further volume, and
/// the part is ended then, the tape is full.
pub fn a_refused_frame_leaves_a_full_tape()
    ensures stays { (port : AnyPort) (s : Start) (p : Part) → HasRoom 0 0 (counted_with port s p) ↔ Stays port s p }
    ensures piece { (port : AnyPort) (s : Start) (p : Part) (f : Fragment) (c : Counts) → more 2 2 c ≡ counted_with port s p → f.end.last ≡ 0 → (LacksRoom 3 2 c ↔ HasNoRoomBehind port s p f) }
    ensures volume { (port : AnyPort) (s : Start) (p : Part) (f : Fragment) (c : Counts) → more 1 1 c ≡ counted_with port s p → f.end.last ≡ 1 → (LacksRoom 4 2 c ↔ HasNoRoomBehind port s p f) }
{}

/// A part that ends its dump on the tape on which it begins is a filling.
pub fn a_dump_on_one_tape_is_a_filling()
    ensures { (port : AnyPort) (cell : AnyList ℕ) (volumes : AnyList Dumping) (s : Start) (p : Part) → IsPut port cell s p → p.head.part ≡ 1 → p.end.more ≡ 0 → p.head.volumes ≡ length volumes → ((index : ℕ) (v : Dumping) → slice_get volumes index ≡ Some v → IsDumped p.head.id index p.fragments v) → TapeText port cell p.head volumes (s ∷ []) (p ∷ []) }
{}

/// What a dump puts on its tapes is one thing, to the byte: the port, the cell, the first head, the volumes with their streams, and
/// the tapes on which parts begin give the parts.
pub fn one_filling()
    ensures { (port : AnyPort) (cell : AnyList ℕ) (head : AnyHead) (volumes : AnyList Dumping) (starts : AnyList Start) (parts others : AnyList Part) → TapeText port cell head volumes starts parts → TapeText port cell head volumes starts others → parts ≡ others }
{}

/// On a tape that is taken a part is found where it is put: its head is record 2.
pub fn a_part_of_a_taken_tape_is_found()
    ensures { (label : AnyLabel) (old : AnyList Item) (p : Part) → parts_of (record { label = label; parts = p ∷ [] }) ≡ placed (taken label old ∷ []) (p ∷ []) }
{}

/// A part that is appended to a tape is found where it is put, behind all that stands there.
pub fn an_appended_part_is_found()
    ensures place { (t : Tape) → (appended t).blocks + (appended t).marks ≡ length (tape_items t) }
    ensures parts { (t : Tape) (p : Part) → parts_of (record t { parts = t.parts ++ p ∷ [] }) ≡ parts_of t ++ placed (appended t ∷ []) (p ∷ []) }
{}
