//! Laws, each the contract of a function without a body.

ghost use Rattle.std.specs.Prelude.{◌≡◌, ◌↔◌, ℕ, List as AnyList, ◌++◌, take};
ghost use Rattle.plant_core.specs.Records.{Record};
ghost use Rattle.tape_text.specs.Items.{Item, ReadsAs, Read, record_for, IsFitItem};
ghost use Rattle.tape_text.specs.Texts.{Part, part_items, IsText};

use tape_frames::one_frame;

/// A record says one thing.
pub fn one_item()
    ensures { (r : Record) (i j : Item) → ReadsAs r i → ReadsAs r j → i ≡ j }
{
    one_frame();
}

/// The record that is put for a frame or a filemark says it.
pub fn a_fit_item_is_read()
    ensures { (i : Item) → IsFitItem i → ReadsAs (record_for i) i }
{}

/// A frame or a filemark is said by its own record alone.
pub fn reads_by_its_record()
    ensures { (r : Record) (i : Item) → IsFitItem i → (ReadsAs r i ↔ (r ≡ record_for i)) }
{}

/// Records are read as one list of items.
pub fn one_reading()
    ensures { (rs : AnyList Record) (is js : AnyList Item) → Read rs is → Read rs js → is ≡ js }
{
    one_frame();
}

/// What is read of records one behind another is read of all of them.
pub fn records_joined()
    ensures { (rs more : AnyList Record) (is js : AnyList Item) → Read rs is → Read more js → Read (rs ++ more) (is ++ js) }
{}

/// What a part says is one thing: its items begin no other part's.
pub fn no_part_begins_another()
    ensures { (p q : Part) (xs ys : AnyList Item) → part_items p ++ xs ≡ part_items q ++ ys → (p ≡ q) × (xs ≡ ys) }
{}

/// A tape text may end after any record.
pub fn a_front_of_a_text_is_one()
    ensures { (items : AnyList Item) (n : ℕ) → IsText items → IsText (take n items) }
{}
