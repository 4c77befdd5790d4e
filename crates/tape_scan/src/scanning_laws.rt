//! Laws of what a scan of one tape tells, each the contract of a function without a body.

ghost use Rattle.std.specs.Prelude.{◌≡◌, ℕ, List};
ghost use Rattle.plant_core.specs.Records.{Record};
ghost use Rattle.tape_text.specs.Items.{Item, Read};
ghost use Rattle.tape_scan.specs.declared.sections.Sections.{Sections as AnySections};
ghost use Rattle.tape_scan.specs.Sections.{IsScanOf};

/// Of one tape one thing is told, whichever whole tape its front is completed to.
pub fn one_tape_is_told_once()
    ensures { (slot : ℕ) (items : List Item) (one other : AnySections) → IsScanOf slot items one → IsScanOf slot items other → one ≡ other }
{}

/// No tape's records are read as nothing: what holds however they are read, and can be tested, holds.
pub fn no_tape_is_unread()
    ensures { (tape : List Record) → ((items : List Item) → Read tape items → ⊥) → ⊥ }
{}
