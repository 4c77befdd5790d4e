//! The archive that media hold, from one run to the next.

ghost use Rattle.std.specs.Prelude.{ℕ, Bool as AnyBool, List as AnyList};
ghost use Rattle.plant_core.specs.Effects.{Effect};
ghost use Rattle.plant_core.specs.Stock.{Stock};
ghost use Rattle.tape_config.specs.Configs.{Settings};
ghost use Rattle.cell_core.specs.declared.stored.Stored.{Stored};
ghost use Rattle.budb_changes.specs.declared.change.Change.{Change};
ghost use Rattle.dump_archives.specs.Keeping.{KnowsIds};
ghost use Rattle.backup_session.specs.Worlds.{Contents, archive_of};
ghost use Rattle.backup_session.specs.Held.{HoldsArchive};
ghost use Rattle.session_archives.specs.Held.{HoldsImage};
ghost use Rattle.backup_top.specs.Courses.{world_at, Course, FindsVolumes, LeftImage, Journal};

/// What a crash, or the end of a run, leaves of media that held the archive is what a next run of as many files finds: media that hold the
/// archive of the journal's changes, with what the dumps had behind the effects that are left. So a run over it is said as one over media that never stopped.
/// And where the ids on tapes were known to the journal, the next run finds them known to its journal: so its world is fit for dumps as to its ids, be its
/// clock behind or not.
pub fn an_image_is_an_entry()
    ensures holds { (config later : Settings) (files : ℕ) (present : ℕ → AnyBool) (log : AnyList Change) (cell next : AnyList Stored) (before contents : Contents) (old image : Stock) (effects : AnyList Effect)
        → (held : HoldsImage (world_at config files present log cell before old) contents effects image) → HoldsArchive (world_at later files present held.changes next contents image) }
    ensures ids { (config later : Settings) (files : ℕ) (present : ℕ → AnyBool) (log : AnyList Change) (cell next : AnyList Stored) (before contents : Contents) (old image : Stock) (effects : AnyList Effect)
        → (held : HoldsImage (world_at config files present log cell before old) contents effects image) → KnowsIds (archive_of (world_at config files present log cell before old)) → KnowsIds (archive_of (world_at later files present held.changes next contents image)) }
{}

/// And the next run finds a journal there that is a list of changes, where what dumps have of volumes are volumes: by its
/// clauses `complete` and `bad_log` no image of a run is refused.
pub fn an_image_is_not_refused()
    ensures { (c : Course) (effects : AnyList Effect) (old image : Stock) → LeftImage c effects old image → FindsVolumes c → Journal image }
{}
