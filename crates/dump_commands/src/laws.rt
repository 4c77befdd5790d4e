//! Laws, each the contract of a function without a body.

ghost use Rattle.std.specs.Prelude.{◌≡◌, ℕ, List as AnyList, All, false, Ok, Err};
ghost use Rattle.byte_formats.specs.Forms.{IsFour};
ghost use Rattle.plant_core.specs.Effects.{come};
ghost use Rattle.vnode_model.specs.declared.listed.VolEntry.{VolEntry};
ghost use Rattle.volume_sets.specs.declared.sets.SetEntry.{SetEntry};
ghost use Rattle.volume_sets.specs.Expansions.{IsExpansion};
ghost use Rattle.cell_core.specs.Forms.{IsStoredForm};
ghost use Rattle.dump_forms.specs.Forms.{HasForms};
ghost use Rattle.dump_forms.specs.Journals.{IsJournalAfter};
ghost use Rattle.dump_courses.specs.Scenes.{Scene};
ghost use Rattle.dump_courses.specs.Courses.{Point, course};
ghost use Rattle.backup_words.specs.declared.command.DumpCommand.{DumpCommand as AnyCommand};
ghost use Rattle.dump_commands.specs.Expanding.{expansion};
ghost use Rattle.dump_commands.specs.Forms.{IsSceneForm, IsCommandForm, AreShort, AreVolumes};
ghost use Rattle.dump_commands.specs.Answers.{Contents, said, begun, dump_answer};
ghost use Rattle.dump_commands.specs.Starts.{Start, dump_start};

/// The expansion of a volume set, as a function of its entries, is that of its definition.
pub fn a_set_is_expanded()
    ensures { (entries : AnyList SetEntry) (cell : AnyList VolEntry) → IsExpansion entries cell (expansion entries cell) }
{}

/// What the course of a dump commits has bytes, from a point on at which the dump has its forms, over a cell of volumes of the types: the
/// journal behind it is that of its changes.
pub fn what_a_course_commits_has_bytes()
    ensures { (s : Scene) (p : Point) → All IsStoredForm s.cell → HasForms p.job → IsJournalAfter p.log (course s p).effects (course s p).log }
{}

/// What a dump commits has bytes, where what it finds has its forms: the journal behind its effects is that of its changes.
pub fn what_a_dump_commits_has_bytes()
    ensures { (s : Scene) (a : AnyCommand) → IsSceneForm s → IsCommandForm a → IsJournalAfter s.log (dump_answer s a).effects (dump_answer s a).log }
{}

/// What a dump leaves has its forms, where what it finds has them: the session's time has four bytes, no tape has more records than a number of four
/// bytes counts, and what dumps have of volumes are volumes.
pub fn what_a_dump_leaves_has_forms()
    ensures time { (s : Scene) (a : AnyCommand) → IsSceneForm s → IsFour (dump_answer s a).time }
    ensures tapes { (s : Scene) (a : AnyCommand) → IsSceneForm s → IsCommandForm a → AreShort s.state.tape → AreShort (come (dump_answer s a).effects s.state).tape }
    ensures contents { (s : Scene) (a : AnyCommand) (contents : Contents) → IsSceneForm s → AreVolumes contents → AreVolumes ((dump_answer s a).contents contents) }
{}

/// A dump that isn't tried out is begun on the tape on which it starts and goes its course, or it is told what it is refused by.
pub fn a_dump_starts_or_is_refused()
    ensures begun { (s : Scene) (a : AnyCommand) (b : Start) → a.trial ≡ false → dump_start s a ≡ Ok b → dump_answer s a ≡ begun s b.order b.tape }
    ensures refused { (s : Scene) (a : AnyCommand) (text : AnyList ℕ) → a.trial ≡ false → dump_start s a ≡ Err text → dump_answer s a ≡ said s text }
{}
