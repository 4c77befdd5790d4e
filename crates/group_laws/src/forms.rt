//! Laws on the forms of what the end of a group writes and leaves, each the contract of a function without a body.

ghost use Rattle.std.specs.Prelude.{◌≤◌, length, All};
ghost use Rattle.byte_formats.specs.Forms.{IsFour};
ghost use Rattle.plant_core.specs.Effects.{come};
ghost use Rattle.dump_forms.specs.Journals.{IsJournalAfter};
ghost use Rattle.dump_courses.specs.Scenes.{Scene};
ghost use Rattle.dump_commands.specs.Forms.{IsSceneForm, IsCommandForm, AreShort, AreVolumes};
ghost use Rattle.dump_commands.specs.Answers.{Contents};
ghost use Rattle.group_commands.specs.Groups.{GroupView};
ghost use Rattle.group_commands.specs.Answers.{group_answer};

/// What the end of a group commits has bytes, where what it finds has its forms: the journal behind its effects is that of its changes.
pub fn what_an_end_commits_has_bytes()
    ensures { (s : Scene) (g : GroupView) → IsSceneForm s → All IsCommandForm g.held → IsJournalAfter s.log (group_answer s g).answer.effects (group_answer s g).answer.log }
{}

/// What the end of a group leaves has its forms, where what it finds has them: the session's time has four bytes; no tape has more records than
/// a number of four bytes counts, where no more dumps are held than a group holds; and what dumps have of volumes are volumes.
pub fn what_an_end_leaves_has_forms()
    ensures time { (s : Scene) (g : GroupView) → IsSceneForm s → IsFour (group_answer s g).answer.time }
    ensures tapes { (s : Scene) (g : GroupView) → IsSceneForm s → All IsCommandForm g.held → length g.held ≤ 16 → AreShort s.state.tape → AreShort (come (group_answer s g).answer.effects s.state).tape }
    ensures contents { (s : Scene) (g : GroupView) (contents : Contents) → IsSceneForm s → AreVolumes contents → AreVolumes ((group_answer s g).answer.contents contents) }
{}
