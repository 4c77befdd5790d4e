//! Laws, each the contract of a function without a body.

ghost use Rattle.std.specs.Prelude.{◌≡◌, ℕ, List as AnyList};
ghost use Rattle.plant_core.specs.Crashes.{IsSettled};
ghost use Rattle.plant_core.specs.Effects.{come};
ghost use Rattle.backup_words.specs.declared.command.DumpCommand.{DumpCommand as AnyCommand};
ghost use Rattle.dump_courses.specs.Scenes.{Scene};
ghost use Rattle.job_pool.specs.declared.turn.Kill.{Kill as AnyKill};
ghost use Rattle.job_pool.specs.Pools.{PoolPoint};
ghost use Rattle.job_pool.specs.PoolCourses.{pool_course};
ghost use Rattle.job_pool.specs.Pooled.{behind_effects};
ghost use Rattle.group_commands.specs.Groups.{GroupView};
ghost use Rattle.group_commands.specs.Begins.{group_course, starts_of, point_behind};
ghost use Rattle.group_commands.specs.Beginning.{begin_effects};
ghost use Rattle.group_commands.specs.Answers.{group_answer};

/// Behind the end of a group all is settled, where all was before, whatever its dumps came to.
pub fn a_group_settles_all()
    ensures { (s : Scene) (g : GroupView) → IsSettled s.state → IsSettled (come (group_answer s g).answer.effects s.state) }
{}

/// All dumps of a group begin before the first of them makes a step: a group goes on behind its begins as a pool of those that were begun.
pub fn a_group_begins_first()
    ensures course { (s : Scene) (kills : AnyList AnyKill) (x : ℕ) (held : AnyList AnyCommand) (p : PoolPoint) → group_course s kills x p (starts_of s p held) ≡ behind_effects (begin_effects s p held) (pool_course s kills x (point_behind s p held)) }
    ensures state { (s : Scene) (held : AnyList AnyCommand) (p : PoolPoint) → (point_behind s p held).state ≡ come (begin_effects s p held) p.state }
{}
