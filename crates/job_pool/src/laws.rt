//! Laws, each the contract of a function without a body.

ghost use Rattle.std.specs.Prelude.{◌≡◌, ℕ, Some, List as AnyList, [], ◌++◌};
ghost use Rattle.dump_courses.specs.Scenes.{Scene};
ghost use Rattle.dump_courses.specs.Courses.{Point, course};
ghost use Rattle.job_pool.specs.declared.turn.Turn.{Turn as AnyTurn};
ghost use Rattle.job_pool.specs.declared.turn.Kill.{Kill as AnyKill};
ghost use Rattle.job_pool.specs.Pools.{PoolPoint, turn_event, behind};
ghost use Rattle.job_pool.specs.Schedules.{next_number, next_turn, AllEnded};
ghost use Rattle.job_pool.specs.PoolCourses.{pool_course};
ghost use Rattle.job_pool.specs.Ones.{alone, IsCourse};

/// By a schedule dumps take turns until none runs, turn by turn.
pub fn dumps_by_a_schedule_end()
    ensures ends { (s : Scene) (kills : AnyList AnyKill) (x : ℕ) (p : PoolPoint) → AllEnded (pool_course s kills x p).jobs }
    ensures goes { (s : Scene) (kills : AnyList AnyKill) (x : ℕ) (p : PoolPoint) (t : AnyTurn) → next_turn kills x p.jobs ≡ Some t
        → let rest = pool_course s kills (next_number x) (behind p (turn_event s p t)) in
        pool_course s kills x p ≡ record { effects = (turn_event s p t).effects ++ rest.effects; log = rest.log; jobs = rest.jobs } }
    ensures stops { (s : Scene) (kills : AnyList AnyKill) (x : ℕ) (p : PoolPoint) → AllEnded p.jobs → pool_course s kills x p ≡ record { effects = []; log = p.log; jobs = p.jobs } }
{}

/// A pool of one dump that isn't killed does what the dump's course does, by each schedule.
pub fn a_dump_alone_goes_its_course()
    ensures { (s : Scene) (x : ℕ) (p : Point) (steps : ℕ) → IsCourse (pool_course s [] x (alone p steps)) (course s p) }
{}
