//! Laws, each the contract of a function without a body.

ghost use Rattle.std.specs.Prelude.{◌≡◌, ◌<◌, true, false};
ghost use Rattle.plant_core.specs.Crashes.{IsSettled};
ghost use Rattle.plant_core.specs.Effects.{come};
ghost use Rattle.dump_courses.specs.declared.running.End.{End as AnyEnd};
ghost use Rattle.dump_courses.specs.Scenes.{Scene};
ghost use Rattle.dump_courses.specs.Courses.{Point, goes_on, next_event, behind, last_event, event_then, events_left, course};
ghost use Rattle.dump_courses.specs.Settled.{IsSettledFor};
ghost use Rattle.dump_courses.specs.Running.{answer_of};

/// The course of a dump is its next event and the course behind that, or its last event alone, whatever was bounded: each event that
/// isn't the last leaves fewer.
pub fn a_course_goes_by_its_events()
    ensures more { (s : Scene) (p : Point) → goes_on (next_event s p).answer ≡ true → course s p ≡ event_then (next_event s p) (course s (behind p (next_event s p))) }
    ensures last { (s : Scene) (p : Point) → goes_on (next_event s p).answer ≡ false → course s p ≡ last_event p (next_event s p) }
    ensures fewer { (s : Scene) (p : Point) → goes_on (next_event s p).answer ≡ true → events_left s.cell (next_event s p).job < events_left s.cell p.job }
{}

/// Where all is settled at a point but what the dump has put on the tape in hand, all is settled behind its course, be it that the dump is
/// done or that it is refused; and so it is at each point between.
pub fn a_course_settles_all()
    ensures between { (s : Scene) (p : Point) → IsSettledFor p.job p.state → IsSettledFor (behind p (next_event s p)).job (behind p (next_event s p)).state }
    ensures ended { (s : Scene) (p : Point) (end : AnyEnd) → IsSettledFor p.job p.state → (course s p).answer ≡ answer_of end → IsSettled (come (course s p).effects p.state) }
{}
