//! A law: each restore of a rehearsal finds media that hold the archive of its dumps.

ghost use Rattle.std.specs.Prelude.{◌≤◌, ℕ};
ghost use Rattle.rehearsal.specs.Commands.{first_session, second_session, third_session};
ghost use Rattle.rehearsal.specs.Playing.{AllFindHeld};
ghost use Rattle.rehearsal.specs.Sessions.{blank_world, start, lost, put_back};

use bk_text::form_tests;
use lost_journals::tapes_hold_without_their_journal;
use session_archives::{
    blank_worlds_are_ready, blank_worlds_hold_no_dump, commands_keep_the_archive,
    commands_leave_a_ready_world_ready,
};

/// So each session is what its commands make of the world in which it begins.
pub(crate) fn rehearsals_find_their_archive()
    ensures first { (n : ℕ) → n ≤ 200 → AllFindHeld (start blank_world) (first_session n) }
    ensures second { (n : ℕ) → n ≤ 200 → AllFindHeld (start (lost n)) (second_session n) }
    ensures third { (n : ℕ) → n ≤ 200 → AllFindHeld (start (put_back n)) (third_session n) }
{
    form_tests();
    commands_keep_the_archive();
    commands_leave_a_ready_world_ready();
    blank_worlds_hold_no_dump();
    blank_worlds_are_ready();
    tapes_hold_without_their_journal();
}
