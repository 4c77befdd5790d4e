//! What coordinators do together, between two commands.

ghost use Rattle.std.specs.Prelude.{◌≡◌, None, Some};
ghost use Rattle.group_commands.specs.Groups.{opened};
ghost use Rattle.backup_session.specs.Groups.{with_open};
ghost use Rattle.backup_session.specs.Opening.{no_groups};

use bk_text::List;
use group_commands::{Group, ToldJob};
use std::alloc::Global;

/// The group that is open, where one is, and the dumps that the end of the last one began.
#[derive(Drop)]
pub struct Groups {
    /// The group that is open.
    pub open: Option<Group>,
    /// The dumps of the last group.
    pub jobs: List<ToldJob>,
}

impl Groups {
    /// No group is open, and none has ended. It takes no memory.
    pub(crate) fn new(alloc: Global) -> Groups
        ensures { result ≡ no_groups }
    {
        Groups {
            open: None,
            jobs: List::new(alloc),
        }
    }

    /// Opens a group, whose dumps take turns by this schedule.
    pub(crate) fn begin(&mut self, alloc: Global, schedule: u32)
        ensures { self.new ≡ with_open (opened schedule) self.old }
    {
        self.open = Some(Group::open(alloc, schedule));
    }

    /// The group that was open has ended, and began these dumps.
    pub(crate) fn end(&mut self, jobs: List<ToldJob>)
        ensures { self.new ≡ record { «open» = None; jobs = jobs } }
    {
        self.open = None;
        self.jobs = jobs;
    }
}
