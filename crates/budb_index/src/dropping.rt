//! Dumps that go from an index, alone or with all of their initial id.

ghost use Rattle.std.specs.Prelude.{◌≡◌, ◌≤◌};
ghost use Rattle.budb_fold.specs.Database.{is_dump, is_initial, without};

use crate::index::Index;
use budb_links::Steps;
use std::sync::ledger::Ledger;

impl Index {
    /// Takes the dump of an id off the list, where it is listed. It takes no memory.
    pub(crate) fn drop_dump<L: Ledger>(&mut self, id: u32, steps: &mut Steps<L>)
        ensures listed { self.new.listed ≡ without (is_dump id) self.old.listed }
        ensures records { self.old.spare_records ≤ self.new.spare_records }
        ensures frags { self.old.spare_frags ≤ self.new.spare_frags }
    {
        let _taken = self.unlink(id, steps);
    }

    /// Takes each dump of an initial id off the list. It takes no memory.
    pub(crate) fn drop_set<L: Ledger>(&mut self, initial_id: u32, steps: &mut Steps<L>)
        ensures listed { self.new.listed ≡ without (is_initial initial_id) self.old.listed }
        ensures records { self.old.spare_records ≤ self.new.spare_records }
        ensures frags { self.old.spare_frags ≤ self.new.spare_frags }
    {
        while let Some(id) = self.first_of_initial(initial_id, steps) {
            self.drop_dump(id, steps);
        }
    }
}
