//! An index that follows changes one by one, and tells which of them list a record.

ghost use Rattle.std.specs.Prelude.{◌≡◌, [], ◌∷◌, Some, IfOk, OnOk, OnErr};
ghost use Rattle.budb_index.specs.Relistings.{relistings_of, relisted, relisted_from, lists, lists_by};

use crate::index::Index;
use crate::relistings::{Relisting, relisting_of};
use budb_changes::{Change, DumpRecord};
use budb_links::{Steps, frag_count};
use std::alloc::AllocError;
use std::sync::ledger::Ledger;

impl Index {
    /// Lists a record, last, where it fits, and tells whether it does.
    fn take_put<L: Ledger>(
        &mut self,
        dump: DumpRecord,
        steps: &mut Steps<L>,
    ) -> Result<bool, AllocError>
        ensures lists { IfOk result (λ is. is ≡ lists_by (Some (Relisting.Put dump)) self.old.listed) }
        ensures listed { OnOk result (self.new.listed ≡ relisted (Relisting.Put dump) self.old.listed) }
        ensures err { OnErr result (self.new ≡ self.old) }
    {
        self.reserve(1, frag_count(&dump))?;
        let fits = self.fits(&dump, steps);
        self.put(dump, steps);
        Ok(fits)
    }

    /// Makes one relisting, and tells whether it lists a record.
    fn take_one<L: Ledger>(
        &mut self,
        one: Relisting,
        steps: &mut Steps<L>,
    ) -> Result<bool, AllocError>
        ensures lists { IfOk result (λ is. is ≡ lists_by (Some one) self.old.listed) }
        ensures listed { OnOk result (self.new.listed ≡ relisted one self.old.listed) }
        ensures err { OnErr result (self.new ≡ self.old) }
    {
        match one {
            Relisting::Put(dump) => self.take_put(dump, steps),
            Relisting::DropSet { initial } => {
                self.drop_set(initial, steps);
                Ok(false)
            }
            Relisting::DropDump { id } => {
                self.drop_dump(id, steps);
                Ok(false)
            }
        }
    }

    /// Follows one change, and tells whether it lists a record. Its record is looked for by its id alone.
    pub fn take<L: Ledger>(
        &mut self,
        change: &Change,
        steps: &mut Steps<L>,
    ) -> Result<bool, AllocError>
        ensures lists { IfOk result (λ is. is ≡ lists change.now self.old.listed) }
        ensures listed { OnOk result (self.new.listed ≡ relisted_from (relistings_of (change.now ∷ [])) self.old.listed) }
        ensures err { OnErr result (self.new ≡ self.old) }
    {
        match relisting_of(change)? {
            None => Ok(false),
            Some(one) => self.take_one(one, steps),
        }
    }
}
