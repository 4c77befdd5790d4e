//! Laws, each the contract of a function without a body.

ghost use Rattle.std.specs.Prelude.{◌↔◌, ℕ, List as AnyList, Contains};
ghost use Rattle.budb_changes.specs.declared.records.DumpRecordFields.{DumpRecordFields as AnyDump};
ghost use Rattle.budb_fold.specs.Chains.{HaveParentsBelow};
ghost use Rattle.tape_choice.specs.Choice.{parents_of};
ghost use Rattle.tape_choice.specs.Parents.{IsReached};

/// Where each parent lies below its child, the chain of parents has each dump that is reached upwards, and no other.
pub fn parents_are_those_reached()
    ensures { (listed : AnyList AnyDump) (id : ℕ) (d : AnyDump) → HaveParentsBelow listed → (IsReached listed id d ↔ Contains (parents_of listed id) d) }
{}
