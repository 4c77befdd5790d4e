//! What is so of every chain.

ghost use Rattle.std.specs.Prelude.{◌≡◌, ◌↔◌, ℕ, ◌++◌, false, nat_eq, map, All, Contains, Bool, List as AnyList, Result as AnyResult, Some, Ok};
ghost use Rattle.std.specs.List.{IsDistinct};
ghost use Rattle.budb_changes.specs.declared.records.DumpRecordFields.{DumpRecordFields as AnyDump};
ghost use Rattle.budb_fold.specs.Database.{without};
ghost use Rattle.budb_fold.specs.Lookups.{VolumeDump as AnyVolumeDump, record_of};
ghost use Rattle.budb_fold.specs.Chains.{dump_of, IsChain, Unfolds, HaveParentsBelow};

/// A chain is the dump alone where its from time is 0, and else its parent's chain and then the dump; where the dump isn't
/// among the records, or its record lacks the name, its id is told in place of a chain.
pub fn chain_unfolds()
    ensures { (records : AnyList AnyDump) (id : ℕ) (name : AnyList ℕ) (outcome : AnyResult (AnyList ℕ) ℕ)
        → IsChain records id name outcome ↔ Unfolds records id name outcome (dump_of records name id) }
{}

/// There is one outcome: a chain, or an id in its place.
pub fn chain_has_one_outcome()
    ensures { (records : AnyList AnyDump) (id : ℕ) (name : AnyList ℕ) (a b : AnyResult (AnyList ℕ) ℕ)
        → IsChain records id name a → IsChain records id name b → a ≡ b }
{}

/// Where each parent lies below its dump, there is an outcome for each id and name.
pub fn chain_has_an_outcome()
    ensures { (records : AnyList AnyDump) (id : ℕ) (name : AnyList ℕ) → HaveParentsBelow records
        → (outcome : AnyResult (AnyList ℕ) ℕ) × IsChain records id name outcome }
{}

/// Each dump of a chain is among the records, with the volume.
pub fn chain_has_its_dumps()
    ensures { (records : AnyList AnyDump) (id : ℕ) (name ids : AnyList ℕ) → IsChain records id name (Ok ids)
        → All (λ i. (d : AnyVolumeDump) × (dump_of records name i ≡ Some d)) ids }
{}

/// A chain is that of all records among which those of its ids are the same.
pub fn chain_looks_at_its_dumps()
    ensures { (records others : AnyList AnyDump) (id : ℕ) (name ids : AnyList ℕ)
        → All (λ i. record_of others i ≡ record_of records i) ids
        → IsChain records id name (Ok ids) → IsChain others id name (Ok ids) }
{}

/// A chain is unchanged by records that are added later.
pub fn chain_stays_with_more()
    ensures { (records more : AnyList AnyDump) (id : ℕ) (name ids : AnyList ℕ)
        → IsChain records id name (Ok ids) → IsChain (records ++ more) id name (Ok ids) }
{}

/// A chain is unchanged where dumps are forgotten that aren't on it.
pub fn chain_stays_without_others()
    ensures { (is_so : AnyDump → Bool) (records : AnyList AnyDump) (id : ℕ) (name ids : AnyList ℕ)
        → ((dump : AnyDump) → Contains records dump → Contains ids dump.id → is_so dump ≡ false)
        → IsChain records id name (Ok ids) → IsChain (without is_so records) id name (Ok ids) }
{}

/// Where each id stands once, a record is the one that is found by its id.
pub fn record_is_found_by_its_id()
    ensures { (records : AnyList AnyDump) (dump : AnyDump) → IsDistinct nat_eq (map (λ d. d.id) records)
        → Contains records dump → record_of records dump.id ≡ Some dump }
{}
