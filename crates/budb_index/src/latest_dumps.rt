//! The latest dump of a volume, by the chains of its names.

ghost use Rattle.std.specs.Prelude.{◌≡◌, Some, IfOk};
ghost use Rattle.std.specs.List.{filter, filter_map};
ghost use Rattle.budb_fold.specs.Lookups.{is_before, beats, latest};
ghost use Rattle.budb_fold.specs.Chains.{dump_of};
ghost use Rattle.budb_index.specs.Kept.{AreOnce};
ghost use Rattle.budb_index.specs.Latest.{better, better_before, best_of, name_dumps};

use crate::holders::met;
use crate::index::Index;
use bk_text::Bytes;
use budb_fold::{VolumeDump, volume_of};
use budb_links::Steps;
use std::alloc::{AllocError, Global};
use std::sync::ledger::Ledger;

/// What the name of a backup volume ends in.
const BACKUP: &[u8] = b".backup";

/// Whether a volume's clone time is below the bound, where there is one.
fn is_before(before: Option<u32>, one: &VolumeDump<'_>) -> bool
    ensures { result ≡ is_before before one.now }
{
    match before {
        None => true,
        Some(bound) => one.volume.fields().clone < bound,
    }
}

/// Whether a pair goes before another: by a greater clone time, then by a greater id, then by the name itself before its
/// backup volume's.
fn beats(name: &[u8], a: &VolumeDump<'_>, b: &VolumeDump<'_>) -> bool
    ensures { result ≡ beats name.now a.now b.now }
{
    let (clone, other_clone) = (a.volume.fields().clone, b.volume.fields().clone);
    let (id, other_id) = (a.dump.fields().id, b.dump.fields().id);
    let (is_own, is_other_own) = (
        a.volume.fields().name.bytes() == name,
        b.volume.fields().name.bytes() == name,
    );
    other_clone < clone
        || (other_clone == clone && (other_id < id || (other_id == id && is_own && !is_other_own)))
}

/// The one of two pairs that goes before the other; the first where neither does.
fn better<'a>(
    name: &[u8],
    best: Option<VolumeDump<'a>>,
    one: VolumeDump<'a>,
) -> Option<VolumeDump<'a>>
    ensures { result ≡ better name.now best.entry one.entry }
{
    match best {
        None => Some(one),
        Some(held) => {
            if beats(name, &one, &held) {
                Some(one)
            } else {
                Some(held)
            }
        }
    }
}

/// The same, where the other counts only if its clone time is below the bound.
fn better_before<'a>(
    name: &[u8],
    before: Option<u32>,
    best: Option<VolumeDump<'a>>,
    one: VolumeDump<'a>,
) -> Option<VolumeDump<'a>>
    ensures { result ≡ better_before name.now before best.entry (Some one.entry) }
{
    if is_before(before, &one) {
        better(name, best, one)
    } else {
        best
    }
}

impl Index {
    /// The pair of the dump of an id and its volume of a name.
    fn dump_of<'a, L: Ledger>(
        &'a self,
        of: &[u8],
        id: u32,
        steps: &mut Steps<L>,
    ) -> Option<VolumeDump<'a>>
        ensures { result ≡ dump_of self.now.listed of.now id }
    {
        match self.find(id, steps) {
            None => None,
            Some(dump) => match volume_of(dump, of) {
                None => None,
                Some(volume) => Some(VolumeDump { dump, volume }),
            },
        }
    }

    /// The best of the pairs of these ids and a volume's name, and of one that there was.
    fn best_of_ids<'a, L: Ledger>(
        &'a self,
        name: &[u8],
        of: &[u8],
        before: Option<u32>,
        best: Option<VolumeDump<'a>>,
        ids: &[u32],
        steps: &mut Steps<L>,
    ) -> Option<VolumeDump<'a>>
        ensures { result ≡ best_of name.now best.entry (filter (is_before before) (filter_map (dump_of self.now.listed of.now) ids.now)) }
    {
        let mut found = best;
        for id in ids {
            if let Some(one) = self.dump_of(of, *id, steps) {
                found = better_before(name, before, found, one);
            }
        }
        found
    }

    /// The best of the pairs of a volume's name, and of one that there was.
    fn best_of_name<'a, L: Ledger>(
        &'a self,
        alloc: Global,
        name: &[u8],
        of: &[u8],
        before: Option<u32>,
        best: Option<VolumeDump<'a>>,
        steps: &mut Steps<L>,
    ) -> Result<Option<VolumeDump<'a>>, AllocError>
        ensures best { IfOk result (λ found. found ≡ best_of name.now best.entry (filter (is_before before) (name_dumps of.now self.now.listed))) }
        ensures once { AreOnce self.now.listed }
    {
        let ids = met(alloc, self.links(), of, steps)?;
        Ok(self.best_of_ids(name, of, before, best, ids.as_slice(), steps))
    }

    /// The latest dump of a volume: of the listed pairs of a dump and a volume whose name fits, and whose clone time, in seconds
    /// since 1970, is below the bound where there is one, the one with the greatest clone time. Ties go by the greater id, then
    /// by the name itself before its backup volume's. A base name fits itself and the name of its backup volume; a name that
    /// ends in `.backup` fits itself alone. `None` only where there is no such pair.
    pub fn latest<'a, L: Ledger>(
        &'a self,
        alloc: Global,
        name: &[u8],
        before: Option<u32>,
        steps: &mut Steps<L>,
    ) -> Result<Option<VolumeDump<'a>>, AllocError>
        ensures { IfOk result (λ one. one ≡ latest self.now.listed name.now before) }
    {
        let own = self.best_of_name(alloc, name, name, before, None, steps)?;
        if name.ends_with(BACKUP) {
            return Ok(own);
        }
        let mut backup = Bytes::from_slice(alloc, name)?;
        backup.extend_from_slice(BACKUP)?;
        self.best_of_name(alloc, name, backup.as_slice(), before, own, steps)
    }
}
