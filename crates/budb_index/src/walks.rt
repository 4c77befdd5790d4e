//! Walks along the chains of an index, a member at a time.

ghost use Rattle.std.specs.Prelude.{◌≡◌, ◌+◌, ◌*◌, ◌≤◌, length, map};
ghost use Rattle.std.specs.List.{filter};
ghost use Rattle.std.specs.Option.{option_copied};
ghost use Rattle.bk_text.specs.Blanks.{is_same_text};
ghost use Rattle.budb_links.specs.Entries.{places_of, of_set};
ghost use Rattle.budb_links.specs.Frags.{frag_places, of_volume, frags_of};
ghost use Rattle.budb_links.specs.Linked.{listed};
ghost use Rattle.budb_index.specs.Walks.{StandsIn, IsNext, set_left, volume_left, dumps_of_set, frags_named};

use budb_changes::DumpRecord;
use budb_links::{FragPlace, Links, Steps};
use std::sync::ledger::Ledger;

/// The place of the first record of a volume set.
pub(crate) fn first_of_set<L: Ledger>(
    links: &Links,
    key: &[u8],
    steps: &mut Steps<L>,
) -> Option<usize>
    ensures stands { StandsIn result (places_of (of_set key.now links.now.entries)) }
    ensures whole { set_left key.now result links.now.entries ≡ dumps_of_set key.now (listed links.now) }
    ensures cost { steps.new ≤ steps.old + 1 }
{
    links.walk_set(key, None, steps)
}

/// The record of a volume set at a place; the place is then that of the next one. `None` where no place is given.
pub(crate) fn next_of_set<'a, L: Ledger>(
    links: &'a Links,
    key: &[u8],
    at: &mut Option<usize>,
    steps: &mut Steps<L>,
) -> Option<&'a DumpRecord>
    requires stands { StandsIn at.old (places_of (of_set key.now links.now.entries)) }
    ensures stands { StandsIn at.new (places_of (of_set key.now links.now.entries)) }
    ensures next { IsNext (option_copied result) (set_left key.now at.old links.now.entries) (set_left key.now at.new links.now.entries) }
    ensures cost { steps.new + 2 * length (set_left key.now at.new links.now.entries) ≤ steps.old + 2 * length (set_left key.now at.old links.now.entries) }
{
    match *at {
        None => None,
        Some(place) => {
            *at = links.walk_set(key, Some(place), steps);
            links.record_at(place, steps)
        }
    }
}

/// The place of the first fragment of the volumes of a name.
pub(crate) fn first_of_volume<L: Ledger>(
    links: &Links,
    key: &[u8],
    steps: &mut Steps<L>,
) -> Option<usize>
    ensures stands { StandsIn result (frag_places (of_volume key.now links.now.frags)) }
    ensures whole { volume_left key.now result links.now.frags ≡ frags_named key.now (listed links.now) }
    ensures cost { steps.new ≤ steps.old + 1 }
{
    links.walk_volume(key, None, steps)
}

/// The fragment of the volumes of a name at a place; the place is then that of the next one. `None` where no place is given.
pub(crate) fn next_of_volume<L: Ledger>(
    links: &Links,
    key: &[u8],
    at: &mut Option<usize>,
    steps: &mut Steps<L>,
) -> Option<FragPlace>
    requires stands { StandsIn at.old (frag_places (of_volume key.now links.now.frags)) }
    ensures stands { StandsIn at.new (frag_places (of_volume key.now links.now.frags)) }
    ensures next { IsNext result (volume_left key.now at.old links.now.frags) (volume_left key.now at.new links.now.frags) }
    ensures cost { steps.new + 2 * length (volume_left key.now at.new links.now.frags) ≤ steps.old + 2 * length (volume_left key.now at.old links.now.frags) }
{
    match *at {
        None => None,
        Some(place) => {
            *at = links.walk_volume(key, Some(place), steps);
            links.frag_at(place, steps)
        }
    }
}
