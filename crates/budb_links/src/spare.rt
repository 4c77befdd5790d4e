//! Spare numbers, as those of free places.

ghost use Rattle.std.specs.Prelude.{◌≡◌, ◌+◌, ◌^◌, ◌<◌, ◌≤◌, ◌++◌, vec_len, vec_capacity};
ghost use Rattle.budb_links.specs.Stored.{numbers_from};

/// Counts new numbers among the spare ones.
pub(crate) fn add_free(free: &mut Vec<usize>, first: usize, count: usize)
    requires room { vec_len free.old + count ≤ vec_capacity free.old }
    requires small { first + count < 2 ^ 64 }
    ensures items { free.new.items ≡ free.old.items ++ numbers_from first count }
    ensures capacity { vec_capacity free.new ≡ vec_capacity free.old }
{
    for more in 0..count {
        free.push_reserved(first + more);
    }
}
