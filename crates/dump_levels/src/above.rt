//! Levels above and below others, by the elements of their paths.

ghost use Rattle.std.specs.Prelude.{◌≡◌, ◌||◌, ◌==◌, length, slice_index, IfOk};
ghost use Rattle.bk_text.specs.LevelPaths.{IsLevelPath};
ghost use Rattle.dump_levels.specs.Elements.{is_within, path_above, paths_above};

use bk_text::{LevelPath, List};
use std::alloc::{AllocError, Global};

/// Whether an element ends where this begins: at the end of the text, or at a slash.
fn ends_element(rest: &[u8]) -> bool
    ensures { result ≡ ((length rest.now == 0) || (slice_index rest.now 0 == 47)) }
{
    rest.is_empty() || rest[0] == b'/'
}

/// Whether a level is at another one or below it.
pub fn is_at_or_below(path: &LevelPath, upper: &LevelPath) -> bool
    ensures { result ≡ is_within upper.now path.now }
{
    match path.bytes().strip_prefix(upper.bytes()) {
        None => false,
        Some(rest) => ends_element(rest),
    }
}

/// The path above; `None` where there is one element.
pub fn above(path: &LevelPath) -> Result<Option<LevelPath>, AllocError>
    ensures is { IfOk result (λ upper. upper ≡ path_above path.now) }
    ensures form { IsLevelPath path.now }
{
    let _text = path.bytes();
    path.above()
}

/// All paths above, the closest first.
pub fn all_above(alloc: Global, path: &LevelPath) -> Result<List<LevelPath>, AllocError>
    ensures { IfOk result (λ paths. paths ≡ paths_above path.now) }
{
    let mut paths = List::new(alloc);
    let mut next = above(path)?;
    while let Some(upper) = next {
        next = above(&upper)?;
        paths.push(upper)?;
    }
    Ok(paths)
}
