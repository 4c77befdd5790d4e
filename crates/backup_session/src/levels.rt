//! What commands on the dump levels decide.

ghost use Rattle.std.specs.Prelude.{◌≡◌, [], ◌∷◌, ◌++◌, List as AnyList, map, Some, None, IfOk, OnOk, MatchOption, if◌then◌else◌};
ghost use Rattle.dump_levels.specs.Elements.{path_above};
ghost use Rattle.dump_levels.specs.Trees.{has_level};
ghost use Rattle.budb_changes.specs.declared.change.Change.TheVariants as changes;
ghost use Rattle.backup_replies.specs.declared.refusals.Refusal.TheVariants as refusals;
ghost use Rattle.backup_replies.specs.Texts.{refused_word, ok_line};
ghost use Rattle.backup_session.specs.Levels.{has_path, first_known, is_founded, first_unfounded, first_missing};
ghost use Rattle.backup_session.specs.Verdicts.{levels_come, levels_expire};
ghost use Rattle.backup_replies.specs.Levels.{levels_lines};

use crate::verdict::{Verdict, makes, makes_all, refuses_word};
use backup_replies::{Refusal, levels_lines};
use bk_text::{Expiry, LevelPath, List};
use budb_journal::Change;
use dump_levels::Levels;
use std::alloc::{AllocError, Global};

/// Whether a path is one of these.
fn has_path(paths: &[LevelPath], path: &LevelPath) -> bool
    ensures { result ≡ has_path paths.now path.now }
{
    for there in paths {
        if there.bytes() == path.bytes() {
            return true;
        }
    }
    false
}

/// The first path of a line that is a level's already, or stands twice.
fn first_known<'a>(levels: &Levels, paths: &'a [LevelPath]) -> Option<&'a LevelPath>
    ensures { MatchOption result (first_known levels.now [] paths.now ≡ None) (λ path. first_known levels.now [] paths.now ≡ Some path.now) }
{
    for at in 0..paths.len() {
        let path = &paths[at];
        if levels.has(path) || has_path(&paths[..at], path) {
            return Some(path);
        }
    }
    None
}

/// The path above; `None` where there is one element.
fn above(path: &LevelPath) -> Result<Option<LevelPath>, AllocError>
    ensures { IfOk result (λ upper. upper ≡ path_above path.now) }
{
    let _bytes = path.bytes();
    path.above()
}

/// Whether the path above is a level's or one of these, where there is a path above.
fn is_founded(levels: &Levels, before: &[LevelPath], path: &LevelPath) -> Result<bool, AllocError>
    ensures { IfOk result (λ founded. founded ≡ is_founded levels.now before.now (path_above path.now)) }
{
    Ok(match above(path)? {
        None => true,
        Some(upper) => levels.has(&upper) || has_path(before, &upper),
    })
}

/// The first path of a line whose path above is neither a level's nor in front of it.
fn first_unfounded<'a>(
    levels: &Levels,
    paths: &'a [LevelPath],
) -> Result<Option<&'a LevelPath>, AllocError>
    ensures { IfOk result (λ found. MatchOption found (first_unfounded levels.now [] paths.now ≡ None) (λ path. first_unfounded levels.now [] paths.now ≡ Some path.now)) }
{
    for at in 0..paths.len() {
        let path = &paths[at];
        if !is_founded(levels, &paths[..at], path)? {
            return Ok(Some(path));
        }
    }
    Ok(None)
}

/// The first path that is no level's.
fn first_missing<'a>(levels: &Levels, paths: &'a [LevelPath]) -> Option<&'a LevelPath>
    ensures { MatchOption result (first_missing levels.now paths.now ≡ None) (λ path. first_missing levels.now paths.now ≡ Some path.now) }
{
    for path in paths {
        if !levels.has(path) {
            return Some(path);
        }
    }
    None
}

/// A level for each path.
fn levels_of(alloc: Global, paths: &[LevelPath], expiry: Expiry) -> Result<List<Change>, AllocError>
    ensures { IfOk result (λ list. list ≡ map (λ path. changes.AddLevel path expiry) paths.now) }
{
    let mut list = List::new(alloc);
    for path in paths {
        let level = path.clone()?;
        list.push(Change::AddLevel { level, expiry })?;
    }
    Ok(list)
}

/// Another expiration for each path's level.
fn expiries_of(
    alloc: Global,
    paths: &[LevelPath],
    expiry: Expiry,
) -> Result<List<Change>, AllocError>
    ensures { IfOk result (λ list. list ≡ map (λ path. changes.SetExpiry path expiry) paths.now) }
{
    let mut list = List::new(alloc);
    for path in paths {
        let level = path.clone()?;
        list.push(Change::SetExpiry { level, expiry })?;
    }
    Ok(list)
}

/// `adddump`.
pub(crate) fn add_levels(
    alloc: Global,
    levels: &Levels,
    paths: &[LevelPath],
    expiry: Expiry,
) -> Result<Verdict, AllocError>
    ensures { IfOk result (λ v. v ≡ levels_come expiry paths.now (first_known levels.now [] paths.now) (first_unfounded levels.now [] paths.now)) }
{
    if let Some(path) = first_known(levels, paths) {
        return refuses_word(alloc, Refusal::LevelExists, path.bytes());
    }
    if let Some(path) = first_unfounded(levels, paths)? {
        return refuses_word(alloc, Refusal::NoParentLevel, path.bytes());
    }
    makes_all(alloc, levels_of(alloc, paths, expiry)?)
}

/// `setexp`.
pub(crate) fn set_expiries(
    alloc: Global,
    levels: &Levels,
    paths: &[LevelPath],
    expiry: Expiry,
) -> Result<Verdict, AllocError>
    ensures { IfOk result (λ v. v ≡ levels_expire expiry paths.now (first_missing levels.now paths.now)) }
{
    if let Some(path) = first_missing(levels, paths) {
        return refuses_word(alloc, Refusal::NoSuchLevel, path.bytes());
    }
    makes_all(alloc, expiries_of(alloc, paths, expiry)?)
}

/// `deldump`.
pub(crate) fn drop_level(
    alloc: Global,
    levels: &Levels,
    path: &LevelPath,
) -> Result<Verdict, AllocError>
    ensures { IfOk result (λ v. v ≡ (if has_level levels.now path.now then Verdict.Makes (changes.DelLevel path.now ∷ []) ok_line else Verdict.Refuses (refused_word refusals.NoSuchLevel path.now))) }
{
    if !levels.has(path) {
        return refuses_word(alloc, Refusal::NoSuchLevel, path.bytes());
    }
    let level = path.clone()?;
    makes(alloc, Change::DelLevel { level })
}

/// `listdumps`.
pub(crate) fn show_levels(alloc: Global, levels: &Levels) -> Result<Verdict, AllocError>
    ensures { IfOk result (λ v. v ≡ Verdict.Shows (levels_lines levels.now)) }
{
    Ok(Verdict::Shows(levels_lines(alloc, levels.list())?))
}
