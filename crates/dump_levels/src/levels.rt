//! The levels of dumps, in the order in which they were added.

ghost use Rattle.std.specs.Prelude.{◌≡◌, [], ◌∷◌, ◌++◌, map, IfOk, OnOk, OnErr};
ghost use Rattle.bk_text.specs.Changes.{Changes, ChangesUnless};
ghost use Rattle.dump_levels.specs.Elements.{path_above, paths_above};
ghost use Rattle.dump_levels.specs.Spans.{expiry_in, expires_in};
ghost use Rattle.dump_levels.specs.Trees.{is_level, has_level, has_upper, after_add, after_set, after_remove, expiring};
ghost use Rattle.dump_levels.specs.declared.levels.LevelFault.TheVariants.{Memory};

use crate::above::{above, all_above, is_at_or_below};
use crate::spans::expires_at;
use bk_text::{Expiry, LevelPath, List};
use std::alloc::{AllocError, Global};
use std::marker::Model;
use thiserror::Error;

/// A level of dumps: its path, and when its dumps expire.
#[derive(Debug, Drop)]
pub struct Level {
    /// Its place in the tree: an initial dump's level has one element, and an increment's one more than the level of
    /// the dump that it builds on.
    pub path: LevelPath,
    /// When its dumps expire.
    pub expiry: Expiry,
}

impl Clone for Level {
    ghost is_clone = { λ a b. b ≡ a };

    fn clone(&self) -> Result<Level, AllocError> {
        Ok(Level {
            path: self.path.clone()?,
            expiry: self.expiry,
        })
    }
}

/// Why a call on the levels was refused.
#[derive(Clone, Copy, Debug, PartialEq, Eq, Drop, Error)]
pub enum LevelFault {
    /// There is a level of this path.
    #[error("the level exists")]
    LevelExists,
    /// There is no level above this one, which has more than one element.
    #[error("there is no level above it")]
    NoParentLevel,
    /// There is no level of this path.
    #[error("there is no such level")]
    NoSuchLevel,
    /// Memory was refused.
    #[error("memory was refused")]
    Memory,
}

impl From<AllocError> for LevelFault {
    ghost from_gives = { λ _ e. e ≡ Memory };

    fn from(_e: AllocError) -> LevelFault {
        LevelFault::Memory
    }
}

/// Whether a level has this path.
fn is_of_path(level: &Level, path: &LevelPath) -> bool
    ensures { result ≡ is_level path.now level.now }
{
    level.path.bytes() == path.bytes()
}

/// Whether some level has this path.
fn any_of_path(levels: &[Level], path: &LevelPath) -> bool
    ensures { result ≡ has_level levels.now path.now }
{
    for level in levels {
        if is_of_path(level, path) {
            return true;
        }
    }
    false
}

/// The expiration of the level of this path.
fn expiry_at(levels: &[Level], path: &LevelPath) -> Option<Expiry>
    ensures { result ≡ expiry_in levels.now path.now }
{
    for level in levels {
        if is_of_path(level, path) {
            return Some(level.expiry);
        }
    }
    None
}

/// Whether the level above is there, where there is a path above.
fn any_of_upper(levels: &[Level], upper: &Option<LevelPath>) -> bool
    ensures { result ≡ has_upper levels.now upper.now }
{
    match upper {
        None => true,
        Some(upper) => any_of_path(levels, upper),
    }
}

/// Sets the expiration of a level where it has this path.
fn set_if_of_path(level: &mut Level, path: &LevelPath, expiry: Expiry)
    ensures { level.new ≡ expiring path.now expiry level.old }
{
    if is_of_path(level, path) {
        level.expiry = expiry;
    }
}

/// Sets the expiration of each level of this path.
fn set_each_of_path(levels: &mut [Level], path: &LevelPath, expiry: Expiry)
    ensures { levels.new ≡ map (expiring path.now expiry) levels.old }
{
    for level in levels.iter_mut() {
        set_if_of_path(level, path, expiry);
    }
}

/// Puts a level behind those that are there.
fn put_last(levels: &mut Vec<Level>, level: Level) -> Result<(), AllocError>
    ensures ok { OnOk result (levels.new.items ≡ levels.old.items ++ level ∷ []) }
    ensures err { OnErr result (levels.new.items ≡ levels.old.items) }
{
    levels.push(level)?;
    Ok(())
}

/// The levels of dumps, as a tree of paths: a level is added below the level above it, and goes with it.
#[derive(Debug, Drop)]
pub struct Levels {
    levels: Vec<Level>,
}

impl Model for Levels {
    ghost use Rattle.std.specs.Prelude.{List};
    ghost use Rattle.dump_levels.specs.declared.levels.Level.{Level};

    ghost Value = { List Level };

    ghost view = { λ a. a.levels.items };
}

impl Clone for Levels {
    ghost is_clone = { λ a b. b ≡ a };

    fn clone(&self) -> Result<Levels, AllocError> {
        Ok(Levels {
            levels: self.levels.clone()?,
        })
    }
}

impl Levels {
    /// No levels. It takes no memory.
    pub fn new(alloc: Global) -> Levels
        ensures { result ≡ [] }
    {
        Levels {
            levels: Vec::new(alloc),
        }
    }

    /// Adds a level behind those that are there. `LevelExists` where there is one of this path, then `NoParentLevel`
    /// where the path has more than one element and there is no level of the path above.
    pub fn add(&mut self, path: LevelPath, expiry: Expiry) -> Result<(), LevelFault>
        ensures { ChangesUnless LevelFault.Memory (after_add self.old path expiry) self.old result self.new }
    {
        if any_of_path(self.levels.as_slice(), &path) {
            return Err(LevelFault::LevelExists);
        }
        if !any_of_upper(self.levels.as_slice(), &above(&path)?) {
            return Err(LevelFault::NoParentLevel);
        }
        put_last(&mut self.levels, Level { path, expiry })?;
        Ok(())
    }

    /// Sets the expiration of a level; dumps that are there keep theirs. `NoSuchLevel` where there is no level of this
    /// path. It takes no memory.
    pub fn set_expiry(&mut self, path: &LevelPath, expiry: Expiry) -> Result<(), LevelFault>
        ensures { Changes (after_set self.old path.now expiry) self.old result self.new }
    {
        if !any_of_path(self.levels.as_slice(), path) {
            return Err(LevelFault::NoSuchLevel);
        }
        set_each_of_path(self.levels.as_mut_slice(), path, expiry);
        Ok(())
    }

    /// Removes a level and all levels below it. `NoSuchLevel` where there is no level of this path. It takes no memory.
    pub fn remove(&mut self, path: &LevelPath) -> Result<(), LevelFault>
        ensures { Changes (after_remove self.old path.now) self.old result self.new }
    {
        if !any_of_path(self.levels.as_slice(), path) {
            return Err(LevelFault::NoSuchLevel);
        }
        self.levels
            .retain(|level| !is_at_or_below(&level.path, path));
        Ok(())
    }

    /// When a dump of a level expires that is created at this second; both are seconds since 1970. It is 0 where the
    /// level has no expiration, and 4294967295 where its dumps never expire. A span is added to the civil date and time
    /// of the creation: years and months first, where the day is held to the month's end, and then days; the time of
    /// day is kept. A moment past 2037 is reduced to the last second of 2037, which is 2145916799. `NoSuchLevel` where
    /// there is no level of this path. The rules are those of the OpenAFS Administration Guide; the limit is this
    /// project's own choice. It takes no memory.
    pub fn expiry_of(&self, path: &LevelPath, created: u32) -> Result<u32, LevelFault>
        ensures { result ≡ expires_in self.now path.now created }
    {
        match expiry_at(self.levels.as_slice(), path) {
            None => Err(LevelFault::NoSuchLevel),
            Some(expiry) => Ok(expires_at(created, expiry)),
        }
    }

    /// Whether there is a level of this path. It takes no memory.
    pub fn has(&self, path: &LevelPath) -> bool
        ensures { result ≡ has_level self.now path.now }
    {
        any_of_path(self.levels.as_slice(), path)
    }

    /// Whether the level above a path is there, where the path has more than one element.
    pub fn has_above(&self, path: &LevelPath) -> Result<bool, AllocError>
        ensures { IfOk result (λ is. is ≡ has_upper self.now (path_above path.now)) }
    {
        Ok(any_of_upper(self.levels.as_slice(), &above(path)?))
    }

    /// The levels in the order in which they were added. It takes no memory.
    pub fn list(&self) -> &[Level]
        ensures { result.now ≡ self.now }
    {
        self.levels.as_slice()
    }

    /// The paths above a path, the closest first, whether or not there are levels of them.
    pub fn ancestors(&self, path: &LevelPath) -> Result<List<LevelPath>, AllocError>
        ensures { IfOk result (λ paths. paths ≡ paths_above path.now) }
    {
        all_above(*self.levels.allocator(), path)
    }
}
