//! What is told of a database that is verified.

ghost use Rattle.std.specs.Prelude.{◌≡◌, ◌≤◌, [], ◌∷◌, ◌++◌, length, IfOk, OnOk};
ghost use Rattle.std.specs.List.{flat_map};
ghost use Rattle.budb_fold.specs.Chains.{HaveParentsBelow};
ghost use Rattle.backup_session.specs.Verified.{group_lines, broken_lines, lost_count, told_verified, verified_lines};

use crate::verdict::Verdict;
use backup_replies::{put_broken, put_dumpset, put_lost, put_ok, put_verified};
use bk_text::{Bytes, Out};
use budb::Budb;
use budb_journal::DumpRecord;
use budb_save::{Broken, Group, verify};
use std::alloc::{AllocError, Global};

/// Puts the lines of a dump set behind a text.
fn put_group(lines: &mut Out, group: &Group) -> Result<(), AllocError>
    ensures { OnOk result (lines.new ≡ lines.old ++ group_lines group.now) }
{
    put_dumpset(lines, group.initial, group.dumps)?;
    if group.listed {
        return Ok(());
    }
    put_lost(lines, group.initial)
}

/// Puts the lines of dump sets behind a text.
fn put_groups(lines: &mut Out, groups: &[Group]) -> Result<(), AllocError>
    ensures { OnOk result (lines.new ≡ lines.old ++ flat_map group_lines groups.now) }
{
    for group in groups {
        put_group(lines, group)?;
    }
    Ok(())
}

/// Puts the line of a broken chain behind a text.
fn put_chain(lines: &mut Out, broken: &Broken) -> Result<(), AllocError>
    ensures { OnOk result (lines.new ≡ lines.old ++ broken_lines broken.now) }
{
    put_broken(lines, broken.id, &broken.volume, broken.at)
}

/// Puts the lines of broken chains behind a text.
fn put_chains(lines: &mut Out, broken: &[Broken]) -> Result<(), AllocError>
    ensures { OnOk result (lines.new ≡ lines.old ++ flat_map broken_lines broken.now) }
{
    for chain in broken {
        put_chain(lines, chain)?;
    }
    Ok(())
}

/// One where a dump set has lost its initial dump, and nothing where it hasn't.
fn lost_in(group: &Group) -> u64
    ensures count { result ≡ lost_count (group.now ∷ []) }
    ensures few { result ≤ 1 }
{
    if group.listed {
        return 0;
    }
    1
}

/// How many of these dump sets have lost their initial dump.
fn lost_count(groups: &[Group]) -> u64
    ensures count { result ≡ lost_count groups.now }
    ensures few { result ≤ length groups.now }
{
    let mut count = 0;
    for group in groups {
        count += lost_in(group);
    }
    count
}

/// The lines of these dump sets and broken chains, and their count.
fn told_verified(
    alloc: Global,
    listed: &[DumpRecord],
    groups: &[Group],
    broken: &[Broken],
) -> Result<Bytes, AllocError>
    ensures { IfOk result (λ text. text ≡ told_verified listed.now groups.now broken.now) }
{
    let mut lines = Out::new(alloc);
    put_groups(&mut lines, groups)?;
    put_chains(&mut lines, broken)?;
    let found = lost_count(groups) + broken.len() as u64;
    put_verified(&mut lines, listed.len() as u64, found)?;
    put_ok(&mut lines)?;
    Ok(lines.into_bytes())
}

/// `dbverify`.
pub(crate) fn show_verified(alloc: Global, budb: &Budb) -> Result<Verdict, AllocError>
    ensures { HaveParentsBelow budb.now.database.listed → IfOk result (λ v. v ≡ Verdict.Shows (verified_lines budb.now.database.listed)) }
{
    let verified = verify(alloc, budb)?;
    let text = told_verified(
        alloc,
        budb.database().listed.as_slice(),
        verified.groups.as_slice(),
        verified.broken.as_slice(),
    );
    drop(verified);
    Ok(Verdict::Shows(text?))
}
