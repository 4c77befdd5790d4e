//! Whether a part of a dump is gone on by another one on the next tape.

ghost use Rattle.std.specs.Prelude.{◌≡◌, ◌↔◌, ◌+◌, ◌<◌, IsTrue};
ghost use Rattle.tape_text.specs.Texts.{IsBefore, NextVolume};
ghost use Rattle.tape_text.specs.Wholes.{Agree, next_head};
ghost use Rattle.tape_scan.specs.AssembledSteps.{ToldGoesOn, AreGoneOn, ToldNext, IsEnding};

use crate::sections::{FragFound, PartFound};
use std::cmp::Ordering;
use tape_frames::{DumpHeadFields, VolHeadFields};

/// Whether two texts are the same.
fn is_same(a: &[u8], b: &[u8]) -> bool
    ensures { IsTrue result ↔ (a.now ≡ b.now) }
{
    a == b
}

/// Whether one name stands before another in byte order.
fn is_before(a: &[u8], b: &[u8]) -> bool
    ensures { IsTrue result ↔ IsBefore a.now b.now }
{
    a.cmp(b) == Ordering::Less
}

/// Whether one number is the next one above another.
fn is_next(a: u32, b: u32) -> bool
    ensures { IsTrue result ↔ (b ≡ a + 1) }
{
    u64::from(b) == u64::from(a) + 1
}

/// Whether the heads of two parts are those of one dump.
fn agrees(a: &DumpHeadFields, b: &DumpHeadFields) -> bool
    ensures { IsTrue result ↔ Agree a.now b.now }
{
    b.id == a.id
        && b.initial == a.initial
        && b.parent == a.parent
        && b.expires == a.expires
        && b.volumes == a.volumes
        && is_same(b.set.bytes(), a.set.bytes())
        && is_same(b.level.bytes(), a.level.bytes())
        && is_same(b.base.bytes(), a.base.bytes())
        && is_same(b.cell.as_slice(), a.cell.as_slice())
}

/// Whether a head is that of a volume's next fragment.
fn is_next_fragment(a: &VolHeadFields, b: &VolHeadFields) -> bool
    ensures { IsTrue result ↔ (b.now ≡ next_head a.now) }
{
    b.dump == a.dump
        && b.index == a.index
        && is_next(a.fragment, b.fragment)
        && b.volume == a.volume
        && b.clone == a.clone
        && b.from == a.from
        && is_same(b.name.bytes(), a.name.bytes())
        && is_same(b.server.bytes(), a.server.bytes())
        && is_same(b.partition.bytes(), a.partition.bytes())
}

/// Whether a head is that of the next volume's first fragment.
fn is_next_volume(a: &VolHeadFields, b: &VolHeadFields) -> bool
    ensures { IsTrue result ↔ NextVolume a.now b.now }
{
    is_next(a.index, b.index) && b.fragment == 1 && is_before(a.name.bytes(), b.name.bytes())
}

/// Whether a fragment that ends a part is gone on by one that begins a part.
fn is_gone_on(f: &FragFound, g: &FragFound) -> bool
    ensures { IsTrue result ↔ ToldGoesOn f.now g.now }
{
    match f.last {
        None => false,
        Some(false) => is_next_fragment(f.head.fields(), g.head.fields()),
        Some(true) => is_next_volume(f.head.fields(), g.head.fields()),
    }
}

/// Whether the last of some fragments is gone on by the first of some.
fn are_gone_on(fs: &[FragFound], gs: &[FragFound]) -> bool
    ensures { IsTrue result ↔ AreGoneOn fs.now gs.now }
{
    let Some(f) = fs.last() else {
        return false;
    };
    let Some(g) = gs.first() else {
        return false;
    };
    is_gone_on(f, g)
}

/// Whether a closed part of a dump is gone on by another closed one, its dump's next part on the next tape.
pub(crate) fn goes_on(p: &PartFound, q: &PartFound) -> bool
    ensures next { IsTrue result ↔ ToldNext p.now q.now }
    ensures below { IsTrue result → p.now.head.part < 4294967295 }
{
    let a = p.head.fields();
    let b = q.head.fields();
    p.end.is_some()
        && q.end.is_some()
        && p.more
        && agrees(a, b)
        && is_next(a.part, b.part)
        && is_next(a.tape, b.tape)
        && are_gone_on(p.frags.as_slice(), q.frags.as_slice())
}

/// Whether a closed part ends its dump.
pub(crate) fn ends(p: &PartFound) -> bool
    ensures { IsTrue result ↔ IsEnding p.now }
{
    p.end.is_some() && !p.more
}
