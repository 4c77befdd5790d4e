//! The first eight bytes of a block.

ghost use Rattle.std.specs.Prelude.{◌≡◌, ◌↔◌, length, take, IsTrue, MatchOption, MatchResult};
ghost use Rattle.tape_frames.specs.declared.kind.Kind.{Kind as AnyKind};
ghost use Rattle.tape_frames.specs.Kinds.{version, code, head};
ghost use Rattle.tape_frames.specs.Heads.{HeadSticks, Differs};

use crate::kind::{Kind, head_of};
use crate::page::Block;

/// A kind whose head has as much of this version and this number as any has.
fn likely_kind(stated: u8, number: u8) -> Kind
    ensures version { (kind : AnyKind) → version kind ≡ stated → version result ≡ stated }
    ensures code { (kind : AnyKind) → version kind ≡ stated → code kind ≡ number → code result ≡ number }
{
    if stated == 2 {
        return Kind::DumpHead;
    }
    match number {
        2 => Kind::PlainHead,
        3 => Kind::VolHead,
        4 => Kind::Data,
        5 => Kind::VolEnd,
        6 => Kind::DumpEnd,
        _ => Kind::Label,
    }
}

/// The first place at which bytes of one length differ.
fn first_difference(a: &[u8], b: &[u8]) -> Option<usize>
    requires { length a.now ≡ length b.now }
    ensures { MatchOption result (a.now ≡ b.now) (λ at. Differs a.now b.now at) }
{
    for (at, byte) in a.iter().enumerate() {
        if *byte != b[at] {
            return Some(at);
        }
    }
    None
}

/// The kind of a block by its first eight bytes; else the first of them with which no kind's head goes on.
pub fn read_head(block: &Block) -> Result<Kind, usize>
    ensures { MatchResult result (λ kind. take 8 block.now ≡ head kind) (λ at. HeadSticks block.now at) }
{
    let kind = likely_kind(block[4], block[5]);
    match first_difference(&head_of(kind), &block[..8]) {
        Some(at) => Err(at),
        None => Ok(kind),
    }
}

/// Whether a block begins with a kind's head.
pub fn has_head(kind: Kind, block: &Block) -> bool
    ensures { IsTrue result ↔ (take 8 block.now ≡ head kind) }
{
    match first_difference(&head_of(kind), &block[..8]) {
        Some(_) => false,
        None => true,
    }
}
