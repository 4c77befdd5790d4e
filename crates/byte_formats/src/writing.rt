//! Writing numbers and texts. Where memory is refused, some of a field's bytes may stand behind the old ones.

ghost use Rattle.std.specs.Prelude.{◌≡◌, ◌<◌, ◌++◌, length, OnOk};
ghost use Rattle.bk_text.specs.Alphabets.{IsName, IsHost};
ghost use Rattle.byte_formats.specs.Bytes.{two, four, text1, text2, any_or};
ghost use Rattle.byte_formats.specs.Forms.{IsTwo, IsFour, IsAnyOr};

use bk_text::{Host, Out, Part};
use std::alloc::AllocError;

/// Writes a number of two bytes.
#[tactic(auto, unfolding(crate::specs::Bytes::two))]
pub fn put_two(out: &mut Out, n: u16) -> Result<(), AllocError>
    ensures bytes { OnOk result (out.new ≡ out.old ++ two n) }
    ensures form { IsTwo n }
{
    out.two(n)?;
    Ok(())
}

/// Writes a number of four bytes.
#[tactic(auto, unfolding(crate::specs::Bytes::four))]
pub fn put_four(out: &mut Out, n: u32) -> Result<(), AllocError>
    ensures bytes { OnOk result (out.new ≡ out.old ++ four n) }
    ensures form { IsFour n }
{
    out.four(n)?;
    Ok(())
}

/// Writes a text behind its length in one byte.
#[tactic(auto, unfolding(crate::specs::Bytes::text1))]
pub fn put_text1(out: &mut Out, text: &[u8]) -> Result<(), AllocError>
    requires { length text.now < 256 }
    ensures { OnOk result (out.new ≡ out.old ++ text1 text.now) }
{
    out.byte(text.len() as u8)?;
    out.piece(text)?;
    Ok(())
}

/// Writes a text behind its length in two bytes.
#[tactic(auto, unfolding(crate::specs::Bytes::text2))]
pub fn put_text2(out: &mut Out, text: &[u8]) -> Result<(), AllocError>
    requires { length text.now < 65536 }
    ensures { OnOk result (out.new ≡ out.old ++ text2 text.now) }
{
    put_two(out, text.len() as u16)?;
    out.piece(text)?;
    Ok(())
}

/// Writes a server, or an empty text for any.
#[tactic(auto, unfolding(crate::specs::Bytes::any_or))]
pub fn put_any_host(out: &mut Out, host: &Option<Host>) -> Result<(), AllocError>
    ensures bytes { OnOk result (out.new ≡ out.old ++ any_or host.now) }
    ensures form { OnOk result (IsAnyOr IsHost host.now) }
{
    match host {
        Some(name) => put_text1(out, name.bytes())?,
        None => put_text1(out, &[])?,
    }
    Ok(())
}

/// Writes a partition, or an empty text for any.
#[tactic(auto, unfolding(crate::specs::Bytes::any_or))]
pub fn put_any_part(out: &mut Out, part: &Option<Part>) -> Result<(), AllocError>
    ensures bytes { OnOk result (out.new ≡ out.old ++ any_or part.now) }
    ensures form { OnOk result (IsAnyOr IsName part.now) }
{
    match part {
        Some(name) => put_text1(out, name.bytes())?,
        None => put_text1(out, &[])?,
    }
    Ok(())
}
