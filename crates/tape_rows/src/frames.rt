//! Frames by the words of the table.

use crate::numbers::{next_number, number, word};
use crate::records::{Record, block_of, framed};
use crate::world::Common;
use bk_text::{Bytes, Host, LevelPath, Name, Part, SetName, TapeName};
use std::alloc::{AllocError, Global};
use tape_frames::{
    Block, Data, DumpEnd, DumpEndFields, DumpHead, DumpHeadFields, Frame, Label, LabelFields,
    VolEnd, VolEndFields, VolHead, VolHeadFields, decode,
};

/// The name of the tape of a number.
fn tape_name(alloc: Global, common: &Common, tape: u32) -> Result<Bytes, AllocError> {
    let base = common.base.as_str();
    let name = format!(in alloc; "{base}.{tape}")?;
    Bytes::from_slice(alloc, name.as_bytes())
}

/// A label with an initial dump's id and a tape's number. Both 0 make one of no dump, with this name.
pub fn label(
    alloc: Global,
    common: &Common,
    initial: u32,
    tape: u32,
    name: &str,
) -> anyhow::Result<Label> {
    let afs = if initial == 0 {
        Bytes::from_slice(alloc, name.as_bytes())?
    } else {
        tape_name(alloc, common, tape)?
    };
    let permanent = Bytes::from_slice(alloc, common.permanent.as_bytes())?;
    let fields = LabelFields {
        initial,
        tape,
        afs,
        permanent,
    };
    if !fields.is_label() {
        anyhow::bail!("it is no label");
    }
    Ok(Label::new(fields))
}

/// The texts of a dump's head.
fn texts(alloc: Global, common: &Common) -> anyhow::Result<(SetName, LevelPath, TapeName)> {
    match (
        SetName::parse(alloc, common.set.as_bytes()),
        LevelPath::parse(alloc, common.level.as_bytes()),
        TapeName::parse(alloc, common.base.as_bytes()),
    ) {
        (Ok(set), Ok(level), Ok(base)) => Ok((set, level, base)),
        _ => anyhow::bail!("a set, a level or a base is bad"),
    }
}

/// The head of a part on a tape.
pub fn dump_head(alloc: Global, common: &Common, tape: u32, part: u32) -> anyhow::Result<DumpHead> {
    let (set, level, base) = texts(alloc, common)?;
    let (cell, permanent): (&[u8], &[u8]) = if common.uses == 0 {
        (b"", b"")
    } else {
        (common.cell.as_bytes(), common.permanent.as_bytes())
    };
    let fields = DumpHeadFields {
        id: common.id,
        initial: common.initial,
        parent: common.parent,
        expires: common.expires,
        tape,
        part,
        volumes: common.volumes,
        set,
        level,
        base,
        cell: Bytes::from_slice(alloc, cell)?,
        permanent: Bytes::from_slice(alloc, permanent)?,
        uses: common.uses,
    };
    if !fields.is_dump_head() {
        anyhow::bail!("it is no head of a dump");
    }
    Ok(DumpHead::new(fields))
}

/// The head of a volume's fragment. A volume is named `v` and its place counted from 1, where no name is given.
pub fn volume_head(
    alloc: Global,
    common: &Common,
    index: u32,
    fragment: u32,
    name: &str,
) -> anyhow::Result<VolHead> {
    let given = format!(in alloc; "v{}", index.saturating_add(1))?;
    let name = if name.is_empty() {
        given.as_str()
    } else {
        name
    };
    let (Ok(name), Ok(server), Ok(partition)) = (
        Name::parse(alloc, name.as_bytes()),
        Host::parse(alloc, b"fs1"),
        Part::parse(alloc, b"vicepa"),
    ) else {
        anyhow::bail!("a volume's name is bad");
    };
    if fragment == 0 {
        anyhow::bail!("fragments count from 1");
    }
    Ok(VolHead::new(VolHeadFields {
        dump: common.id,
        index,
        fragment,
        volume: 536870912u32.saturating_add(index),
        clone: common.id,
        from: common.parent,
        name,
        server,
        partition,
    }))
}

/// Puts a number into four bytes of a block.
fn put_four(block: &mut Block, at: usize, number: u32) {
    for (place, byte) in number.to_be_bytes().iter().enumerate() {
        let place = at.saturating_add(place);
        if place < block.len() {
            block[place] = *byte;
        }
    }
}

/// The block of a piece: its head, three numbers, and from byte 32 on so many bytes 101.
fn piece_block(dump: u32, index: u32, used: u32) -> Block {
    let mut block = block_of(b"AFST\x01\x04");
    put_four(&mut block, 8, dump);
    put_four(&mut block, 12, index);
    put_four(&mut block, 16, used);
    for place in 0..used as usize {
        if place < 16352 {
            block[32 + place] = 101;
        }
    }
    block
}

/// A piece with so many bytes.
pub fn piece(alloc: Global, common: &Common, index: u32, used: u32) -> anyhow::Result<Data> {
    let Ok(frame) = decode(alloc, &piece_block(common.id, index, used)) else {
        anyhow::bail!("a piece has 1 to 16352 bytes");
    };
    match frame {
        Frame::Data(piece) => Ok(piece),
        _other => anyhow::bail!("it is no piece"),
    }
}

/// The end of a fragment by the words of the table.
fn volume_end(common: &Common, rest: &str) -> anyhow::Result<VolEnd> {
    let (index, rest) = next_number(rest)?;
    let (fragment, rest) = next_number(rest)?;
    let (last, rest) = next_number(rest)?;
    let bytes = number(rest)?;
    if last > 1 {
        anyhow::bail!("last is 0 or 1");
    }
    Ok(VolEnd::new(VolEndFields {
        dump: common.id,
        index,
        fragment,
        last,
        bytes,
    }))
}

/// The end of a part.
pub fn dump_end(common: &Common, tape: u32, more: u32) -> anyhow::Result<DumpEnd> {
    if more > 1 {
        anyhow::bail!("more is 0 or 1");
    }
    Ok(DumpEnd::new(DumpEndFields {
        dump: common.id,
        tape,
        more,
    }))
}

/// The frame of a step's words.
fn frame_by(alloc: Global, common: &Common, verb: &str, rest: &str) -> anyhow::Result<Frame> {
    if verb == "end" {
        return Ok(Frame::VolEnd(volume_end(common, rest)?));
    }
    let (first, rest) = next_number(rest)?;
    let (second, rest) = next_number(rest)?;
    match verb {
        "label" => Ok(Frame::Label(label(alloc, common, first, second, rest)?)),
        "head" => Ok(Frame::DumpHead(dump_head(alloc, common, first, second)?)),
        "volume" => Ok(Frame::VolHead(volume_head(alloc, common, first, second, rest)?)),
        "data" => Ok(Frame::Data(piece(alloc, common, first, second)?)),
        "done" => Ok(Frame::DumpEnd(dump_end(common, first, second)?)),
        _ => anyhow::bail!("there is no record {verb}"),
    }
}

/// The block of another thing than a frame of a dump: a block's front with this last letter and kind, and one byte behind it.
fn foreign(alloc: Global, letter: u8, kind: u32) -> anyhow::Result<Record> {
    let Ok(kind) = u8::try_from(kind) else {
        anyhow::bail!("a kind is a byte");
    };
    let front = [65, 70, 83, letter, 1, kind, 0, 0, 1];
    Ok(Record::Block(Vec::from_slice(alloc, &front)?))
}

/// The record of a step's words.
pub fn record_by(alloc: Global, common: &Common, step: &str) -> anyhow::Result<Record> {
    let (verb, rest) = word(step);
    match verb {
        "mark" => Ok(Record::Mark),
        "bad" => Ok(Record::Bad),
        "torn" => Ok(Record::Torn(number(rest)? as usize)),
        "foreign" => foreign(alloc, b'T', number(rest)?),
        "saved" => foreign(alloc, b'B', number(rest)?),
        _ => Ok(framed(alloc, &frame_by(alloc, common, verb, rest)?)?),
    }
}
