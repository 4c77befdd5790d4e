//! Streams that are read, whole or in pieces.

use dump_stream::{Fed, Input, InputReader, Reader, StreamFault, read};
use std::alloc::Global;
use vnode_model::{Entry, Increment, VnodeKind};

/// A volume with one directory, of which the server modify time alone is told.
const ROW: [u8; 60] = [
    0x01, 0xb3, 0xa1, 0x13, 0x22, 0x00, 0x00, 0x00, 0x01, 0x76, 0x20, 0x00, 0x00, 0x03, 0x6e, 0x76,
    0x31, 0x00, 0x74, 0x00, 0x02, 0x00, 0x00, 0x00, 0x00, 0x65, 0x00, 0x00, 0x00, 0x02, 0x69, 0x20,
    0x00, 0x00, 0x03, 0x6e, 0x76, 0x31, 0x00, 0x03, 0x00, 0x00, 0x00, 0x01, 0x00, 0x00, 0x00, 0x01,
    0x74, 0x02, 0x73, 0x64, 0x00, 0x00, 0x00, 0x04, 0x3a, 0x21, 0x4b, 0x6e,
];

/// A directory and a file whose data stand behind eight bytes of length.
pub const BOTH: [u8; 87] = [
    0x01, 0xb3, 0xa1, 0x13, 0x22, 0x00, 0x00, 0x00, 0x01, 0x76, 0x20, 0x00, 0x00, 0x03, 0x6e, 0x76,
    0x31, 0x00, 0x74, 0x00, 0x02, 0x00, 0x00, 0x00, 0x00, 0x65, 0x00, 0x00, 0x00, 0x02, 0x56, 0x00,
    0x00, 0x00, 0x07, 0x6e, 0x76, 0x31, 0x00, 0x69, 0x20, 0x00, 0x00, 0x03, 0x03, 0x00, 0x00, 0x00,
    0x01, 0x00, 0x00, 0x00, 0x01, 0x73, 0x64, 0x00, 0x00, 0x00, 0x74, 0x02, 0x03, 0x00, 0x00, 0x00,
    0x02, 0x00, 0x00, 0x00, 0x02, 0x68, 0x00, 0x00, 0x00, 0x00, 0x00, 0x00, 0x00, 0x02, 0x68, 0x69,
    0x74, 0x01, 0x04, 0x3a, 0x21, 0x4b, 0x6e,
];

/// Whether the heads of an increment say what those of this stream do.
fn has_heads(increment: &Increment) -> bool {
    let fields = increment.fields();
    (fields.dump_id, fields.from, fields.to) == (536870915, 0, 1694498816)
        && fields.dump_name.bytes() == b"v1".as_slice()
        && fields.header.fields().updates == Some(7)
}

/// Whether the vnodes of an increment are those of this stream.
fn has_vnodes(increment: &Increment) -> bool {
    match increment.fields().entries.as_slice() {
        [Entry::Whole(first), Entry::Whole(second)] => {
            (first.number, first.server_modified) == (1, 1677721600)
                && first.kind == VnodeKind::Directory
                && second.kind == VnodeKind::File
                && second.body.as_slice() == b"hi".as_slice()
        }
        _ => false,
    }
}

fn is_read(alloc: Global) -> bool {
    match read(alloc, &BOTH) {
        Ok((increment, used)) => used == 87 && has_heads(&increment) && has_vnodes(&increment),
        Err(_) => false,
    }
}

#[test]
fn both_kinds_of_length(rt: HostRuntime) {
    assert!(rt; is_read(rt.alloc()));
}

fn ends_with_both(reader: Reader) -> bool {
    match reader.finish() {
        Ok(increment) => has_vnodes(&increment),
        Err(_) => false,
    }
}

#[test]
fn a_stream_in_pieces(rt: HostRuntime) {
    let mut reader = Reader::new(rt.alloc());
    assert!(rt; reader.feed(&BOTH[..50]) == Ok(Fed::More));
    assert!(rt; reader.feed(&BOTH[50..86]) == Ok(Fed::More));
    assert!(rt; reader.feed(&BOTH[86..]) == Ok(Fed::Done { used: 1 }));
    assert!(rt; ends_with_both(reader));
}

#[test]
fn refused_again(rt: HostRuntime) {
    let mut reader = Reader::new(rt.alloc());
    assert!(rt; reader.feed(&ROW[..50]) == Ok(Fed::More));
    assert!(rt; reader.feed(&[0x74, 2]) == Err(StreamFault::Bad { at: 50 }));
    assert!(rt; reader.feed(&ROW[50..]) == Err(StreamFault::Bad { at: 50 }));
    assert!(rt; matches!(reader.finish(), Err(StreamFault::Bad { at: 50 })));
    assert!(rt; matches!(Reader::new(rt.alloc()).finish(), Err(StreamFault::Cut)));
}

#[test]
fn a_whole_input_in_pieces(rt: HostRuntime) {
    let mut input = InputReader::new(rt.alloc());
    assert!(rt; input.feed(&ROW[..59]).is_ok());
    assert!(rt; input.stops_at().is_none());
    assert!(rt; input.feed(&ROW[59..]).is_ok());
    assert!(rt; input.stops_at().is_none());
    assert!(rt; input.feed(&ROW[..7]).is_ok());
    assert!(rt; input.stops_at() == Some(60));
    assert!(rt; matches!(input.finish(), Input::Followed { at: 60 }));
}
