//! Patterns for texts and names that no word of a line is.

use std::alloc::Global;
use volume_sets::{
    Pattern, PatternFault, one_expansion, pattern_fault, pattern_places, pattern_test,
};

/// The place at which a text is refused, or no place.
fn place(alloc: Global, text: &[u8]) -> Option<usize> {
    match Pattern::parse(alloc, text) {
        Err(PatternFault::BadPattern { at }) => Some(at),
        _ => None,
    }
}

#[test]
fn texts_that_no_word_is(rt: HostRuntime) {
    let rows: [(&[u8], usize); 3] = [
        (b"".as_slice(), 0),
        (b"a b".as_slice(), 1),
        (b"a\x7f".as_slice(), 1),
    ];
    for (text, at) in rows {
        assert!(rt; place(rt.alloc(), text) == Some(at));
        assert!(rt; !Pattern::is_pattern(text));
    }
    assert!(rt; pattern_fault(b"a**") == Some(2) && Pattern::is_pattern(b"a*"));
}

/// Whether a pattern matches a name; `None` where the text is none.
fn matched(alloc: Global, text: &[u8], name: &[u8]) -> Option<bool> {
    match Pattern::parse(alloc, text) {
        Ok(pattern) => Some(pattern.matches(name)),
        Err(_) => None,
    }
}

#[test]
fn names_that_no_volume_has(rt: HostRuntime) {
    one_expansion();
    pattern_test();
    pattern_places();
    let rows: [(&[u8], &[u8], bool); 6] = [
        (b".*".as_slice(), b"".as_slice(), true),
        (b".".as_slice(), b"".as_slice(), false),
        (b"[^a-c]".as_slice(), b"".as_slice(), false),
        (b"[-]".as_slice(), b"-".as_slice(), true),
        (b"[a-]".as_slice(), b"-".as_slice(), true),
        (b"^*-*".as_slice(), b"-".as_slice(), true),
    ];
    for (text, name, wanted) in rows {
        assert!(rt; matched(rt.alloc(), text, name) == Some(wanted), "{text:?}");
    }
}
