//! Places at which texts are refused, and their parts.

use bk_text::{
    Alphabet, Host, LevelPath, Name, Part, SetName, TapeName, TextFault, capped_number, digits_in,
    fault_in_stated, fault_in_stated_path, form_tests, long_digits_in, place_of, split_word,
};
use std::alloc::Global;
use std::hash::{DefaultHasher, Hash, Hasher};
use std::test::Fail;

/// Where a text was refused; `None` where it was kept.
fn place<T: Drop>(answer: Result<T, TextFault>) -> Option<usize> {
    match answer {
        Ok(_) => None,
        Err(TextFault::BadText { at }) => Some(at),
        Err(TextFault::Memory) => Some(usize::MAX),
    }
}

fn names_are_refused(alloc: Global) -> bool {
    place(Name::parse(alloc, b"")) == Some(0)
        && place(Name::parse(alloc, b"-a")) == Some(0)
        && place(Name::parse(alloc, b"a b")) == Some(1)
        && place(Host::parse(alloc, b"a/")) == Some(1)
        && place(SetName::parse(alloc, b"a.b")) == Some(1)
}

fn other_texts_are_refused(alloc: Global) -> bool {
    place(TapeName::parse(alloc, b"a/b")) == Some(1)
        && place(Part::parse(alloc, b"//a")) == Some(1)
        && place(Part::parse(alloc, b"/")) == Some(1)
        && place(Part::parse(alloc, b"")) == Some(0)
}

#[test]
fn texts_are_refused_at_their_places(rt: HostRuntime) {
    assert!(rt; names_are_refused(rt.alloc()));
    assert!(rt; other_texts_are_refused(rt.alloc()));
}

fn place_of_level(alloc: Global, text: &[u8]) -> Option<usize> {
    place(LevelPath::parse(alloc, text))
}

#[test]
fn paths_are_refused_at_their_places(rt: HostRuntime) {
    let table: [(&[u8], usize); 8] = [
        (b"".as_slice(), 0),
        (b"full".as_slice(), 0),
        (b"/".as_slice(), 1),
        (b"//".as_slice(), 1),
        (b"/a/".as_slice(), 3),
        (b"/a//b".as_slice(), 3),
        (b"/a b".as_slice(), 2),
        (b"/a\x7f".as_slice(), 2),
    ];
    for (text, at) in table {
        assert!(rt; place_of_level(rt.alloc(), text) == Some(at));
    }
}

/// So many bytes of a path: of eight elements of 28 bytes, one of 22 and this byte, and letters behind it.
fn place_of_long(alloc: Global, last: u8, count: usize) -> Option<usize> {
    let mut text = [b'a'; 260];
    for at in [0, 29, 58, 87, 116, 145, 174, 203, 232] {
        text[at] = b'/';
    }
    text[255] = last;
    place_of_level(alloc, &text[..count.min(260)])
}

#[test]
fn long_paths(rt: HostRuntime) {
    assert!(rt; place_of_long(rt.alloc(), b'a', 255).is_none());
    assert!(rt; place_of_long(rt.alloc(), b'/', 256) == Some(255));
    assert!(rt; place_of_long(rt.alloc(), b'a', 257) == Some(256));
}

/// Whether a path has these parts: its last element, its depth and the path above.
fn has_parts(alloc: Global, text: &[u8], last: &[u8], depth: usize, above: &[u8]) -> bool {
    let Ok(path) = LevelPath::parse(alloc, text) else {
        return false;
    };
    path.last() == last && path.depth() == depth && is_above(&path, above)
}

fn is_above(path: &LevelPath, wanted: &[u8]) -> bool {
    match path.above() {
        Ok(Some(above)) => above.bytes() == wanted,
        Ok(None) => wanted.is_empty(),
        Err(_) => false,
    }
}

#[test]
fn parts_of_a_path(rt: HostRuntime) {
    assert!(rt; has_parts(rt.alloc(), b"/full/d1/d2", b"d2", 3, b"/full/d1"));
    assert!(rt; has_parts(rt.alloc(), b"/full", b"full", 1, b""));
}

/// Whether a volume's name has this base name.
fn has_base(alloc: Global, text: &[u8], base: &[u8]) -> bool {
    match Name::parse(alloc, text) {
        Ok(name) => name.base() == base,
        Err(_) => false,
    }
}

#[test]
fn base_names(rt: HostRuntime) {
    assert!(rt; has_base(rt.alloc(), b"x.backup.backup", b"x.backup"));
    assert!(rt; has_base(rt.alloc(), b".backup", b".backup"));
}

fn forms_hold() -> bool {
    Host::is_host(b"fs1")
        && !Host::is_host(b"-fs1")
        && SetName::is_set_name(b"users")
        && !SetName::is_set_name(b"a.b")
        && TapeName::is_tape_name(b"-")
        && !TapeName::is_tape_name(b"")
}

fn partitions_hold() -> bool {
    Part::is_part(b"/vicepa")
        && Part::is_part(b"vicepa")
        && !Part::is_part(b"/")
        && !Part::is_part(b"//a")
}

#[test]
fn forms_are_told(rt: HostRuntime) {
    form_tests();
    assert!(rt; forms_hold() && partitions_hold());
}

fn hash_of(name: &SetName) -> u64 {
    let mut hasher = DefaultHasher::new();
    name.hash(&mut hasher);
    hasher.finish()
}

/// Whether a set's name is equal to its copy, which has the same hash, and to no other one.
fn is_compared(users: &SetName, other: &SetName) -> bool {
    match users.clone() {
        Ok(same) => *users == same && *users != *other && hash_of(users) == hash_of(&same),
        Err(_) => false,
    }
}

#[test]
fn set_names_are_compared(rt: HostRuntime) -> Result<(), Fail> {
    let users = SetName::parse(rt.alloc(), b"users")?;
    let other = SetName::parse(rt.alloc(), b"user")?;
    assert!(rt; is_compared(&users, &other));
    Ok(())
}

fn second_word(text: &[u8]) -> Option<&[u8]> {
    let (_, rest) = split_word(text)?;
    let (word, _) = split_word(rest)?;
    Some(word)
}

fn words_are_found() -> bool {
    second_word(b" at\t 12/31 x") == Some(b"12/31".as_slice()) && second_word(b"at \t").is_none()
}

fn numbers_are_found() -> bool {
    place_of(b'/', b"12/31") == 2
        && digits_in(b"0012", 1, 4) == Some(12)
        && digits_in(b"12345", 1, 4).is_none()
        && capped_number(b"99999999999") == Some(10_000_000_000)
        && long_digits_in(b"4294967296", 1, 10) == Some(4_294_967_296)
}

fn stated_texts_are_judged() -> bool {
    fault_in_stated(Alphabet::Plain, 31, 3, b"a/") == Some(1)
        && fault_in_stated(Alphabet::Plain, 31, 3, b"ab").is_none()
        && fault_in_stated_path(3, b"/a/") == Some(2)
        && fault_in_stated_path(4, b"/a/").is_none()
}

#[test]
fn words_and_numbers_of_a_text(rt: HostRuntime) {
    assert!(rt; words_are_found());
    assert!(rt; numbers_are_found());
    assert!(rt; stated_texts_are_judged());
}
