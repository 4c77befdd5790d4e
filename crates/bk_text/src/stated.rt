//! Texts whose length was stated before them: the first byte that no text of that length has there.

ghost use Rattle.std.specs.Prelude.{◌≡◌, ◌↔◌, ◌<◌, ◌≤◌, length, IsTrue, MatchOption};
ghost use Rattle.bk_text.specs.Places.{Begun, FailsAt, OfLength};
ghost use Rattle.bk_text.specs.Words.{IsWordOf};
ghost use Rattle.bk_text.specs.LevelPaths.{IsLevelPath, MayFollowBefore};

use crate::words::{Alphabet, is_allowed, may_stand};

/// Where the front of a text of so many bytes stops being 1 to `most` bytes of an alphabet; `None` where some such text
/// begins with it. It takes no memory.
pub fn fault_in_stated(alphabet: Alphabet, most: usize, count: usize, front: &[u8]) -> Option<usize>
    requires some { 0 < count }
    requires most { count ≤ most }
    requires within { length front.now ≤ count }
    ensures { MatchOption result (Begun (OfLength count (IsWordOf alphabet most)) front.now) (λ at. (at < length front.now) × FailsAt (OfLength count (IsWordOf alphabet most)) front.now at) }
{
    for (at, byte) in front.iter().enumerate() {
        if !may_stand(alphabet, most, at, *byte) {
            return Some(at);
        }
    }
    None
}

/// Whether a byte may follow in a path where its element has so many bytes so far and so many bytes stand behind it.
fn may_follow_before(in_element: usize, left: usize, byte: u8) -> bool
    ensures { IsTrue result ↔ MayFollowBefore in_element left byte }
{
    if byte == b'/' {
        in_element > 0 && left > 0
    } else {
        in_element < 28 && (in_element != 27 || left != 1) && is_allowed(Alphabet::AnyFirst, byte)
    }
}

/// Where the front of a text of so many bytes stops being a level's path; `None` where some path of that length begins
/// with it. A `/` as the last byte is refused, and a 28th byte of an element that leaves exactly one byte. It takes no
/// memory.
pub fn fault_in_stated_path(count: usize, front: &[u8]) -> Option<usize>
    requires some { 2 ≤ count }
    requires most { count ≤ 256 }
    requires within { length front.now ≤ count }
    ensures { MatchOption result (Begun (OfLength count IsLevelPath) front.now) (λ at. (at < length front.now) × FailsAt (OfLength count IsLevelPath) front.now at) }
{
    if front.is_empty() {
        return None;
    }
    if front[0] != b'/' {
        return Some(0);
    }
    let mut in_element = 0;
    for at in 1..front.len() {
        let byte = front[at];
        if !may_follow_before(in_element, count - at - 1, byte) {
            return Some(at);
        }
        in_element = if byte == b'/' { 0 } else { in_element + 1 };
    }
    None
}
