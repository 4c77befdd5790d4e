//! The first byte of a part that isn't 0.

ghost use Rattle.std.specs.Prelude.{◌≡◌, length, replicate, MatchOption};
ghost use Rattle.tape_frames.specs.Heads.{IsFirstSet};

/// The place of the first byte that isn't 0.
pub fn first_set(bytes: &[u8]) -> Option<usize>
    ensures { MatchOption result (bytes.now ≡ replicate (length bytes.now) 0) (λ at. IsFirstSet bytes.now at) }
{
    for (at, byte) in bytes.iter().enumerate() {
        if *byte != 0 {
            return Some(at);
        }
    }
    None
}
