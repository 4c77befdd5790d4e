//! What the database calls for on a tape: the frames of one fragment.

ghost use Rattle.std.specs.Prelude.{◌≡◌, ◌↔◌, ◌+◌, ◌≤◌, ◌==◌, IsTrue, true, false};
ghost use Rattle.tape_frames.specs.declared.frame.Frame.TheVariants as frames;
ghost use Rattle.restore_chain.specs.Playing.{lying_of, IsFitCall};

use tape_frames::{Frame, VolHead, VolHeadFields};

/// A fragment of a volume's stream that is called for: the number of its tape, the number of the record at which it begins, its
/// head, and whether the volume's stream ends with it.
pub struct Called {
    pub tape: u32,
    pub at: u32,
    pub head: VolHead,
    pub ends: bool,
}

/// It is written out, so that each function that lets one go calls it.
impl Drop for Called {
    fn drop(self) {
        let Called {
            tape,
            at,
            head,
            ends,
        } = self;
    }
}

/// What was seen of a fragment: the sum of its bytes, whether it has a Data, and whether the last one had all the room used, so
/// that more may follow.
#[derive(Clone, Copy, Debug, PartialEq, Eq)]
pub struct Seen {
    pub sum: u32,
    pub some: bool,
    pub is_open: bool,
}

impl Seen {
    /// Nothing was seen.
    pub(crate) fn new() -> Seen
        ensures { result ≡ record { sum = 0; some = false; is_open = true } }
    {
        Seen {
            sum: 0,
            some: false,
            is_open: true,
        }
    }

    /// What was seen with one Data more, of which so many bytes are used.
    pub(crate) fn with(&self, used: u32) -> Seen
        requires { self.now.sum + used ≤ 4294967295 }
        ensures { result ≡ record { sum = self.now.sum + used; some = true; is_open = (used == 16352) } }
    {
        Seen {
            sum: self.sum + used,
            some: true,
            is_open: used == 16352,
        }
    }
}

/// What every fragment that is called for has.
pub(crate) fn is_fit_call(called: &Called)
    ensures { IsFitCall (lying_of called.now) }
{
    let _head = called.head.fields();
}

/// Whether two heads are the same.
fn is_same_head(one: &VolHeadFields, other: &VolHeadFields) -> bool
    ensures { IsTrue result ↔ (one.now ≡ other.now) }
{
    one.dump == other.dump
        && one.index == other.index
        && one.fragment == other.fragment
        && one.volume == other.volume
        && one.clone == other.clone
        && one.from == other.from
        && one.name.bytes() == other.name.bytes()
        && one.server.bytes() == other.server.bytes()
        && one.partition.bytes() == other.partition.bytes()
}

/// Whether a frame is the head that is called for. It is let go.
pub(crate) fn is_head(found: Frame, called: &Called) -> bool
    ensures { IsTrue result ↔ (found ≡ frames.VolHead called.now.head) }
{
    let is = match &found {
        Frame::VolHead(head) => is_same_head(head.fields(), called.head.fields()),
        _ => false,
    };
    drop(found);
    is
}
