//! A volume's stream in pieces.

ghost use Rattle.std.specs.Prelude.{◌≡◌, ◌↔◌, IsTrue, [], ◌++◌, length, min, take, drop};
ghost use Rattle.vnode_model.specs.Increments.{selected};
ghost use Rattle.dump_stream.specs.Stream.{Spells};
ghost use Rattle.dump_stream.specs.Written.{written};
ghost use Rattle.dump_stream.specs.Allowed.{Allowed};

use crate::part::Part;
use crate::places::{Place, give, is_over, let_go};
use crate::said::volume_is_allowed;
use crate::sections::put_headers;
use std::marker::Model;
use vnode_model::Volume;

/// The stream of a volume's increment, given in pieces. It owns the volume. Contracts see it as the bytes that are
/// left. None of its calls takes memory.
#[derive(Debug)]
pub struct Writer {
    volume: Volume,
    from: u32,
    place: Place,
}

/// It is written out, so that who lets a writer go calls it: derived, it would be proved once more at each such place.
impl Drop for Writer {
    fn drop(self) {
        let Writer {
            volume,
            from,
            place,
        } = self;
    }
}

impl Model for Writer {
    ghost use Rattle.std.specs.Prelude.{List, ℕ};

    ghost Value = { List ℕ };

    ghost use Rattle.dump_stream.specs.Left.{left};

    ghost view = { λ a. left a.volume.vnodes a.from a.place };
}

impl Writer {
    /// The stream of the volume's increment from a time on, in seconds since 1970; `is_whole_from` says which vnodes are
    /// whole. `to` is the time of the volume's state. All that is left is a stream, and it says that increment.
    pub fn new(volume: Volume, from: u32, to: u32) -> Self
        ensures left { result ≡ written (selected volume from to) }
        ensures stream { Spells result (selected volume from to) }
        ensures allowed { Allowed (selected volume from to) }
    {
        volume_is_allowed(&volume, from, to);
        let mut part = Part::new();
        let header = volume.header();
        let fields = header.fields();
        put_headers(&mut part, fields.id, &fields.name, from, to, header);
        Writer {
            volume,
            from,
            place: Place {
                part,
                step: 0,
                taken: 0,
                given: 0,
            },
        }
    }

    /// Whether every byte was given, so that no piece is to come.
    pub fn is_over(&self) -> bool
        ensures { IsTrue result ↔ (self.now ≡ []) }
    {
        is_over(self.volume.vnodes(), &self.place)
    }

    /// Lets go of the volume, of which every byte was given: so that another one may be taken up without holding both. Nothing is
    /// left then either.
    pub fn let_go(&mut self)
        requires { self.old ≡ [] }
        ensures { self.new ≡ [] }
    {
        let_go(&mut self.volume, &self.place);
    }

    /// Fills `into` with the next bytes, and says how many these are: fewer than `into` has room for only where no more
    /// are left. What stands in `into` behind them stays.
    pub fn next(&mut self, into: &mut [u8]) -> usize
        ensures count { result ≡ min (length into.old) (length self.old) }
        ensures given { into.new ≡ take result self.old ++ drop result into.old }
        ensures left { self.new ≡ drop result self.old }
    {
        give(self.volume.vnodes(), self.from, &mut self.place, into)
    }
}
