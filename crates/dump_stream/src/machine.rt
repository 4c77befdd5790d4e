//! Reading byte by byte.

ghost use Rattle.std.specs.Prelude.{◌≡◌, ◌↔◌, ◌≤◌, ℕ, List, [], ◌∷◌, ◌++◌, length, take, IsTrue, IfOk, Some, None};

use crate::form::{Form, Verdict};
use crate::judge::{free_bytes, judge};
use crate::reading::{form_of, stand_after};
use crate::sofar::Sofar;
use bk_text::Bytes;
use std::alloc::{AllocError, Global};
use std::mem::replace;
use vnode_model::Increment;

/// A place in a stream: between two fields, or behind a tag.
pub struct Machine {
    pub sofar: Sofar,
    pub tag: u8,
    pub form: Option<Form>,
    pub payload: Bytes,
}

/// It is written out, so that who lets a machine go calls it: derived, it would be proved once more at each such place.
impl Drop for Machine {
    fn drop(self) {
        let Machine {
            sofar,
            tag,
            form,
            payload,
        } = self;
    }
}

/// Makes room behind bytes for so many more and one, where there are some, so that they are never moved as they come.
fn make_room(alloc: Global, bytes: &mut Bytes, more: usize) -> Result<(), AllocError>
    ensures { bytes.new ≡ bytes.old }
{
    if more == 0 {
        return Ok(());
    }
    let mut items = replace(bytes, Bytes::new(alloc)).into_vec();
    let answer = items.reserve(more.saturating_add(1));
    *bytes = Bytes::from_vec(items);
    answer
}

impl Machine {
    ghost use Rattle.dump_stream.specs.Steps.{Inside, Ends, GoesOn, Moves, Steps, HasEnded, EndsWith};
    ghost use Rattle.dump_stream.specs.Sound.{IsSound, IsSoundMachine, SoundWhile};
    ghost use Rattle.dump_stream.specs.Machine.{form_at};

    pub fn new(alloc: Global) -> Self
        ensures { result ≡ record { sofar = Sofar.Start; tag = 0; form = None; payload = [] } }
    {
        Machine {
            sofar: Sofar::Start,
            tag: 0,
            form: None,
            payload: Bytes::new(alloc),
        }
    }

    /// Looks at the bytes behind a tag.
    fn settle(&mut self, alloc: Global, form: Form) -> Result<bool, AllocError>
        requires sound { IsSound self.old.sofar }
        requires comes { form_at self.old.sofar self.old.tag ≡ Some form }
        ensures sound { IfOk result (λ fits. SoundWhile fits self.new) }
        ensures settled { IfOk result (λ fits. Steps (Inside form self.old.sofar self.old.tag self.old.payload) fits self.new) }
    {
        match judge(form, self.payload.as_slice()) {
            Verdict::Never => Ok(false),
            Verdict::More => {
                self.form = Some(form);
                Ok(true)
            }
            Verdict::Whole => {
                let payload = replace(&mut self.payload, Bytes::new(alloc));
                let sofar = replace(&mut self.sofar, Sofar::Start);
                self.sofar = stand_after(sofar, alloc, self.tag, payload)?;
                self.form = None;
                Ok(true)
            }
        }
    }

    /// Whether a stream has ended.
    pub fn has_ended(&self) -> bool
        ensures { IsTrue result ↔ HasEnded self.now }
    {
        self.form.is_none() && matches!(self.sofar, Sofar::Ended { .. })
    }

    /// Takes out what the stream says that has ended.
    pub fn take_increment(&mut self) -> Increment
        requires sound { IsSoundMachine self.old }
        requires ended { HasEnded self.old }
        ensures { EndsWith self.old result }
    {
        match replace(&mut self.sofar, Sofar::Start) {
            Sofar::Ended { made } => Increment::new(made),
            _ => unreachable!(),
        }
    }

    /// Takes as many of these bytes as may follow whichever they are, where no form ends with them, and says how many.
    pub fn gulp(&mut self, alloc: Global, piece: &[u8]) -> Result<usize, AllocError>
        requires { IsSoundMachine self.old }
        ensures within { IfOk result (λ count. count ≤ length piece.now) }
        ensures sound { IfOk result (λ _. IsSoundMachine self.new) }
        ensures moved { IfOk result (λ count. GoesOn self.old → Moves (λ bytes. Ends self.old (take count piece.now ++ bytes)) self.new) }
        ensures ended { IfOk result (λ _. HasEnded self.new → HasEnded self.old) }
    {
        match self.form {
            None => Ok(0),
            Some(form) => {
                let free = free_bytes(form, self.payload.as_slice());
                make_room(alloc, &mut self.payload, free)?;
                let count = free.min(piece.len());
                self.payload.extend_from_slice(&piece[..count])?;
                Ok(count)
            }
        }
    }

    /// Takes the next byte. No stream goes on with it where this is false.
    pub fn step(&mut self, alloc: Global, byte: u8) -> Result<bool, AllocError>
        requires { IsSoundMachine self.old }
        ensures sound { IfOk result (λ fits. SoundWhile fits self.new) }
        ensures stepped { IfOk result (λ fits. GoesOn self.old → Steps (λ bytes. Ends self.old (byte ∷ bytes)) fits self.new) }
    {
        match self.form {
            None => match form_of(&self.sofar, byte) {
                None => Ok(false),
                Some(form) => {
                    self.tag = byte;
                    self.payload = Bytes::new(alloc);
                    let fits = self.settle(alloc, form)?;
                    Ok(fits)
                }
            },
            Some(form) => {
                self.payload.push(byte)?;
                let fits = self.settle(alloc, form)?;
                Ok(fits)
            }
        }
    }
}

/// What a piece of a stream did.
#[derive(Clone, Copy, Debug, PartialEq, Eq)]
pub enum Ran {
    /// It all fits, and more is to come.
    More,
    /// The stream ended behind so many bytes of it.
    Ended { used: usize },
    /// No stream goes on with the byte at this place.
    Stopped { at: usize },
}
