//! Reading a stream that comes in pieces.

ghost use Rattle.std.specs.Prelude.{◌≡◌, ℕ, ◌+◌, ◌<◌, ◌^◌, List, [], ◌++◌, length, Ok, Err, IsOk};

use crate::answers::StreamFault;
use crate::machine::{Machine, Ran};
use crate::pieces::run;
use std::alloc::Global;
use std::mem::replace;
use vnode_model::Increment;

/// What a piece did.
#[derive(Clone, Copy, Debug, PartialEq, Eq)]
pub enum Fed {
    /// The bytes so far are a proper prefix of a stream.
    More,
    /// A stream ended behind so many bytes of this piece.
    Done { used: usize },
}

#[derive(Drop)]
enum State {
    Going,
    Finished { increment: Increment },
    Stuck { at: usize },
    Lost,
}

/// A stream that comes in pieces.
pub struct Reader {
    alloc: Global,
    machine: Machine,
    count: usize,
    state: State,
}

/// It is written out, as a machine's is.
impl Drop for Reader {
    fn drop(self) {
        let Reader {
            alloc,
            machine,
            count,
            state,
        } = self;
    }
}

impl Reader {
    ghost use Rattle.dump_stream.specs.Feeds.{FeedAnswers, HasFed, FinishAnswers, IsUnfinished, StaysUnfinished, IsGoing, IsDone, IsStuck, IsLost, Leaves};
    ghost use Rattle.dump_stream.specs.declared.answers.StreamFault.TheVariants.{Cut, Bad, Memory};

    /// A reader that was fed nothing. It takes no memory.
    #[tactic(auto, unfolding(crate::specs::Feeds::HasFed, crate::specs::Feeds::IsUnfinished, crate::specs::Feeds::IsGoing, crate::specs::Feeds::IsDone, crate::specs::Feeds::IsStuck, crate::specs::Feeds::IsLost))]
    pub fn new(alloc: Global) -> Self
        ensures fed { HasFed [] result }
        ensures unfinished { IsUnfinished result }
        ensures going { IsGoing result }
    {
        Reader {
            alloc,
            machine: Machine::new(alloc),
            count: 0,
            state: State::Going,
        }
    }

    /// Takes the next piece. No stream has ended before.
    #[tactic(auto, unfolding(crate::specs::Feeds::HasFed, crate::specs::Feeds::IsUnfinished, crate::specs::Feeds::IsGoing, crate::specs::Feeds::IsDone, crate::specs::Feeds::IsStuck, crate::specs::Feeds::IsLost))]
    pub fn feed(&mut self, piece: &[u8]) -> Result<Fed, StreamFault>
        requires { IsUnfinished self.old }
        // Only Done ends it.
        ensures unfinished { StaysUnfinished result self.new }
        ensures leaves { Leaves result self.new }
        // The answer is that to all bytes fed so far.
        ensures answer { (bytes : List ℕ) → HasFed bytes self.old → length bytes + length piece.now < 2 ^ 64
            → FeedAnswers bytes piece.now result × HasFed (bytes ++ piece.now) self.new }
        ensures bad_again { (at : ℕ) → IsStuck at self.old → result ≡ Err (Bad at) }
        ensures lost_again { IsLost self.old → result ≡ Err Memory }
    {
        match &self.state {
            State::Finished { .. } => unreachable!(),
            State::Lost => Err(StreamFault::Memory),
            State::Stuck { at } => Err(StreamFault::Bad { at: *at }),
            State::Going => {
                let Ok(ran) = run(&mut self.machine, self.alloc, piece) else {
                    self.state = State::Lost;
                    return Err(StreamFault::Memory);
                };
                let before = self.count;
                self.count = before.saturating_add(piece.len());
                match ran {
                    Ran::More => Ok(Fed::More),
                    Ran::Ended { used } => {
                        let increment = self.machine.take_increment();
                        self.state = State::Finished { increment };
                        Ok(Fed::Done { used })
                    }
                    Ran::Stopped { at } => {
                        let at = before.saturating_add(at);
                        self.state = State::Stuck { at };
                        Err(StreamFault::Bad { at })
                    }
                }
            }
        }
    }

    /// Takes out what the stream says that has ended.
    #[tactic(auto, unfolding(crate::specs::Feeds::HasFed, crate::specs::Feeds::IsUnfinished, crate::specs::Feeds::IsGoing, crate::specs::Feeds::IsDone, crate::specs::Feeds::IsStuck, crate::specs::Feeds::IsLost))]
    pub(crate) fn take_increment(&mut self) -> Increment
        requires { IsDone self.old }
        ensures { (bytes : List ℕ) → HasFed bytes self.old → FinishAnswers bytes (Ok result) }
    {
        match replace(&mut self.state, State::Lost) {
            State::Finished { increment } => increment,
            _ => unreachable!(),
        }
    }

    /// How it stands.
    fn into_state(self) -> State
        ensures { result ≡ self.state }
    {
        let Reader {
            alloc,
            machine,
            count,
            state,
        } = self;
        state
    }

    /// What the stream says that was fed. It takes no memory.
    #[tactic(auto, unfolding(crate::specs::Feeds::HasFed, crate::specs::Feeds::IsUnfinished, crate::specs::Feeds::IsGoing, crate::specs::Feeds::IsDone, crate::specs::Feeds::IsStuck, crate::specs::Feeds::IsLost))]
    pub fn finish(self) -> Result<Increment, StreamFault>
        ensures answer { (bytes : List ℕ) → HasFed bytes self → FinishAnswers bytes result }
        ensures done { IsDone self → IsOk result }
        ensures cut { IsGoing self → result ≡ Err Cut }
        ensures bad { (at : ℕ) → IsStuck at self → result ≡ Err (Bad at) }
        ensures lost { IsLost self → result ≡ Err Memory }
    {
        match self.into_state() {
            State::Going => Err(StreamFault::Cut),
            State::Lost => Err(StreamFault::Memory),
            State::Stuck { at } => Err(StreamFault::Bad { at }),
            State::Finished { increment } => Ok(increment),
        }
    }
}
