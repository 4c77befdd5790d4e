//! The data of a volume's fragments, joined and read as a stream as it comes.

ghost use Rattle.std.specs.Prelude.{[], ◌∷◌, List as AnyList, OnOk};
ghost use Rattle.archive_model.specs.Plays.{Piece};
ghost use Rattle.dump_stream.specs.Inputs.{IsOpen};
ghost use Rattle.tape_frames.specs.Layouts.{FitsData};
ghost use Rattle.restore_chain.specs.Playing.{spot_of, HasJoined, Joins, Finishes};

use dump_stream::{Input, InputReader};
use std::alloc::{AllocError, Global};
use tape_frames::DataFields;
use vnode_model::Increment;

/// A record of a tape of a dump: the tape's number, and the record's.
#[derive(Clone, Copy, Debug, PartialEq, Eq)]
pub struct Site {
    pub tape: u32,
    pub place: u32,
}

/// The data so far. Where no stream has it, the record with the first byte that none has there is noted, and no more is read.
#[derive(Drop)]
pub struct Joined {
    input: InputReader,
    noted: Option<Site>,
}

impl Joined {
    /// No data.
    pub(crate) fn new(alloc: Global) -> Self
        ensures is_open { IsOpen result.input }
        ensures joined { HasJoined [] result }
    {
        Joined {
            input: InputReader::new(alloc),
            noted: None,
        }
    }

    /// Takes a Data that stands at a record.
    ///
    /// # Errors
    ///
    /// Memory, where it is refused. No more is to be joined then.
    pub(crate) fn take(&mut self, site: Site, piece: &DataFields) -> Result<(), AllocError>
        requires is_open { IsOpen self.old.input }
        requires fits { FitsData piece.now }
        ensures is_open { OnOk result (IsOpen self.new.input) }
        ensures joins { OnOk result (Joins (record { spot = spot_of site; data_frame = piece.now } ∷ []) self.old self.new) }
    {
        match self.noted {
            Some(_site) => Ok(()),
            None => {
                self.input.feed(&piece.bytes[..piece.used as usize])?;
                match self.input.stops_at() {
                    None => Ok(()),
                    Some(_at) => {
                        self.noted = Some(site);
                        Ok(())
                    }
                }
            }
        }
    }

    /// What the data gives: an increment, or the record with the first byte that no stream has there; where the data is a proper
    /// prefix of a stream, the last fragment's end. It takes no memory.
    pub(crate) fn finish(self, end: Site) -> Result<Increment, Site>
        requires { IsOpen self.input }
        ensures { (pieces : AnyList Piece) → HasJoined pieces self → Finishes pieces end result }
    {
        let Joined { input, noted } = self;
        match noted {
            Some(site) => Err(site),
            None => match input.finish() {
                Input::Stream(increment) => Ok(increment),
                Input::Cut { .. } => Err(end),
                Input::Bad { .. } => Err(end),
                Input::Followed { .. } => Err(end),
            },
        }
    }
}
