//! Writing the block of a frame.

ghost use Rattle.std.specs.Prelude.{◌≡◌, ◌+◌, ◌≤◌, ◌<◌, ◌++◌, length, replicate};
ghost use Rattle.byte_formats.specs.Bytes.{four, text1, text2};
ghost use Rattle.tape_frames.specs.Blocks.{padded};
ghost use Rattle.tape_frames.specs.Kinds.{head};

use crate::kind::{Kind, head_of};
use bk_text::{bytes_of_u16, bytes_of_u32};
use std::marker::Model;

/// The block of a frame, and of a tape's record.
pub type Block = [u8; 16384];

/// A block that is written from its front on; zeros stand behind what was written.
#[derive(Debug, Drop)]
pub struct Page {
    bytes: Block,
    at: usize,
}

impl Model for Page {
    ghost use Rattle.std.specs.Prelude.{◌≡◌, ◌≤◌, ◌-◌, ℕ, List, length, take, drop, replicate};

    ghost Value = { List ℕ };

    ghost view = { λ a. take a.at a.bytes };

    ghost invariant = { λ a. (length a.bytes ≡ 16384) × (a.at ≤ 16384) × (drop a.at a.bytes ≡ replicate (16384 - a.at) 0) };
}

impl Page {
    /// The head of a kind is written.
    pub fn new(kind: Kind) -> Page
        ensures value { result ≡ head kind }
        ensures long { length result ≡ 8 }
    {
        let mut page = Page {
            bytes: [0; 16384],
            at: 0,
        };
        page.piece(&head_of(kind));
        page
    }

    /// Writes bytes.
    pub fn piece(&mut self, bytes: &[u8])
        requires { length self.old + length bytes.now ≤ 16384 }
        ensures value { self.new ≡ self.old ++ bytes.now }
        ensures long { length self.new ≡ length self.old + length bytes.now }
    {
        let end = self.at + bytes.len();
        self.bytes[self.at..end].copy_from_slice(bytes);
        self.at = end;
    }

    /// Leaves so many zeros.
    pub fn zeros(&mut self, count: usize)
        requires { length self.old + count ≤ 16384 }
        ensures value { self.new ≡ self.old ++ replicate count 0 }
        ensures long { length self.new ≡ length self.old + count }
    {
        self.at += count;
    }

    /// Writes a number of four bytes.
    #[tactic(auto, unfolding(byte_formats::specs::Bytes::four))]
    pub fn four(&mut self, n: u32)
        requires { length self.old + 4 ≤ 16384 }
        ensures value { self.new ≡ self.old ++ four n }
        ensures long { length self.new ≡ length self.old + 4 }
    {
        self.piece(&bytes_of_u32(n));
    }

    /// Writes a text behind its length in one byte.
    #[tactic(auto, unfolding(byte_formats::specs::Bytes::text1))]
    pub fn text1(&mut self, text: &[u8])
        requires short { length text.now < 256 }
        requires room { length self.old + 1 + length text.now ≤ 16384 }
        ensures value { self.new ≡ self.old ++ text1 text.now }
        ensures long { length self.new ≡ length self.old + 1 + length text.now }
    {
        self.piece(&[text.len() as u8]);
        self.piece(text);
    }

    /// Writes a text behind its length in two bytes.
    #[tactic(auto, unfolding(byte_formats::specs::Bytes::two, byte_formats::specs::Bytes::text2))]
    pub fn text2(&mut self, text: &[u8])
        requires short { length text.now < 65536 }
        requires room { length self.old + 2 + length text.now ≤ 16384 }
        ensures value { self.new ≡ self.old ++ text2 text.now }
        ensures long { length self.new ≡ length self.old + 2 + length text.now }
    {
        self.piece(&bytes_of_u16(text.len() as u16));
        self.piece(text);
    }

    /// Writes the block.
    pub fn finish(&self, into: &mut Block)
        ensures { into.new ≡ padded 16384 self.now }
    {
        *into = self.bytes;
    }
}
