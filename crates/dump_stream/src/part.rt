//! The bytes of a section before its data, in memory of a fixed size.

ghost use Rattle.std.specs.Prelude.{◌≡◌, ◌+◌, ◌*◌, ◌≤◌, [], ◌∷◌, ◌++◌, length, map};
ghost use Rattle.std.specs.List.{flat_map};
ghost use Rattle.std.specs.Int.{w16, w32, to_be_bytes};
ghost use Rattle.dump_stream.specs.Fields.{spelled};
ghost use Rattle.dump_stream.specs.Written.{field, short_field, number_field, text_field, times_field, week_field};
ghost use Rattle.dump_stream.specs.Parts.{most, number_fields};

use std::marker::Model;

/// How many bytes there is room for: the two headers of a stream with the longest names and messages have 2,276.
const MOST: usize = 2304;

/// Bytes that are put one behind another.
#[derive(Debug, Drop)]
pub struct Part {
    bytes: [u8; MOST],
    len: usize,
}

impl Model for Part {
    ghost use Rattle.std.specs.Prelude.{List, ℕ, ◌≤◌, take};
    ghost use Rattle.dump_stream.specs.Parts.{most};

    ghost Value = { List ℕ };

    ghost view = { λ a. take a.len a.bytes };

    ghost invariant = { λ a. a.len ≤ most };
}

/// Zeros, in the place of bytes that aren't there yet.
fn blank() -> [u8; MOST] {
    [0; MOST]
}

impl Part {
    /// No bytes.
    pub fn new() -> Self
        ensures { result ≡ [] }
    {
        Part {
            bytes: blank(),
            len: 0,
        }
    }

    /// The bytes.
    pub fn as_slice(&self) -> &[u8]
        ensures { result.now ≡ self.now }
    {
        &self.bytes[..self.len]
    }

    /// Forgets the bytes.
    pub fn clear(&mut self)
        ensures { self.new ≡ [] }
    {
        self.len = 0;
    }

    /// Puts these bytes.
    pub fn put(&mut self, piece: &[u8])
        requires { length self.old + length piece.now ≤ most }
        ensures bytes { self.new ≡ self.old ++ piece.now }
        ensures len { length self.new ≡ length self.old + length piece.now }
    {
        let start = self.len;
        let end = start + piece.len();
        self.bytes[start..end].copy_from_slice(piece);
        self.len = end;
    }

    /// Puts a field.
    pub fn field(&mut self, tag: u8, payload: &[u8])
        requires { length self.old + 1 + length payload.now ≤ most }
        ensures bytes { self.new ≡ self.old ++ spelled (field tag payload.now) }
        ensures len { length self.new ≡ length self.old + 1 + length payload.now }
    {
        self.put(&[tag]);
        self.put(payload);
    }

    /// Puts a number of two bytes.
    pub fn short(&mut self, tag: u8, number: u16)
        requires { length self.old + 3 ≤ most }
        ensures bytes { self.new ≡ self.old ++ spelled (short_field tag number) }
        ensures len { length self.new ≡ length self.old + 3 }
    {
        self.field(tag, &number.to_be_bytes());
    }

    /// Puts a number of four bytes.
    pub fn number(&mut self, tag: u8, number: u32)
        requires { length self.old + 5 ≤ most }
        ensures bytes { self.new ≡ self.old ++ spelled (number_field tag number) }
        ensures len { length self.new ≡ length self.old + 5 }
    {
        self.field(tag, &number.to_be_bytes());
    }

    /// Puts numbers of four bytes, each behind its tag.
    pub fn numbers(&mut self, fields: &[(u8, u32)])
        requires { length self.old + 5 * length fields.now ≤ most }
        ensures bytes { self.new ≡ self.old ++ flat_map spelled (number_fields fields.now) }
        ensures len { length self.new ≡ length self.old + 5 * length fields.now }
    {
        for (tag, number) in fields {
            self.number(*tag, *number);
        }
    }

    /// Puts a text, ended by a 0 byte.
    pub fn text(&mut self, tag: u8, text: &[u8])
        requires { length self.old + 2 + length text.now ≤ most }
        ensures bytes { self.new ≡ self.old ++ spelled (text_field tag text.now) }
        ensures len { length self.new ≡ length self.old + 2 + length text.now }
    {
        self.field(tag, text);
        self.put(&[0]);
    }

    /// Puts the two times of a dump header.
    pub fn times(&mut self, tag: u8, from: u32, to: u32)
        requires { length self.old + 11 ≤ most }
        ensures bytes { self.new ≡ self.old ++ spelled (times_field tag from to) }
        ensures len { length self.new ≡ length self.old + 11 }
    {
        self.field(tag, &[0, 2]);
        self.words(&[from, to]);
    }

    /// Puts the seven numbers of a week.
    pub fn week(&mut self, tag: u8, week: &[u32; 7])
        requires { length self.old + 31 ≤ most }
        ensures bytes { self.new ≡ self.old ++ spelled (week_field tag week.now) }
        ensures len { length self.new ≡ length self.old + 31 }
    {
        self.field(tag, &[0, 7]);
        self.words(week);
    }

    /// Puts numbers of four bytes with no tag.
    fn words(&mut self, words: &[u32])
        requires { length self.old + 4 * length words.now ≤ most }
        ensures bytes { self.new ≡ self.old ++ flat_map (to_be_bytes w32) words.now }
        ensures len { length self.new ≡ length self.old + 4 * length words.now }
    {
        for word in words {
            self.put(&word.to_be_bytes());
        }
    }
}
