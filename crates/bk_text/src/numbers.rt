//! Numbers as bytes, the most significant byte first.

ghost use Rattle.std.specs.Prelude.{◌≡◌, ◌≤◌, length, take};
ghost use Rattle.std.specs.Int.{w16, w32, w64, to_be_bytes, from_be_bytes};

use byteorder::{BigEndian, ByteOrder};

/// The number that the first two bytes write.
#[tactic(auto, using(crate::proofs::NumberLaws::big_two, std::proofs::lemmas::Nat::be_bytes_2, std::proofs::lemmas::List::take_all))]
pub fn read_u16(bytes: &[u8]) -> u16
    requires { 2 ≤ length bytes.now }
    ensures is { result ≡ from_be_bytes w16 (take 2 bytes.now) }
    ensures back { to_be_bytes w16 result ≡ take 2 bytes.now }
    ensures whole { length bytes.now ≡ 2 → result ≡ from_be_bytes w16 bytes.now }
{
    BigEndian::read_u16(&bytes[..2])
}

/// The number that the first four bytes write.
#[tactic(auto, using(crate::proofs::NumberLaws::big_four, std::proofs::lemmas::Nat::be_bytes_4, std::proofs::lemmas::List::take_all))]
pub fn read_u32(bytes: &[u8]) -> u32
    requires { 4 ≤ length bytes.now }
    ensures is { result ≡ from_be_bytes w32 (take 4 bytes.now) }
    ensures back { to_be_bytes w32 result ≡ take 4 bytes.now }
    ensures whole { length bytes.now ≡ 4 → result ≡ from_be_bytes w32 bytes.now }
{
    BigEndian::read_u32(&bytes[..4])
}

/// The number that the first eight bytes write.
#[tactic(auto, using(crate::proofs::NumberLaws::big_eight, std::proofs::lemmas::Nat::be_bytes_8, std::proofs::lemmas::List::take_all))]
pub fn read_u64(bytes: &[u8]) -> u64
    requires { 8 ≤ length bytes.now }
    ensures is { result ≡ from_be_bytes w64 (take 8 bytes.now) }
    ensures back { to_be_bytes w64 result ≡ take 8 bytes.now }
    ensures whole { length bytes.now ≡ 8 → result ≡ from_be_bytes w64 bytes.now }
{
    BigEndian::read_u64(&bytes[..8])
}

/// The two bytes of a number.
pub fn bytes_of_u16(number: u16) -> [u8; 2]
    ensures { result ≡ to_be_bytes w16 number }
{
    let mut bytes = [0; 2];
    BigEndian::write_u16(&mut bytes, number);
    bytes
}

/// The four bytes of a number.
pub fn bytes_of_u32(number: u32) -> [u8; 4]
    ensures { result ≡ to_be_bytes w32 number }
{
    let mut bytes = [0; 4];
    BigEndian::write_u32(&mut bytes, number);
    bytes
}

/// The eight bytes of a number.
pub fn bytes_of_u64(number: u64) -> [u8; 8]
    ensures { result ≡ to_be_bytes w64 number }
{
    let mut bytes = [0; 8];
    BigEndian::write_u64(&mut bytes, number);
    bytes
}
