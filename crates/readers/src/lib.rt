// Refusals, and bounded big-endian reads of a font (swash's parse.rs). A read answers what its definition says, for every position; `from_be_data` is for a position that is known to be in the font.
#![tactic(auto)]

ghost use Rattle.std.specs.Prelude.{◌≡◌, ◌≤◌, ◌+◌, ℕ, length};
ghost use Rattle.std.specs.Int.{w8, w16, w32};
ghost use Rattle.std.proofs.Common.{to_z};
ghost use Rattle.readers.specs.Reading.{big_endian, run, read_at};
ghost use Rattle.readers.specs.Answers.{number_of, outcome};
ghost use Rattle.readers.specs.Numbers.{as_fixed, as_f2_dot14, as_u24};

use numbers::{F2Dot14, Fixed};

// Document 01's seven, by their numbers.
#[derive(Clone, Copy, Debug, PartialEq, Eq)]
pub enum Refusal {
    Absent = 1,
    Short = 2,
    Index = 3,
    Tag = 4,
    Arithmetic = 5,
    Lengths = 6,
    Room = 7,
}

impl From<Refusal> for u8 {
    ghost from_gives = { λ r n. n ≡ number_of r };

    fn from(r: Refusal) -> u8 {
        r as u8
    }
}

// A number that a font holds in big-endian bytes.
pub trait FromBeData: Sized {
    const SIZE: usize;

    ghost SIZE: { ℕ };

    // What the bytes' number stands for.
    ghost of_number: { ℕ → Self };

    // The number at a position, where its bytes are there.
    fn from_be_data(font: &[u8], at: usize) -> Self
        requires { at + SIZE ≤ length font.now }
        ensures { result ≡ of_number (big_endian SIZE font.now at) };
}

impl FromBeData for u8 {
    const SIZE: usize = 1;

    ghost SIZE = { 1 };

    ghost of_number = { λ n. n };

    fn from_be_data(font: &[u8], at: usize) -> u8 {
        font[at]
    }
}

impl FromBeData for i8 {
    const SIZE: usize = 1;

    ghost SIZE = { 1 };

    ghost of_number = { to_z w8 };

    fn from_be_data(font: &[u8], at: usize) -> i8 {
        font[at].cast_signed()
    }
}

impl FromBeData for u16 {
    const SIZE: usize = 2;

    ghost SIZE = { 2 };

    ghost of_number = { λ n. n };

    fn from_be_data(font: &[u8], at: usize) -> u16 {
        u16::from_be_bytes([font[at], font[at + 1]])
    }
}

impl FromBeData for i16 {
    const SIZE: usize = 2;

    ghost SIZE = { 2 };

    ghost of_number = { to_z w16 };

    fn from_be_data(font: &[u8], at: usize) -> i16 {
        u16::from_be_data(font, at).cast_signed()
    }
}

// 24 bits.
#[derive(Clone, Copy)]
pub struct U24(pub u32);

impl FromBeData for U24 {
    const SIZE: usize = 3;

    ghost SIZE = { 3 };

    ghost of_number = { as_u24 };

    fn from_be_data(font: &[u8], at: usize) -> U24 {
        U24(u32::from_be_bytes([0, font[at], font[at + 1], font[at + 2]]))
    }
}

impl FromBeData for u32 {
    const SIZE: usize = 4;

    ghost SIZE = { 4 };

    ghost of_number = { λ n. n };

    fn from_be_data(font: &[u8], at: usize) -> u32 {
        u32::from_be_bytes([font[at], font[at + 1], font[at + 2], font[at + 3]])
    }
}

impl FromBeData for F2Dot14 {
    const SIZE: usize = 2;

    ghost SIZE = { 2 };

    ghost of_number = { as_f2_dot14 };

    fn from_be_data(font: &[u8], at: usize) -> F2Dot14 {
        F2Dot14::from_bits(u16::from_be_data(font, at))
    }
}

impl FromBeData for Fixed {
    const SIZE: usize = 4;

    ghost SIZE = { 4 };

    ghost of_number = { as_fixed };

    fn from_be_data(font: &[u8], at: usize) -> Fixed {
        Fixed::from_bits(u32::from_be_data(font, at))
    }
}

// The number at a position. The length is tested before the position, so that no position makes a sum wrap.
pub fn read<T: FromBeData>(font: &[u8], at: usize) -> Result<T, Refusal>
    ensures { outcome result ≡ run font.now (read_at T.SIZE T.of_number at) }
{
    if font.len() < T::SIZE || font.len() - T::SIZE < at {
        return Err(Refusal::Short);
    }
    Ok(T::from_be_data(font, at))
}
