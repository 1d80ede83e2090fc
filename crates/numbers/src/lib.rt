// The 16.16 and 2.14 numbers (swash's fixed.rs).
#![tactic(auto)]

ghost use Rattle.std.specs.Prelude.{◌≡◌, ◌+◌, ◌-◌, ◌*◌, ◌/◌, ◌^◌, ◌<◌, ◌≤◌, min, if◌then◌else◌, int_lt, nat_lt, unsigned_abs};
ghost use Rattle.std.specs.Float.Ieee.{to_signed};
ghost use Rattle.std.specs.Int.{w16, w32};
ghost use Rattle.std.proofs.Common.{to_z};
ghost use Rattle.numbers.specs.Numbers.{mod_z, wrap32, plus_multiple, plus, minus, negated, lesser, greater, from_integer, from_f2dot14, to_f2dot14, is_neg, with_sign, times, quotient, over, times_over};
ghost use Rattle.numbers.specs.Floats.{of_float, to_float, whole_bits};

use std::ops::{Add, Div, Mul, Neg, Sub};

// 16.16
#[derive(Clone, Copy, PartialEq, Eq, PartialOrd, Ord)]
pub struct Fixed(pub i32);

// 2.14
#[derive(Clone, Copy, PartialEq, Eq, PartialOrd, Ord)]
pub struct F2Dot14(pub i16);

impl F2Dot14 {
    pub const ZERO: F2Dot14 = F2Dot14(0);

    // The number whose bits, in two's complement, are n.
    pub fn from_bits(n: u16) -> F2Dot14
        ensures { result.0 ≡ to_z w16 n }
    {
        F2Dot14(n.cast_signed())
    }

    pub fn to_bits(self) -> u16
        ensures { result ≡ mod_z self.0 0x1_0000 }
    {
        self.0.cast_unsigned()
    }
}

impl From<F2Dot14> for Fixed {
    ghost from_gives = { λ x r. r.0 ≡ from_f2dot14 x.0 };

    fn from(x: F2Dot14) -> Fixed {
        Fixed((x.0 as i32) * 4)
    }
}

impl From<f32> for Fixed {
    ghost from_gives = { λ x r. r.0 ≡ of_float x };

    fn from(x: f32) -> Fixed {
        cut(x * 65536.0 + 0.5)
    }
}

impl From<Fixed> for f32 {
    ghost from_gives = { λ x r. r ≡ to_float x.0 };

    fn from(x: Fixed) -> f32 {
        std::num::nearest_i32_to_f32(x.0) / 65536.0
    }
}

impl Add for Fixed {
    type Output = Fixed;

    ghost add_gives = { λ a b r. r.0 ≡ plus a.0 b.0 };

    fn add(self, rhs: Fixed) -> Fixed {
        Fixed::from_bits(self.to_bits().wrapping_add(rhs.to_bits()))
    }
}

impl Sub for Fixed {
    type Output = Fixed;

    ghost sub_gives = { λ a b r. r.0 ≡ minus a.0 b.0 };

    fn sub(self, rhs: Fixed) -> Fixed {
        Fixed::from_bits(self.to_bits().wrapping_sub(rhs.to_bits()))
    }
}

impl Neg for Fixed {
    type Output = Fixed;

    ghost neg_gives = { λ a r. r.0 ≡ negated a.0 };

    fn neg(self) -> Fixed {
        Fixed::from_bits(self.to_bits().wrapping_neg())
    }
}

impl Mul for Fixed {
    type Output = Fixed;

    ghost mul_gives = { λ a b r. r.0 ≡ times a.0 b.0 };

    fn mul(self, rhs: Fixed) -> Fixed {
        let q = (self.magnitude() * rhs.magnitude() + 0x8000) / 0x1_0000;
        Fixed::with_sign(self.negative() != rhs.negative(), q)
    }
}

impl Div for Fixed {
    type Output = Fixed;

    ghost div_gives = { λ a b r. r.0 ≡ over a.0 b.0 };

    fn div(self, rhs: Fixed) -> Fixed {
        let q = nearest_quotient(self.magnitude() * 0x1_0000, rhs.magnitude());
        Fixed::with_sign(self.negative() != rhs.negative(), q)
    }
}

impl Fixed {
    pub const ZERO: Fixed = Fixed(0);

    pub const ONE: Fixed = Fixed(0x1_0000);

    pub const MIN: Fixed = Fixed(-0x8000_0000);

    pub const MAX: Fixed = Fixed(0x7fff_ffff);

    // The number whose bits, in two's complement, are n.
    pub fn from_bits(n: u32) -> Fixed
        ensures { result.0 ≡ to_z w32 n }
    {
        Fixed(n.cast_signed())
    }

    pub fn to_bits(self) -> u32
        ensures { result ≡ mod_z self.0 0x1_0000_0000 }
    {
        self.0.cast_unsigned()
    }

    // x as 16.16, modulo 2^32.
    pub fn from_i32(x: i32) -> Fixed
        ensures { result.0 ≡ from_integer x }
    {
        Fixed::from_bits(x.cast_unsigned().wrapping_mul(0x1_0000))
    }

    pub fn to_f2dot14(self) -> F2Dot14
        ensures { result.0 ≡ to_f2dot14 self.0 }
    {
        let n = self.to_bits() as u64;
        F2Dot14::from_bits(((n + 2) / 4 % 0x1_0000) as u16)
    }

    fn negative(self) -> bool
        ensures { result ≡ is_neg self.0 }
    {
        self.0.is_negative()
    }

    // The absolute value; that of MIN too.
    fn magnitude(self) -> u64
        ensures value { result ≡ unsigned_abs self.0 }
        ensures bound { result ≤ 2 ^ 31 }
    {
        self.0.unsigned_abs() as u64
    }

    // q with a sign, modulo 2^32.
    fn with_sign(minus: bool, q: u64) -> Fixed
        ensures { result.0 ≡ wrap32 (with_sign minus q) }
    {
        let n = (q % 0x1_0000_0000) as u32;
        if minus {
            Fixed::from_bits(n.wrapping_neg())
        } else {
            Fixed::from_bits(n)
        }
    }

    // self multiplied by a part, then divided by the whole: what `mul` and `div` make of them. Of a scalar, a part and a whole in 0..1, as in every region of coordinates
    // in -1..1, nothing has a sign and all fits 32 bits.
    pub fn scaled(self, part: Fixed, whole: Fixed) -> Fixed
        ensures { result.0 ≡ over (times self.0 part.0) whole.0 }
    {
        let n = self.to_bits();
        let p = part.to_bits();
        let w = whole.to_bits();
        if n <= 0x1_0000 && w <= 0x1_0000 && p < w {
            let m = (n * p + 0x8000) / 0x1_0000;
            let q = nearest_quotient((m * 0x1_0000) as u64, w as u64);
            return Fixed::from_bits(q as u32);
        }
        self * part / whole
    }

    // self plus a 16.16 number times a whole number, modulo 2^32: nothing is rounded.
    pub fn add_product(self, x: Fixed, n: i16) -> Fixed
        ensures { result.0 ≡ plus_multiple self.0 x.0 n }
    {
        Fixed::from_bits(
            self.to_bits()
                .wrapping_add(x.to_bits().wrapping_mul((n as i32).cast_unsigned())),
        )
    }
}

// a·b over c.
pub fn muldiv(a: Fixed, b: Fixed, c: Fixed) -> Fixed
    ensures { result.0 ≡ times_over a.0 b.0 c.0 }
{
    let q = nearest_quotient(a.magnitude() * b.magnitude(), c.magnitude());
    let minus = (a.negative() != b.negative()) != c.negative();
    Fixed::with_sign(minus, q)
}

// n / d to the nearest, halves up, modulo 2^32; by 0 it is 2^31 - 1. The one place where a quotient is made.
fn nearest_quotient(n: u64, d: u64) -> u64
    requires n_bound { n ≤ 2 ^ 62 }
    requires d_bound { d ≤ 2 ^ 31 }
    ensures { result ≡ quotient n d }
{
    if d == 0 {
        return 0x7fff_ffff;
    }
    whole_quotient(n + d / 2, d) % 0x1_0000_0000
}

// n / d, rounded down, by shifting and subtracting (W-205). By a power of two, as the sides of most regions are, it is one shift.
fn whole_quotient(n: u64, d: u64) -> u64
    requires n_bound { n < 2 ^ 63 }
    requires d_nonzero { 0 < d }
    ensures { result ≡ n / d }
{
    let top = top_bit(d);
    if d == 1u64 << top {
        return n >> top;
    }
    if n < d {
        return 0;
    }
    long_quotient(n, d, top_bit(n) - top)
}

// The place, from 0, of the highest bit that is 1.
fn top_bit(n: u64) -> u32
    requires { 0 < n }
    ensures { (2 ^ result ≤ n) × (n < 2 ^ (result + 1)) × (result < 64) }
{
    63 - u64::leading_zeros(n)
}

// n / d, bit by bit. Shifted up by `shift` places d lies beside n; whether it can be taken once is the quotient's first bit, which `first` has at its place, and `shift`
// bits follow. The word has what is left of n above, and the bits found so far below; `take` is the shifted divisor less 1, so that taking it puts in a 1 below. Four
// bits a turn: `nearest_quotient`, into which all this is drawn, is then so large that the compiler leaves it a function, where a smaller one goes into each caller.
fn long_quotient(n: u64, d: u64, shift: u32) -> u64
    requires d_nonzero { 0 < d }
    requires shift_bound { d * 2 ^ shift < 2 ^ 63 }
    requires n_bound { n < 2 * (d * 2 ^ shift) }
    ensures { result ≡ n / d }
{
    let unit = 1u64 << shift;
    let shifted = d << shift;
    let mut word = n;
    let mut first = 0u64;
    if n >= shifted {
        word = n - shifted;
        first = unit;
    }
    let take = shifted - 1;
    if shift % 2 == 1 {
        word = next_bit(word, take);
    }
    if shift / 2 % 2 == 1 {
        word = next_bit(next_bit(word, take), take);
    }
    for _ in 0..shift / 4 {
        word = next_bit(next_bit(next_bit(next_bit(word, take), take), take), take);
    }
    (word & (unit - 1)) + first
}

// The word shifted up by one place, into which a 1 comes where `take` can be taken. The sign of the difference tells, so that the compiler needs no branch.
fn next_bit(word: u64, take: u64) -> u64
    requires word_le_take { word ≤ take }
    requires take_bound { take < 2 ^ 63 }
    ensures { (result ≡ (if nat_lt (word + word) take then word + word else word + word - take)) × (result ≤ take) }
{
    let twice = word + word;
    let lower = twice.wrapping_sub(take);
    if lower < 0x8000_0000_0000_0000 {
        return lower;
    }
    twice
}

// The whole part of the f32 with the bits n, without its sign, and at most 2^31.
fn whole_part(n: u32) -> u64
    ensures { result ≡ min (whole_bits n) 0x8000_0000 }
{
    let e = (n / 0x80_0000 % 256) as u64;
    let d = (0x80_0000 + n % 0x80_0000) as u64;
    if e < 127 {
        return 0;
    }
    if e < 150 {
        return d >> (150 - e);
    }
    if e < 158 {
        return d << (e - 150);
    }
    0x8000_0000
}

// y without its fraction, held to the i32 range. A NaN is 0.
fn cut(y: f32) -> Fixed
    ensures { result.0 ≡ to_signed 31 y }
{
    if y != y {
        return Fixed::ZERO;
    }
    let n = f32::to_bits(y);
    let m = whole_part(n);
    if n < 0x8000_0000 {
        if m < 0x8000_0000 {
            return Fixed::with_sign(false, m);
        }
        return Fixed::MAX;
    }
    Fixed::with_sign(true, m)
}
