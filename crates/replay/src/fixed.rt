// Cases of the 16.16 arithmetic.
use crate::parse::{fixed, float, half, natural};
use crate::print::Output;
use numbers::{F2Dot14, Fixed};

pub(crate) fn answer(words: &[&[u8]], out: &mut Output) -> Option<()> {
    match words {
        [b"from_f32", x] => out.put(Fixed::from(float(x)?)),
        [b"neg", x] => out.put(-fixed(x)?),
        [b"from_i32", x] => out.put(Fixed::from_i32(fixed(x)?.0)),
        [b"from_f2dot14", x] => out.put(Fixed::from(F2Dot14(half(x)?))),
        [b"to_f2dot14", x] => out.put(fixed(x)?.to_f2dot14()),
        [b"to_f32", x] => out.put(f32::from(fixed(x)?)),
        [b"from_f32_block", start, count] => {
            out.put(checksum(natural(start)?, natural(count)?, |n| {
                Fixed::from(numerals::float(n)).to_bits()
            }))
        }
        [b"to_f32_block", start, count] => {
            out.put(checksum(natural(start)?, natural(count)?, |n| {
                float_bits(Fixed::from_bits(n).into())
            }))
        }
        [b"muldiv", x, y, z] => out.put(numbers::muldiv(fixed(x)?, fixed(y)?, fixed(z)?)),
        [name, x, y] => return of_two(name, fixed(x)?, fixed(y)?, out),
        _ => return None,
    }
    Some(())
}

fn of_two(name: &[u8], x: Fixed, y: Fixed, out: &mut Output) -> Option<()> {
    match name {
        b"add" => out.put(x + y),
        b"sub" => out.put(x - y),
        b"lt" => out.put(x < y),
        b"min" => out.put(x.min(y)),
        b"max" => out.put(x.max(y)),
        b"mul" => out.put(x * y),
        b"div" => out.put(x / y),
        _ => return None,
    }
    Some(())
}

// A float's bits. All NaNs are one.
fn float_bits(x: f32) -> u32 {
    if x.is_nan() {
        return 0x7fc0_0000;
    }
    x.to_bits()
}

// The checksum over the answers' bits for the `count` patterns from `start` on.
fn checksum<F: Fn(u32) -> u32>(start: u32, count: u32, answer: F) -> u32
    requires { F.IsAlwaysCallable answer }
{
    let mut sum = 0;
    for i in 0..count {
        sum = with_answer(sum, answer(start.wrapping_add(i)));
    }
    sum
}

// The checksum with one answer more. The modulus is the largest prime below 2^32.
fn with_answer(sum: u32, answer: u32) -> u32 {
    ((u64::from(sum) * 1_000_003 + u64::from(answer)) % 4_294_967_291) as u32
}
