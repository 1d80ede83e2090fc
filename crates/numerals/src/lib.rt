// Numbers in a text. A text is a list of ASCII codes.
#![tactic(auto)]

ghost use Rattle.std.specs.Prelude.{◌≡◌, ◌≤◌, from_bits, IfSome};
ghost use Rattle.std.specs.Float.{binary32};
ghost use Rattle.numerals.specs.Parse.{digit_of, number_in, place_in, integer_bits, float_bits};

// A digit's value. Capital letters are no digits here, which `char::to_digit` takes.
pub fn digit(byte: u8) -> Option<u8>
    ensures value { result ≡ digit_of byte }
    ensures bound { IfSome result (λ d. d ≤ 15) }
{
    match byte {
        b'0'..=b'9' => Some(byte - b'0'),
        b'a'..=b'f' => Some(byte - b'a' + 10),
        _ => None,
    }
}

// One digit or more, whose value is below 2^32. Not `from_str_radix`, which takes a plus and capitals.
fn digits(text: &[u8], base: u32) -> Option<u32>
    ensures { result ≡ number_in base text.now }
{
    if text.is_empty() {
        return None;
    }
    let mut number: u32 = 0;
    for &byte in text {
        let value = u32::from(digit(byte)?);
        if value >= base {
            return None;
        }
        number = number.checked_mul(base)?.checked_add(value)?;
    }
    Some(number)
}

// A number below 2^32 in decimal.
pub fn natural(text: &[u8]) -> Option<u32>
    ensures { result ≡ number_in 10 text.now }
{
    digits(text, 10)
}

// A number below 2^16 in decimal.
pub fn index(text: &[u8]) -> Option<u16>
    ensures { result ≡ place_in text.now }
{
    u16::try_from(natural(text)?).ok()
}

// The 32 bits of a signed number in decimal, perhaps with a minus, from -2^31 to 2^31 - 1.
pub fn integer(text: &[u8]) -> Option<u32>
    ensures { result ≡ integer_bits text.now }
{
    match text {
        [b'-', magnitude @ ..] => natural(magnitude)
            .filter(|&n| n <= 0x8000_0000)
            .map(u32::wrapping_neg),
        _ => natural(text).filter(|&n| n < 0x8000_0000),
    }
}

// A float's bits: eight hexadecimal digits.
pub fn float_bits(text: &[u8]) -> Option<u32>
    ensures { result ≡ float_bits text.now }
{
    if text.len() == 8 {
        digits(text, 16)
    } else {
        None
    }
}

// The float with the bits n. All NaNs are one.
pub fn float(n: u32) -> f32
    ensures { result ≡ from_bits binary32 n }
{
    std::num::f32_from_bits_with_nan(n)
}
