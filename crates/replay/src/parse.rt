// The text of a case's arguments. Where a text says none of what is asked for, the answer is `None`.
use arrayvec::ArrayVec;
use numbers::Fixed;
pub(crate) use numerals::{index, natural};

// What the arguments of a case say has room in the program's own memory: bytes by two digits each, of
// which a line has fewer than 65,536, and lists of at most 256 elements.
pub(crate) type Bytes = ArrayVec<u8, 32768>;

pub(crate) type List<T> = ArrayVec<T, 256>;

// Room for the bytes that a case may have: a table, and a font. It is lent from case to case: handed on by
// value, the bytes would be copied whole at each `?`.
#[derive(Drop)]
pub(crate) struct Rooms {
    pub(crate) table: Bytes,
    pub(crate) font: Bytes,
}

impl Rooms {
    pub(crate) fn new() -> Rooms {
        Rooms {
            table: ArrayVec::new(),
            font: ArrayVec::new(),
        }
    }
}

// 0 or 1 in decimal.
pub(crate) fn flag(text: &[u8]) -> Option<bool> {
    match natural(text)? {
        0 => Some(false),
        1 => Some(true),
        _ => None,
    }
}

// A 16.16 number: its raw integer in decimal.
pub(crate) fn fixed(text: &[u8]) -> Option<Fixed> {
    Some(Fixed::from_bits(numerals::integer(text)?))
}

// A signed 16-bit number in decimal, as a 2.14 number's raw integer is.
pub(crate) fn half(text: &[u8]) -> Option<i16> {
    i16::try_from(fixed(text)?.0).ok()
}

// 32 bits, as of a tag: eight hexadecimal digits.
pub(crate) fn bits(text: &[u8]) -> Option<u32> {
    numerals::float_bits(text)
}

pub(crate) fn float(text: &[u8]) -> Option<f32> {
    Some(numerals::float(bits(text)?))
}

// A scalar of a list, by its bits.
pub(crate) fn scalar(text: &[u8]) -> Option<i32> {
    Some(bits(text)?.cast_signed())
}

// A list's elements, with a comma between two, or a minus for none.
pub(crate) fn list<T: Default + Drop, F: Fn(&[u8]) -> Option<T>>(
    text: &[u8],
    element: F,
) -> Option<List<T>>
    requires { F.IsAlwaysCallable element }
{
    let mut list = ArrayVec::new();
    if text == b"-".as_slice() {
        return Some(list);
    }
    for part in text.split(|byte| *byte == b',') {
        list.try_push(element(part)?).ok()?;
    }
    Some(list)
}

// 2.14 numbers, as coordinates are.
pub(crate) fn halves(text: &[u8]) -> Option<List<i16>> {
    list(text, half)
}

// A table of a font, by its offset there, and coordinates.
#[derive(Drop)]
pub(crate) struct Place<'a> {
    pub(crate) font: &'a [u8],
    pub(crate) offset: u32,
    pub(crate) coords: List<i16>,
}

impl<'a> Place<'a> {
    pub(crate) fn read(
        font: &[u8],
        offset: &[u8],
        coords: &[u8],
        rooms: &'a mut Rooms,
    ) -> Option<Place<'a>> {
        Some(Place {
            offset: natural(offset)?,
            coords: halves(coords)?,
            font: bytes(font, &mut rooms.font)?,
        })
    }
}

// A list to be written to, of as many elements as the text says. A mark stands where nothing was written.
pub(crate) fn room<T: Default + Copy + Drop>(text: &[u8], mark: T) -> Option<List<T>> {
    let mut list = ArrayVec::new();
    for _ in 0..natural(text)? {
        list.try_push(mark).ok()?;
    }
    Some(list)
}

// Bytes, two hexadecimal digits each, or a minus for none. They lie in the room that is lent.
pub(crate) fn bytes<'a>(text: &[u8], room: &'a mut Bytes) -> Option<&'a [u8]> {
    room.clear();
    if text == b"-".as_slice() {
        return Some(b"");
    }
    if text.is_empty() {
        return None;
    }
    for pair in text.chunks(2) {
        let [high, low] = pair else {
            return None;
        };
        room.try_push(octet(*high, *low)?).ok()?;
    }
    Some(room.as_slice())
}

// The byte with two hexadecimal digits. (`hex` takes capitals too.)
fn octet(high: u8, low: u8) -> Option<u8> {
    Some(16 * numerals::digit(high)? + numerals::digit(low)?)
}
