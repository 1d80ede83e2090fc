// Cases of normalising and of coordinate lists. A font and the avar's offset in it are a case's last two
// words; without these it has no avar, which is an offset of 0.
use crate::parse::{Bytes, Rooms, bits, bytes, fixed, float, index, list, natural, room};
use crate::print::Output;
use axes::avar::adjust_axis;
use axes::axis::VarAxis;
use axes::fvar::Fvar;
use axes::variation::{instance_coords, normalized_coords};

#[derive(Clone, Copy)]
struct Avar<'a> {
    font: &'a [u8],
    offset: u32,
}

impl<'a> Avar<'a> {
    fn none() -> Avar<'a> {
        Avar {
            font: b"",
            offset: 0,
        }
    }

    fn read(font: &[u8], offset: &[u8], room: &'a mut Bytes) -> Option<Avar<'a>> {
        Some(Avar {
            offset: natural(offset)?,
            font: bytes(font, room)?,
        })
    }

    // The last words of a case that may be without.
    fn read_any(words: &[&[u8]], room: &'a mut Bytes) -> Option<Avar<'a>> {
        match words {
            [] => Some(Avar::none()),
            [font, offset] => Avar::read(font, offset, room),
            _ => None,
        }
    }

    // The same with an axis's index before it, which is 0 without.
    fn read_of_axis(words: &[&[u8]], room: &'a mut Bytes) -> Option<(u16, Avar<'a>)> {
        match words {
            [] => Some((0, Avar::none())),
            [axis, font, offset] => Some((index(axis)?, Avar::read(font, offset, room)?)),
            _ => None,
        }
    }
}

// Stands where no coordinate was written: none is the largest 2.14 number but by an avar.
const MARK: i16 = i16::MAX;

pub(crate) fn answer(words: &[&[u8]], rooms: &mut Rooms, out: &mut Output) -> Option<()> {
    match words {
        [b"adjust_axis", words @ ..] => put_adjusted(words, rooms, out),
        [b"normalized_coord", words @ ..] => put_coord(words, rooms, out),
        [b"normalized_coords", words @ ..] => put_settings(words, rooms, out),
        [b"instance_coords", words @ ..] => put_instance(words, rooms, out),
        _ => None,
    }
}

fn put_adjusted(words: &[&[u8]], rooms: &mut Rooms, out: &mut Output) -> Option<()> {
    let [axis, value, font, offset] = words else {
        return None;
    };
    let (axis, value) = (index(axis)?, fixed(value)?);
    let avar = Avar::read(font, offset, &mut rooms.font)?;
    out.value(adjust_axis(avar.font, avar.offset, axis, value));
    Some(())
}

fn put_coord(words: &[&[u8]], rooms: &mut Rooms, out: &mut Output) -> Option<()> {
    let [min, default, max, value, others @ ..] = words else {
        return None;
    };
    let (index, avar) = Avar::read_of_axis(others, &mut rooms.font)?;
    let axis = VarAxis {
        index,
        tag: 0,
        name_id: 0,
        flags: 0,
        min: fixed(min)?,
        default: fixed(default)?,
        max: fixed(max)?,
    };
    let coord = axis.normalized_coord(fixed(value)?, avar.font, avar.offset);
    out.put(coord);
    Some(())
}

fn put_settings(words: &[&[u8]], rooms: &mut Rooms, out: &mut Output) -> Option<()> {
    let [table, tags, values, size, avar @ ..] = words else {
        return None;
    };
    let mut coords = room(size, MARK)?;
    let (tags, values) = (list(tags, bits)?, list(values, float)?);
    let table = bytes(table, &mut rooms.table)?;
    let avar = Avar::read_any(avar, &mut rooms.font)?;
    out.put(normalized_coords(
        Fvar::new(table),
        table,
        avar.font,
        avar.offset,
        &tags,
        &values,
        &mut coords,
    ));
    out.list(&coords);
    Some(())
}

fn put_instance(words: &[&[u8]], rooms: &mut Rooms, out: &mut Output) -> Option<()> {
    let [table, i, size, avar @ ..] = words else {
        return None;
    };
    let i = index(i)?;
    let mut coords = room(size, MARK)?;
    let table = bytes(table, &mut rooms.table)?;
    let avar = Avar::read_any(avar, &mut rooms.font)?;
    out.put(instance_coords(
        Fvar::new(table),
        table,
        avar.font,
        avar.offset,
        i,
        &mut coords,
    ));
    out.list(&coords);
    Some(())
}
