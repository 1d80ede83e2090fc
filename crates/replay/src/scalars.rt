// Cases of scalars in a lent list: where a store is, filling a list, and the deltas that are read with one.
use crate::parse::{Place, Rooms, bits, bytes, index, list, natural, scalar};
use crate::print::Output;
use lines::filling::fill_scalars;
use lines::{item, metric, mvar};
use readers::Refusal;
use store::metric::{float_of, store_of};

// A delta, and of what: of a row, a glyph or a tag.
#[derive(Clone, Copy)]
enum Delta {
    Item { outer: u32, inner: u16 },
    AdvanceFixed(u16),
    SbFixed(u16),
    Advance(u16),
    Sb(u16),
    MvarFixed(u32),
    Mvar(u32),
}

pub(crate) fn answer(words: &[&[u8]], rooms: &mut Rooms, out: &mut Output) -> Option<()> {
    match words {
        [b"store_offset", font, xvar] => {
            let xvar = natural(xvar)?;
            out.put(store_of(bytes(font, &mut rooms.font)?, xvar))
        }
        [b"mvar_store_offset", font, offset] => {
            let offset = natural(offset)?;
            out.put(mvar::mvar_store(bytes(font, &mut rooms.font)?, offset))
        }
        [b"fill_scalars", font, store, coords, scalars] => {
            let mut scalars = list(scalars, scalar)?;
            let at = Place::read(font, store, coords, rooms)?;
            out.put(fill_scalars(at.font, at.offset, &at.coords, &mut scalars));
            out.list(&scalars)
        }
        [name, font, offset, what @ .., scalars] if name.ends_with(b"_with") => {
            let delta = Delta::read(name.strip_suffix(b"_with")?, what)?;
            let offset = natural(offset)?;
            let scalars = list(scalars, scalar)?;
            delta.put(bytes(font, &mut rooms.font)?, offset, &scalars, out)
        }
        // what filling answers, the list, and the delta that is read with what was left
        [name, font, offset, what @ .., coords, scalars] => {
            let delta = Delta::read(name.strip_suffix(b"_filled")?, what)?;
            let mut scalars = list(scalars, scalar)?;
            let at = Place::read(font, offset, coords, rooms)?;
            out.put(delta.fill(&at, &mut scalars));
            out.list(&scalars);
            out.byte(b' ');
            delta.put(at.font, at.offset, &scalars, out)
        }
        _ => return None,
    }
    Some(())
}

impl Delta {
    fn read(name: &[u8], what: &[&[u8]]) -> Option<Delta> {
        Some(match (name, what) {
            (b"item_delta", [outer, inner]) => Delta::Item {
                outer: natural(outer)?,
                inner: index(inner)?,
            },
            (b"advance_fixed", [glyph]) => Delta::AdvanceFixed(index(glyph)?),
            (b"sb_fixed", [glyph]) => Delta::SbFixed(index(glyph)?),
            (b"advance_delta", [glyph]) => Delta::Advance(index(glyph)?),
            (b"sb_delta", [glyph]) => Delta::Sb(index(glyph)?),
            (b"mvar_fixed", [tag]) => Delta::MvarFixed(bits(tag)?),
            (b"mvar_delta", [tag]) => Delta::Mvar(bits(tag)?),
            _ => return None,
        })
    }

    // Fills the list by the store at the offset, the table's store, or the MVAR's own.
    fn fill(self, at: &Place, scalars: &mut [i32]) -> Result<u16, Refusal> {
        let Place {
            font,
            offset,
            coords,
        } = at;
        match self {
            Delta::Item { .. } => fill_scalars(font, *offset, coords, scalars),
            Delta::AdvanceFixed(_) | Delta::SbFixed(_) | Delta::Advance(_) | Delta::Sb(_) => {
                let store = store_of(font, *offset)?;
                fill_scalars(font, store, coords, scalars)
            }
            Delta::MvarFixed(_) | Delta::Mvar(_) => {
                let store = mvar::mvar_store(font, *offset)?;
                let mvar = font.get(*offset as usize..).unwrap_or(b"");
                fill_scalars(mvar, u32::from(store), coords, scalars)
            }
        }
    }

    // The delta that is read with a list.
    fn put(self, font: &[u8], offset: u32, scalars: &[i32], out: &mut Output) {
        match self {
            Delta::Item { outer, inner } => {
                out.put(item::item_delta_with(font, offset, outer, inner, scalars))
            }
            Delta::AdvanceFixed(glyph) => {
                out.put(metric::advance_delta_fixed_with(font, offset, glyph, scalars))
            }
            Delta::SbFixed(glyph) => {
                out.put(metric::sb_delta_fixed_with(font, offset, glyph, scalars))
            }
            Delta::Advance(glyph) => {
                out.value(metric::advance_delta_with(font, offset, glyph, scalars))
            }
            Delta::Sb(glyph) => out.value(metric::sb_delta_with(font, offset, glyph, scalars)),
            Delta::MvarFixed(tag) => { out.put(mvar::mvar_delta_with(font, offset, tag, scalars)) }
            Delta::Mvar(tag) => {
                out.value(float_of(mvar::mvar_delta_with(font, offset, tag, scalars)))
            }
        }
    }
}
