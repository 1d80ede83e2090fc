// Cases of the item variation store, of a glyph's deltas and of MVAR, and its tags.
use crate::parse::{Place, Rooms, bits, bytes, index, natural};
use crate::print::{Output, Print};
use store::metric::float_of;
use store::mvar::Header;
use store::mvar_tags::*;
use store::{item, metric, mvar};

pub(crate) fn answer(words: &[&[u8]], rooms: &mut Rooms, out: &mut Output) -> Option<()> {
    match words {
        [b"mvar_tags"] => put_tags(out),
        [b"mvar_new", font, offset] => {
            let offset = natural(offset)?;
            out.put(mvar::mvar_header(bytes(font, &mut rooms.font)?, offset))
        }
        [b"item_delta", font, store, outer, inner, coords] => {
            let (outer, inner) = (natural(outer)?, index(inner)?);
            let at = Place::read(font, store, coords, rooms)?;
            out.put(item::item_delta(at.font, at.offset, outer, inner, &at.coords))
        }
        [name, font, offset, what, coords] => {
            return put_delta(name, &Place::read(font, offset, coords, rooms)?, what, out);
        }
        _ => return None,
    }
    Some(())
}

// The delta of a tag or a glyph.
fn put_delta(name: &[u8], at: &Place, what: &[u8], out: &mut Output) -> Option<()> {
    let Place {
        font,
        offset,
        coords,
    } = at;
    match name {
        b"mvar_fixed" => out.put(mvar::mvar_delta(font, *offset, bits(what)?, coords)),
        b"mvar_delta" => out.value(float_of(mvar::mvar_delta(font, *offset, bits(what)?, coords))),
        b"advance_fixed" => {
            out.put(metric::advance_delta_fixed(font, *offset, index(what)?, coords))
        }
        b"sb_fixed" => out.put(metric::sb_delta_fixed(font, *offset, index(what)?, coords)),
        b"advance_delta" => out.value(metric::advance_delta(font, *offset, index(what)?, coords)),
        b"sb_delta" => out.value(metric::sb_delta(font, *offset, index(what)?, coords)),
        _ => return None,
    }
    Some(())
}

impl Print for Header {
    fn print(self, out: &mut Output) {
        out.put(self.rec_size);
        out.next(self.rec_count);
        out.next(self.store)
    }
}

fn put_tags(out: &mut Output) {
    let tags = [
        HASC, HDSC, HLGP, HCRS, HCRN, HCOF, HCLA, HCLD, VASC, VDSC, VLGP, VCRS, VCRN, VCOF, XHGT,
        CPHT, UNDO, UNDS, STRO, STRS, SBXO, SBYO, SBXS, SBYS, SPXO, SPYO, SPXS, SPYS,
    ];
    out.values(&tags)
}
