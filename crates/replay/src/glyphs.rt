// Cases of a glyph's advances, bearings and vertical origin.
use crate::parse::{List, Rooms, bits, bytes, flag, float, half, halves, index, list, natural};
use crate::print::Output;
use metrics::glyph;
use metrics::glyph::GlyphMetrics;
use metrics::vertical::Vertical;

// A glyph of a font at some coordinates.
#[derive(Drop)]
pub(crate) struct Glyph<'a> {
    pub(crate) font: &'a [u8],
    pub(crate) id: u16,
    pub(crate) coords: List<i16>,
}

impl<'a> Glyph<'a> {
    pub(crate) fn read(
        font: &[u8],
        id: &[u8],
        coords: &[u8],
        rooms: &'a mut Rooms,
    ) -> Option<Glyph<'a>> {
        Some(Glyph {
            id: index(id)?,
            coords: halves(coords)?,
            font: bytes(font, &mut rooms.font)?,
        })
    }

    // The glyph metrics at its coordinates, in a scale.
    pub(crate) fn scaled(&self, m: GlyphMetrics, scale: f32) -> GlyphMetrics {
        glyph::materialize_glyph_metrics(m, self.font, &self.coords).linear_scale(scale)
    }
}

pub(crate) fn answer(words: &[&[u8]], rooms: &mut Rooms, out: &mut Output) -> Option<()> {
    match words {
        [b"has_vertical_metrics", vertical] => {
            out.value(upright(vertical, 0)?.has_vertical_metrics())
        }
        [b"has_variations", hvar, has_vvar] => {
            let m = GlyphMetrics {
                has_vvar: flag(has_vvar)?,
                ..level(0, natural(hvar)?)
            };
            out.value(m.has_variations())
        }
        [b"glyph_scale", words @ ..] => return put_scaled(words, out),
        [name, font, tables, id, coords, unvaried, scale] => {
            let m = without_scale(name, tables)?;
            let scale = float(scale)?;
            let glyph = Glyph::read(font, id, coords, rooms)?;
            return put_measure(name, glyph.scaled(m, scale), &glyph, unvaried, out);
        }
        [b"vertical_origin", font, tables, id, coords, numbers @ ..] => {
            let origin = Origin::read(numbers)?;
            let m = upright(tables, origin.units_per_em)?;
            origin.put(m, &Glyph::read(font, id, coords, rooms)?, out)
        }
        _ => return None,
    }
    Some(())
}

// The scale before is to be replaced.
fn put_scaled(words: &[&[u8]], out: &mut Output) -> Option<()> {
    let [units_per_em, ppem, advance] = words else {
        return None;
    };
    let doubled = level(index(units_per_em)?, 0).linear_scale(2.0);
    let m = doubled.scale(float(ppem)?);
    out.value(m.advance_width(b"", 0, &[], index(advance)?));
    Some(())
}

fn without_scale(name: &[u8], tables: &[u8]) -> Option<GlyphMetrics> {
    match name {
        b"advance_width" | b"lsb" => Some(level(0, natural(tables)?)),
        _ => upright(tables, 0),
    }
}

fn put_measure(
    name: &[u8],
    m: GlyphMetrics,
    glyph: &Glyph,
    unvaried: &[u8],
    out: &mut Output,
) -> Option<()> {
    let Glyph { font, id, coords } = glyph;
    out.value(match name {
        b"advance_width" => m.advance_width(font, *id, coords, index(unvaried)?),
        b"lsb" => m.lsb(font, *id, coords, half(unvaried)?),
        b"advance_height" => m.advance_height(font, *id, coords, index(unvaried)?),
        b"tsb" => m.tsb(font, *id, coords, half(unvaried)?),
        _ => return None,
    });
    Some(())
}

// What a case of a vertical origin says behind the coordinates.
#[derive(Clone, Copy)]
struct Origin {
    bearing: i16,
    y_max: Option<i16>,
    vorg: Option<i16>,
    units_per_em: u16,
    scale: f32,
}

impl Origin {
    fn read(words: &[&[u8]]) -> Option<Origin> {
        let [bearing, y_max, vorg, units_per_em, scale] = words else {
            return None;
        };
        Some(Origin {
            bearing: half(bearing)?,
            y_max: ordinate(y_max)?,
            vorg: ordinate(vorg)?,
            units_per_em: index(units_per_em)?,
            scale: float(scale)?,
        })
    }

    fn put(self, m: GlyphMetrics, glyph: &Glyph, out: &mut Output) {
        out.value(
            glyph.scaled(m, self.scale).vertical_origin(
                glyph.font,
                glyph.id,
                &glyph.coords,
                self.bearing,
                self.y_max,
                self.vorg,
            ),
        )
    }
}

// A number, or a minus for none.
pub(crate) fn ordinate(text: &[u8]) -> Option<Option<i16>> {
    match text {
        b"-" => Some(None),
        _ => Some(Some(half(text)?)),
    }
}

// With nothing for vertical type.
pub(crate) fn level(units_per_em: u16, hvar: u32) -> GlyphMetrics {
    GlyphMetrics {
        units_per_em,
        glyph_count: 0,
        hmtx: 0,
        hvar,
        hmtx_count: 0,
        has_vvar: false,
        vertical: Vertical::synthesize(0, 0.0, 0.0),
        scale: 1.0,
    }
}

// 0 for glyf or 1 for VORG, and VVAR's offset; or 2, MVAR's offset, advance and origin.
fn upright(text: &[u8], units_per_em: u16) -> Option<GlyphMetrics> {
    let words = list(text, bits)?;
    let vertical = match words.as_slice() {
        [0, vvar] => Vertical::VmtxGlyf {
            loca_fmt: 0,
            long_count: 0,
            vmtx: 0,
            vvar: *vvar,
            glyf: 0,
            loca: 0,
        },
        [1, vvar] => Vertical::VmtxVorg {
            long_count: 0,
            vmtx: 0,
            vvar: *vvar,
            vorg: 0,
        },
        [2, mvar, advance, origin] => synthesized(*mvar, *advance, *origin),
        _ => return None,
    };
    Some(GlyphMetrics {
        vertical,
        ..level(units_per_em, 0)
    })
}

// The advance and the origin by their bits.
pub(crate) fn synthesized(mvar: u32, advance: u32, origin: u32) -> Vertical {
    Vertical::Synthesized {
        mvar,
        advance: numerals::float(advance),
        origin: numerals::float(origin),
    }
}
